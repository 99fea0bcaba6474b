//! The live reads of a program: exactly those that some pixel makes.
#![tactic(auto)]

mod found;
mod images;
mod kept;
mod laws;
mod live;
mod path;
mod reader;
mod reads;

pub use laws::one_answer_law;
pub use live::{StencilFault, live_reads};
