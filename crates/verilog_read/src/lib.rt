//! The module of a Verilog text, or its first fault.
#![tactic(auto)]

mod enables;
mod limits;
mod parts;
mod text;

pub use enables::{ModuleError, read_for};
pub use text::read;
