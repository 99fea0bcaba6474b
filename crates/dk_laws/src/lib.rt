//! Laws of the definitions of dk_top that no call uses.
#![tactic(auto)]

mod compiled;
mod streamed;

pub use compiled::{compile_then_sim_law, correct_law};
pub use streamed::one_rest_law;
