//! The tokens that could be in place of the one at which a program is faulty.
#![tactic(auto)]

mod class;
mod copied;
mod expected;

pub use class::{TokenClass, samples_law};
pub use expected::expected_tokens;
