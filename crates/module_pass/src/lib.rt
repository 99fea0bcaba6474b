//! Passes over modules: what a pass keeps, and what passes share.
#![tactic(auto)]

mod bits;
mod laws;
mod making;
mod naming;
mod parts;

pub use bits::{same_array_bits, same_buffer_bits, same_word_bits};
pub use laws::{passes_chain_law, runs_follow_law};
pub use making::made_module;
