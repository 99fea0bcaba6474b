//! Rows guessed for batches of clocks.
#![tactic(auto)]

mod engine;
mod fill;
mod guess;
mod hints;
mod inputs;
mod proposals;
mod sources;
mod steps;
mod stored;
mod table;

pub use engine::Engine;
pub use guess::RowGuess;
pub use inputs::{Inputs, Piece};
pub use stored::Stored;
