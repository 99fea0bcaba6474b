//! Files of images for a program: the rounds of a file are read for its inputs, and its outputs on a round are written.
#![tactic(auto)]

mod outputs;
mod rounds;

pub use outputs::write_outputs;
pub use rounds::read_program_rounds;
