//! A simulator of modules, a batch of clocks at a time.
#![tactic(auto)]

mod batches;
mod each;
mod judge;
mod pause;
mod pieces;
mod rows;
mod stored;

pub use batches::{Batches, Stop};
