//! The system of constraints on the delays of kept images: which delays are causal, which are the earliest, the bits that they need, and what a flow says of them.
#![tactic(auto)]

mod build;
mod laws;
mod measure;
mod network;
mod numbers;
mod placed;
mod system;

pub use build::{
    begin_node, end_node, hold_constraint, keep_constraint, read_constraint, start_constraint,
};
pub use laws::{flow_shows_least_law, weak_duality_law};
pub use measure::{age, age_held, bits, causal, depth};
pub use network::Constraint;
pub use numbers::{begin_numbers, earliest, earliest_numbers, end_numbers};
pub use placed::{PlacedRead, find, offset, place_of, placed_read};
pub use system::System;
