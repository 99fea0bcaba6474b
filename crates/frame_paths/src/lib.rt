//! What steps make of the pixels of a frame, columns and rows apart: from where they lead, and how far.
#![tactic(auto)]

mod moves;
mod path;

pub use moves::{Interval, Moves, Offsets};
pub use path::Path;
