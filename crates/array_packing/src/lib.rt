//! A pass over modules that packs arrays: several arrays in one of wider words.
#![tactic(auto)]

mod check;
mod filled;
mod groups;
mod joins;
mod laws;
mod nets;
mod once;
mod packing;
mod proposal;
mod slots;

pub use laws::{contents_seen_law, packing_law};
pub use packing::{Packed, pack};
pub use slots::Slot;
