//! Line buffers: the last pixels of an image, by their ages, as rings and as chains of segments.
#![tactic(auto)]

mod blocks;
mod chains;
mod images;
mod laws;
mod lines;
mod rings;
mod sharing;

pub use chains::{block_chain, chain};
pub use images::BufferedImage;
pub use laws::{buffers_join_law, buffers_last_law, exact_bits_law};
pub use rings::ring;
pub use sharing::Turns;
