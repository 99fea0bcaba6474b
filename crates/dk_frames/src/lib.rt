//! Frames of samples: what an image file is read as, and what a program is evaluated on.
#![tactic(auto)]

mod frame;
mod samples;

pub use frame::Frame;
pub use samples::{SampleSlice, Samples};
