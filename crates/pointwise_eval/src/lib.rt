//! The pictures of a program, each pixel computed from the definition.
#![tactic(auto)]

mod evaluation;
mod fit;
mod lane;
mod narrow;
mod need;
mod plane;
mod point;
mod rows;
mod value;
mod walk;

pub use dk_frames::{Frame, SampleSlice, Samples};
pub use evaluation::evaluate;
pub use fit::frames_fit;
