//! Where a pixel is, and whether a read falls inside: counters of column and row, and tests at the edges of a frame.
#![tactic(auto)]

mod bands;
mod counters;
mod extents;
mod frame_conditions;
mod frame_tests;
mod laws;
mod paths;
mod pixel;
mod registers;
mod starts;
mod step;

pub use counters::position;
pub use extents::{Extent, leading, passing};
pub use frame_conditions::{at, constant_test, inside, leads};
pub use frame_tests::FrameTests;
pub use laws::{
    frame_tests_last_law, one_step_law, one_way_law, pixels_last_law, steps_end_law, steps_lead_law,
};
pub use pixel::Pixel;
pub use step::Step;
