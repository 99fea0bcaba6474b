//! A test bench: a module is driven with the images of a file, and the pictures that it shows are made a file of images.
#![tactic(auto)]

mod batch;
mod bench;
mod clocking;
mod drives;
mod picture;
mod writing;

pub use batch::BATCH_PIXELS;
pub use bench::{run_bench, set_up};
pub use clocking::{Bench, Feed, all_clocks, clock};
pub use drives::frame_drive;
pub use picture::Shown;
pub use writing::{first_short, write_rounds};
