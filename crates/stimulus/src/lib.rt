//! How a module is driven on a test bench: the images of a file, the inputs of each clock, and why there are no pictures.
#![tactic(auto)]

mod drive;
mod input;
mod laws;
mod pixels;
mod stop;

pub use drive::{Drive, clocks_left, is_last, next_left};
pub use input::{BenchInput, read_input};
pub use laws::{one_bench_law, one_input_law};
pub use pixels::{fill_dins, greatest_of, pixel, zeros};
pub use stop::{BenchFault, Stop};
