//! The program and the image that are made from a number, the sum of an output's samples, and the line that reports it.
#![tactic(auto)]

mod definition;
mod draws;
mod figures;
mod laws;
mod made;
mod number;
mod pieces;
mod sums;
mod worked;

pub use figures::{Figures, summary};
pub use laws::{made_is_read_law, made_is_small_law};
pub use made::{Made, make};
pub use sums::sample_sum;
pub use worked::{made_of_one, made_of_six_definitions, made_of_three, made_of_zero};
