//! Levels of operators: how many follow one another in the bodies of a program.
#![tactic(auto)]

mod deep;
mod level;
mod operators;
mod reasons;
mod room;
mod worked;

pub use deep::{is_deep, is_shallower};
pub use level::greatest_level;
pub use operators::{
    binary_levels, conversion_levels, scaling_levels, select_levels, unary_levels,
};
pub use reasons::{DeepBody, Reason, deep_bodies};
pub use worked::{worked_levels, worked_operator_levels};
