//! Intervals of whole numbers that hold the values of expressions and of images.
#![tactic(auto)]

mod arithmetic;
mod expression;
mod images;
mod interval;
mod least;
mod wider;

pub use arithmetic::{binary_range, conversion_range, scaling_range, unary_range};
pub use expression::{Bounds, bounds_of, range_of};
pub use images::image_ranges;
pub use interval::Interval;
pub use wider::{WiderImage, WiderReason, wider_images};
