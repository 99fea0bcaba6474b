//! Programs as images that are expressions of earlier images: their pointwise meaning, their reads, and passes that keep both.
#![tactic(auto)]

mod expr;
mod laws;
mod program;
mod rewrite;
mod typing;
mod values;

pub use expr::{Edge, Expr};
pub use laws::{meaning_law, rewriting_law};
pub use program::{Definition, Input, Parts, Program};
pub use rewrite::{Rewrite, run_passes};
pub use values::{binary_value, conversion_value, scaling_value, select_value, unary_value};

/// The greatest size of an offset in an expression, to either side. Inlining gives offsets of at most 64, those of the text; a pass or a caller may give greater ones. A path has at most 1,024 of them, so their sum is below 2^27.
pub const FARTHEST: u32 = 65_536;
