//! Programs as texts, on their way to circuits.
#![tactic(auto)]

mod accepted;
mod compiling;
mod cutting;
mod fault;
mod judging;
mod laws;
mod measures;
mod narrow_lines;
mod narrowing;
mod options;
mod reading;
mod reporting;
mod widening;

pub use accepted::Front;
pub use body_levels::{DeepBody, Reason};
pub use compiling::{Compiled, PlannedProgram, compile, compile_with, planned};
pub use cutting::{CutText, cut};
pub use fault::SourceError;
pub use judging::{first_fault, is_one_port};
pub use laws::{correct_law, drive_shows_law, one_at_age_law, one_source_law};
pub use measures::Measures;
pub use narrow_lines::push_wider;
pub use narrowing::{NarrowText, narrow};
pub use options::Options;
pub use reading::{front, typed};
pub use reporting::{Rewritten, cut_reported, narrow_reported, widen_reported};
pub use source_fault::{SourceFault, WidenFault};
pub use value_ranges::{WiderImage, WiderReason};
pub use widening::{WideMeasures, WideText, WidenError, one_widening_law, widen};
