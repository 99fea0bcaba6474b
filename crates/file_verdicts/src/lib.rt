//! Laws that each file has a verdict: what it is, or its first fault.
#![tactic(auto)]

mod images;
mod reports;
mod traces;

pub use images::{every_image_file_law, every_image_law};
pub use reports::every_report_law;
pub use traces::{every_trace_law, room_law};
