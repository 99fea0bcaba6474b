//! How a call of the program ends: its exit status, and the line that it writes to Fault.
#![tactic(auto)]

mod ending;
mod line;
mod verilog;

pub use ending::{Ending, ImageFault, ReportFault};
pub use line::{LINE_BYTES, Line, holds_line};
pub use verilog::{VerilogFault, VerilogKind};
