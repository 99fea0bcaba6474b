//! The report of a program's plan, as a text.
#![tactic(auto)]

mod flow;
mod images;
mod laws;
mod printing;

pub use laws::printed_meets_law;
pub use printing::print;
pub use report_text::{
    FlowLine, ImageLine, Limits, Report, ReportFault, one_reading_law, read, read_again_law, write,
};
