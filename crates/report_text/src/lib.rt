//! Reports of delays and least bits as texts: what such a text is, and how it is read and written.
#![tactic(auto)]

mod field;
mod flow;
mod reading;
mod reading_laws;
mod report;
mod step;
mod word;
mod writing;

pub use reading::{ReportFault, read};
pub use reading_laws::{one_reading_law, read_again_law};
pub use report::{FlowLine, ImageLine, Limits, Report};
pub use writing::write;
