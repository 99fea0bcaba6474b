//! The trace of a module's run as a value change dump (IEEE Std 1364-2005, clause 18).
#![tactic(auto)]

mod again;
mod clock;
mod fault;
mod heading;
mod laws;
mod number;
mod reading;
mod steps;
mod trace;

pub use again::replay;
pub use clock::TIME_LINE_BYTES;
pub use fault::VcdError;
pub use heading::header;
pub use laws::{one_change_law, one_fault_law, one_trace_law};
pub use trace::Trace;
