//! A module is driven on rounds of frames, and the trace of its run is written clock by clock.
#![tactic(auto)]

mod clocking;
mod ending;
mod laws;
mod tracer;
mod tracing;

pub use ending::TraceEnd;
pub use laws::{one_end_law, trace_grows_law};
pub use tracer::Tracer;
pub use tracing::run_trace;
