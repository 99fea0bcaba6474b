// Why a trace is not whole.

use stimulus::Stop;

/// Why there is no whole trace of a run.
#[derive(Clone, Copy, Debug, PartialEq, Eq, thiserror::Error)]
pub enum TraceEnd {
    /// An index is past its array.
    #[error("{0}")]
    Stopped(Stop),
    #[error("cannot write")]
    Write,
}
