// Why a text is no trace.

/// Why a text is no trace of a module.
#[derive(Clone, Copy, Debug, PartialEq, Eq, thiserror::Error)]
pub enum VcdError {
    /// The first line that continues no trace of the module, counted from 1. If the text ends too early, the line that is missing or that has no LF.
    #[error("line {line}")]
    Fault { line: u64 },
    #[error("out of memory")]
    OutOfMemory,
}
