// What is answered on a report.

/// Whether a report holds.
#[derive(Clone, Copy, Debug, PartialEq, Eq)]
pub enum Verdict {
    Yes,
    /// The number of the first wrong line, counted from 1.
    No { line: u64 },
}
