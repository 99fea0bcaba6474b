// A stretch of a text.

/// The bytes of a text from `start` up to `stop`, counted from 0: `start` included, `stop` not.
#[derive(Clone, Copy, Debug, PartialEq, Eq)]
pub struct Span {
    pub start: usize,
    pub stop: usize,
}
