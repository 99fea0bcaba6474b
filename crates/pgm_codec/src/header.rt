//! A header, and why there is none.

/// The numbers of a header, and how many bytes it has with its `P5`.
#[derive(Clone, Copy, Debug, PartialEq, Eq)]
pub struct Header {
    pub width: u32,
    pub height: u32,
    pub maxval: u16,
    pub length: usize,
}

/// Why bytes do not begin with a header.
#[derive(Clone, Copy, Debug, PartialEq, Eq, thiserror::Error)]
pub enum HeaderFault {
    /// The first two bytes are not `P5`.
    #[error("Magic")]
    Magic,
    /// The first 65,536 bytes begin a header and hold none whole.
    #[error("LongHeader")]
    LongHeader,
    /// The first byte that continues no header, or the end of the bytes inside one.
    #[error("Number {offset}")]
    Number { offset: usize },
    /// The first digit of a maxval that is 0 or above 65,535.
    #[error("Range {offset}")]
    Range { offset: usize },
}
