// A report, and its lines.

use dk_base::Text;

/// The limits of a plan: the greatest number of buffer bits, and the greatest latency in clocks.
#[derive(Clone, Copy, Debug, PartialEq, Eq)]
pub struct Limits {
    pub bits: u64,
    pub latency: u64,
}

/// A kept image: its name, the width of its type in bits, and its delay and its depth in clocks.
#[derive(Debug, Drop)]
pub struct ImageLine {
    pub name: Text,
    pub width: u8,
    pub delay: u64,
    pub depth: u64,
}

/// The flow on a constraint. Images go by their places among the image lines.
#[derive(Clone, Copy, Debug, PartialEq, Eq)]
pub enum FlowLine {
    /// An image ends no earlier than it begins.
    Hold {
        image: usize,
        flow: u64,
    },
    /// An image begins no earlier than the inputs.
    Start {
        image: usize,
        flow: u64,
    },
    /// The image `reader` reads the image `source` at `dx` columns to the right and `dy` rows down: that read is old enough.
    Read {
        reader: usize,
        source: usize,
        dx: i32,
        dy: i32,
        flow: u64,
    },
    /// The depth of the image `source` is enough for that read.
    Keep {
        reader: usize,
        source: usize,
        dx: i32,
        dy: i32,
        flow: u64,
    },
}

/// What a report says. In version 1 the limits, the age and the reads are 0.
#[derive(Debug, Drop)]
pub struct Report {
    /// 1, 2 or 3.
    pub version: u8,
    pub limits: Limits,
    /// The age that was asked of each live read, in clocks.
    pub age: u8,
    /// The columns of the frame.
    pub width: u32,
    /// The rows of the frame.
    pub height: u32,
    pub images: Vec<ImageLine>,
    /// The delay of each output, in clocks.
    pub latencies: Vec<u64>,
    /// The clocks that one round takes.
    pub clocks: u64,
    pub bits: u64,
    /// The number of live reads.
    pub reads: u64,
    pub flow: Vec<FlowLine>,
}
