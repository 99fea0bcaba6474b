//! What every crate names: spans, texts, types of whole numbers and their operators, frames, kept images and their reads, and the limits.
#![tactic(auto)]

mod ascii;
mod frame;
mod limit;
mod number;
mod operator;
mod span;
mod stencil_rules;
mod stencils;
mod text;
mod ty;

pub use ascii::{digits_length, is_digit, is_letter, is_white, is_word_byte, word_length};
pub use frame::FrameSize;
pub use limit::limits_law;
pub use number::{bits_for, saturate, saturate_law, wrap, wrap_law};
pub use operator::{Binary, Conversion, Scaling, Unary, select_type};
pub use span::Span;
pub use stencil_rules::is_before;
pub use stencils::{Image, LiveRead, Stencils};
pub use text::Text;
pub use ty::Ty;

/// Out of memory: the error of a call that can fail in no other way.
pub type OutOfMemory = std::alloc::AllocError;

/// The greatest length of a program's text, in bytes.
pub const MAX_SOURCE_BYTES: usize = 1_048_576;

/// The greatest length of a Verilog text that is read, in bytes.
pub const MAX_VERILOG_BYTES: usize = 268_435_456;

/// The greatest width and the greatest height of a frame, in pixels. The least is 1.
pub const MAX_SIDE: u32 = 4_096;

/// The greatest number of definitions in a program.
pub const MAX_DEFINITIONS: usize = 256;

/// The greatest size of an offset in a program's text, to either side.
pub const MAX_OFFSET: u64 = 64;

/// The greatest number of brackets that are open at once in a program's text.
pub const MAX_OPEN_BRACKETS: usize = 128;

/// The greatest depth of an expression in a program's text. A number or a read has depth 1.
pub const MAX_SOURCE_DEPTH: usize = 512;

/// The greatest depth of an expression once inline images are substituted.
pub const MAX_INLINED_DEPTH: usize = 1_024;

/// The greatest number of nodes once inline images are substituted, counted as a tree.
pub const MAX_NODES: u64 = 65_536;

/// The greatest number of live reads of the kept images.
pub const MAX_LIVE_READS: usize = 4_096;

/// The greatest number of live reads that is specified as it is; more of them count as one more than this.
pub const MAX_COUNTED_READS: usize = 65_536;

/// The greatest number of buffer bits, of a plan and of the arrays of a Verilog text that is read.
pub const MAX_BUFFER_BITS: u64 = 67_108_864;

/// The greatest latency, in clocks.
pub const MAX_LATENCY: u64 = 67_108_864;

/// The greatest length of a name, in bytes.
pub const MAX_NAME_BYTES: usize = 64;

/// The greatest length of a PGM header with its `P5`, in bytes.
pub const MAX_HEADER_BYTES: usize = 65_536;

/// The greatest maxval of a PGM image. The least is 1.
pub const MAX_MAXVAL: u16 = 65_535;

/// The greatest number of clocks that `sim` is asked for.
pub const MAX_CLOCKS: u64 = 100_000_000;

/// The greatest number that `make` is given.
pub const MAX_MADE: u32 = 4_194_303;

/// The greatest width of a type of values, in bits. The least is 1.
pub const MAX_WIDTH: u8 = 64;

/// The greatest width of the type of an input or an output, in bits. The least is 1.
pub const MAX_PORT_WIDTH: u8 = 16;

/// The greatest number by which a value is shifted, in bits.
pub const MAX_SHIFT: u64 = 63;

/// The greatest number of inputs of a program. The least is 1.
pub const MAX_INPUTS: usize = 8;

/// The greatest number of outputs of a program. The least is 1.
pub const MAX_OUTPUTS: usize = 8;

/// The greatest number of kept images: the inputs and the definitions.
pub const MAX_KEPT_IMAGES: usize = 264;

/// The greatest number of images in a PGM file. The least is 1.
pub const MAX_FILE_IMAGES: u64 = 65_536;

/// The greatest length of a PGM file, in bytes.
pub const MAX_PGM_BYTES: u64 = 268_435_456;

/// The greatest age that is asked of each live read, in clocks.
pub const MAX_AGE: u64 = 64;

/// The greatest number of clocks that `sim` lets pass between two held clocks. The least is 1.
pub const MAX_HOLD: u64 = 1_000_000;

/// The greatest length of a report that is read, in bytes.
pub const MAX_REPORT_BYTES: usize = 4_194_304;
