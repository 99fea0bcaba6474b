//! What a stream holds between two calls.

ghost use Rattle.std.specs.Prelude.{IfOk};
ghost use Rattle.row_stream.specs.Whole.{IsMade};

use crate::batch::Batch;
use crate::line::{Line, OutputFormat};
use batch_sim::Batches;
use cycle_sim::Fill;
use dk_base::OutOfMemory;
use netlist::Module;
use std::alloc::Global;

/// A module of one din and one output, and all the memory that it takes to drive it with a file of images. `IsStream` is the invariant of its fields.
#[derive(Drop)]
pub struct Stream {
    /// The images that are written.
    pub format: OutputFormat,
    /// The width of the din.
    pub bits: u8,
    /// The module, after the latest clock.
    pub sim: Batches,
    // The line that is made.
    pub(crate) line: Line,
    // Room for a line that is read.
    pub(crate) row: Vec<u8>,
    // Room for the clocks of a line.
    pub(crate) batch: Batch,
}

impl Stream {
    /// A stream of a module whose registers and memories are zero at power-up. Its images are written in this format, and the samples that it is given have `bits` bits. No later call allocates memory.
    pub fn new(
        alloc: Global,
        module: &Module,
        format: OutputFormat,
        bits: u8,
    ) -> Result<Stream, OutOfMemory>
        ensures { IfOk result (IsMade «module».now.netlist format bits) }
    {
        let count = 2 * format.size.width as usize;
        let bytes = Vec::with_capacity(alloc, count)?;
        let row = vec![in alloc; 0; count]?;
        let batch = Batch::new(alloc, format.size.width as usize)?;
        let line = Line {
            bytes,
            count: 0,
            rows: 0,
        };
        let sim = Batches::new(alloc, module, Fill::Zeros)?;
        Ok(Stream {
            format,
            bits,
            sim,
            line,
            row,
            batch,
        })
    }
}
