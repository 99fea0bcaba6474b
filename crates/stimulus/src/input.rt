// The images that a module is driven with.

ghost use Rattle.std.specs.Prelude.{◌≡◌, ◌<◌, ◌≤◌, ℕ, List, length, map, IfOk, IfErr, MatchResult, IsTrue, All};
ghost use Rattle.dk_base.specs.FrameSizes.{size_of};
ghost use Rattle.wiring.specs.Rules.{IsPortWidth, IsPortCount};
ghost use Rattle.pgm_codec.specs.Images.{Image};
ghost use Rattle.pgm_rounds.specs.Files.{frame_of, frames_of};
ghost use Rattle.stimulus.specs.Given.{AreBenchFrames};
ghost use Rattle.stimulus.specs.Inputs.{FitsBench, IsBenchFault, IsBenchError, first_fault as fault_of_header};

use dk_base::{FrameSize, OutOfMemory};
use netlist::Width;
use pgm_codec::{HeaderFault, read_header};
use pgm_rounds::{FileError, FileFault, Round, read_rounds};
use std::alloc::Global;

/// The images of a file: their size, and the rounds, of one image for each din.
#[derive(Drop)]
pub struct BenchInput {
    pub size: FrameSize,
    pub rounds: Vec<Round>,
}

// The fault of a file whose first header is refused.
fn first_fault(fault: HeaderFault) -> FileFault
    ensures { result ≡ fault_of_header fault }
{
    match fault {
        HeaderFault::Magic => FileFault::Magic { offset: 0 },
        HeaderFault::LongHeader => FileFault::LongHeader,
        HeaderFault::Number { offset } => FileFault::Number { offset },
        HeaderFault::Range { offset } => FileFault::Range { offset },
    }
}

// The bits of each width.
fn bits_of(alloc: Global, widths: &[Width]) -> Result<Vec<u8>, OutOfMemory>
    ensures { IfOk result (λ bits. bits.items ≡ widths.now) }
{
    let mut bits = Vec::with_capacity(alloc, widths.len())?;
    for width in widths {
        bits.push(width.bits())?;
    }
    Ok(bits)
}

/// The images of a file, for dins of these widths, the first din first: a round is one image for each of them in order. Otherwise the first fault.
pub fn read_input(alloc: Global, widths: &[Width], file: &[u8]) -> Result<BenchInput, FileError>
    requires count { IsPortCount (length widths.now) }
    requires ports { All IsPortWidth widths.now }
    ensures fits { IfOk result (λ input. (images : List (List Image)) × FitsBench widths.now file.now (size_of input.size) images
        × (frames_of input.rounds.items ≡ map (map frame_of) images)) }
    ensures frames { IfOk result (λ input. AreBenchFrames widths.now (size_of input.size) input.rounds.items) }
    ensures fault { IfErr result (IsBenchError widths.now file.now) }
{
    let header = match read_header(file) {
        Ok(header) => header,
        Err(fault) => return Err(FileError::Fault(first_fault(fault))),
    };
    let Some(size) = FrameSize::checked(header.width, header.height) else {
        return Err(FileError::Fault(FileFault::Size {
            width: header.width,
            height: header.height,
        }));
    };
    let bits = bits_of(alloc, widths)?;
    let rounds = read_rounds(alloc, size, &bits, file)?;
    Ok(BenchInput { size, rounds })
}
