// The rounds of a program's file.

ghost use Rattle.std.specs.Prelude.{◌≡◌, List, map, IfOk, IfErr};
ghost use Rattle.std.specs.List.{All};
ghost use Rattle.dk_base.specs.Types.{width_of};
ghost use Rattle.pgm_codec.specs.Images.{Image};
ghost use Rattle.pgm_rounds.specs.Files.{FitsFile, IsError, frame_of, frames_of};
ghost use Rattle.dk_base.specs.Types.{IsPort};
ghost use Rattle.pointwise_eval.specs.Rounds.{AreFrames};
ghost use Rattle.program_images.specs.Ports.{ports_of};

use dk_base::OutOfMemory;
use pgm_rounds::{FileError, Round, read_rounds};
use pointwise_ir::{Input, Program};
use std::alloc::Global;

// The width of each input, in bits.
fn widths_of(alloc: Global, inputs: &[Input]) -> Result<Vec<u8>, OutOfMemory>
    requires { All (λ i. IsPort i.ty) inputs.now }
    ensures { IfOk result (λ widths. widths.items ≡ map width_of (map (λ i. i.ty) inputs.now)) }
{
    let mut widths = Vec::with_capacity(alloc, inputs.len())?;
    for input in inputs {
        widths.push(input.ty.width())?;
    }
    Ok(widths)
}

/// The rounds of a file of PGM images, for a program: images of the size of its frames, one for each of its inputs in order, and again, to the file's end. Otherwise the first fault.
pub fn read_program_rounds(
    alloc: Global,
    ir: &Program,
    bytes: &[u8],
) -> Result<Vec<Round>, FileError>
    ensures fits { IfOk result (λ rounds. (images : List (List Image)) × FitsFile (ports_of ir.now) bytes.now images
        × (frames_of rounds.items ≡ map (map frame_of) images)) }
    ensures frames { IfOk result (λ rounds. All (λ r. AreFrames ir.now r.frames.items) rounds.items) }
    ensures fault { IfErr result (IsError (ports_of ir.now) bytes.now) }
{
    ir.law();
    let widths = widths_of(alloc, ir.inputs())?;
    let rounds = read_rounds(alloc, ir.size(), &widths, bytes)?;
    Ok(rounds)
}
