// The images of the outputs.

ghost use Rattle.std.specs.Prelude.{◌≡◌, ◌<◌, ◌-◌, ◌^◌, ◌++◌, OnOk};
ghost use Rattle.pgm_codec.specs.Images.{file_of};
ghost use Rattle.pointwise_ir.specs.Programs.{types_of, IsOutput};
ghost use Rattle.pointwise_ir.specs.Meaning.{pictures};
ghost use Rattle.pointwise_eval.specs.Rounds.{AreFrames, round_of};
ghost use Rattle.program_images.specs.Ports.{bits_of};
ghost use Rattle.program_images.specs.Outputs.{output_images};
ghost use Rattle.program_images.specs.Writing.{AreOutputFrames, images_with};

use dk_base::{FrameSize, OutOfMemory};
use dk_frames::Frame;
use pgm_rounds::{Round, write_image};
use pointwise_eval::evaluate;
use pointwise_ir::{Program, meaning_law};
use std::alloc::Global;

// The greatest sample of an output.
fn greatest_sample(ir: &Program, output: u32) -> u16
    requires { IsOutput (types_of ir.now) output }
    ensures is { result ≡ 2 ^ bits_of (types_of ir.now) output - 1 }
    ensures some { 0 < result }
{
    ir.type_of(output).greatest() as u16
}

// Adds the images of the outputs' frames.
fn add_images(ir: &Program, frames: &[Frame], file: &mut Vec<u8>) -> Result<(), OutOfMemory>
    requires { AreOutputFrames ir.now frames.now }
    ensures { OnOk result (file.new.items ≡ file.old.items ++ file_of (images_with (types_of ir.now) ir.now.outputs frames.now)) }
{
    ir.law();
    let outputs = ir.outputs();
    for k in 0..outputs.len() {
        let maxval = greatest_sample(ir, outputs[k]);
        let frame = &frames[k];
        let size = FrameSize {
            width: frame.width,
            height: frame.height,
        };
        write_image(size, maxval, frame.samples.as_slice(), file)?;
    }
    Ok(())
}

/// Evaluates the program on a round, and adds one image for each output in order, whose maxval is the greatest number of the output's type.
pub fn write_outputs(
    alloc: Global,
    ir: &Program,
    round: &Round,
    file: &mut Vec<u8>,
) -> Result<(), OutOfMemory>
    requires { AreFrames ir.now round.now.frames.items }
    ensures { OnOk result (file.new.items
        ≡ file.old.items ++ file_of (output_images ir.now.size (types_of ir.now) ir.now.outputs
        (pictures ir.now (round_of ir.now.size round.now.frames.items)))) }
{
    ir.law();
    meaning_law(ir);
    let frames = evaluate(alloc, ir, &round.frames)?;
    add_images(ir, &frames, file)?;
    Ok(())
}
