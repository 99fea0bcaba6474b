// Whether frames fit the inputs of a program.

ghost use Rattle.std.specs.Prelude.{◌≡◌, ◌<◌, ◌↔◌, ◌<ℤ◌, pos, IsTrue, length};
ghost use Rattle.std.specs.List.{All};
ghost use Rattle.dk_base.specs.FrameSizes.{size_of};
ghost use Rattle.dk_base.specs.Types.{IsType, above};
ghost use Rattle.dk_base.specs.Types.{IsPort};
ghost use Rattle.dk_frames.specs.Slices.{samples_of};
ghost use Rattle.pointwise_eval.specs.Rounds.{IsInputFrame, AreInputFrames, AreFrames};

use dk_base::{FrameSize, Ty};
use dk_frames::{Frame, SampleSlice};
use pointwise_ir::{Input, Program};
use value_rows::Element;

// Whether no element is above the range of the type.
fn elements_fit<T: Element>(elements: &[T], ty: Ty) -> bool
    requires { IsType ty }
    ensures { IsTrue result ↔ All (λ e. T.worth e <ℤ pos (above ty)) elements.now }
{
    let greatest = ty.greatest();
    for element in elements {
        if greatest < i128::from(element.widen()) {
            return false;
        }
    }
    true
}

// Whether the samples are in the range of the type.
fn samples_fit(samples: SampleSlice<'_>, ty: Ty) -> bool
    requires { IsType ty }
    ensures { IsTrue result ↔ All (λ s. s < above ty) (samples_of samples.entry) }
{
    match samples {
        SampleSlice::U8(samples) => elements_fit(samples, ty),
        SampleSlice::U16(samples) => elements_fit(samples, ty),
    }
}

// Whether the frame has the size, and samples in the range of the type.
fn frame_fits(size: FrameSize, ty: Ty, frame: &Frame) -> bool
    requires { IsPort ty }
    ensures { IsTrue result ↔ IsInputFrame (size_of size) ty frame.now }
{
    if frame.width != size.width {
        return false;
    }
    if frame.height != size.height {
        return false;
    }
    let samples = frame.samples.as_slice();
    if samples.len() as u64 != size.area() {
        return false;
    }
    samples_fit(samples, ty)
}

// Whether each frame fits the input at its place.
fn each_fits(size: FrameSize, inputs: &[Input], frames: &[Frame]) -> bool
    requires ports { All (λ i. IsPort i.ty) inputs.now }
    requires one_each { length frames.now ≡ length inputs.now }
    ensures { IsTrue result ↔ AreInputFrames (size_of size) inputs.now frames.now }
{
    for k in 0..frames.len() {
        if !frame_fits(size, inputs[k].ty, &frames[k]) {
            return false;
        }
    }
    true
}

/// Whether there is one frame for each input in order, each of the program's size and with samples in the range of its input's type.
pub fn frames_fit(ir: &Program, frames: &[Frame]) -> bool
    ensures yes { IsTrue result → AreFrames ir.now frames.now }
    ensures no { AreFrames ir.now frames.now → IsTrue result }
{
    ir.law();
    let inputs = ir.inputs();
    if frames.len() != inputs.len() {
        return false;
    }
    each_fits(ir.size(), inputs, frames)
}
