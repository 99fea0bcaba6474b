// The pictures of all images that the outputs need, one after another.

ghost use Rattle.std.specs.Prelude.{◌≡◌, ◌<◌, ◌≤◌, pos, IfOk, IsTrue, length, map, take, unsigned_abs};
ghost use Rattle.std.specs.List.{All};
ghost use Rattle.dk_base.specs.declared.TheConstants.{MAX_INLINED_DEPTH};
ghost use Rattle.dk_base.specs.FrameSizes.{size_of};
ghost use Rattle.pointwise_ir.specs.Trees.{tree_of, depth_of};
ghost use Rattle.pointwise_ir.specs.Programs.{all_types, types_of};
ghost use Rattle.dk_base.specs.Frames.{picture_at};
ghost use Rattle.pointwise_ir.specs.Meaning.{pictures};
ghost use Rattle.value_ranges.specs.Images.{AreRangesOf};
ghost use Rattle.pointwise_eval.specs.Needs.{AreNeeds, image_count};
ghost use Rattle.pointwise_eval.specs.Planes.{AreOutputPlanes, AreSources, CanEvaluate, DropsOne, DropsSome, IsPlaneOf, IsSample, ShowsNeeded, Takes, all_shown, values_of};
ghost use Rattle.pointwise_eval.specs.Rounds.{AreFrames, round_of, frame_of, output_frames};

use crate::need::{is_needed, needs};
use crate::plane::Plane;
use crate::rows::{Sources, render};
use dk_base::{FrameSize, OutOfMemory};
use dk_frames::{Frame, SampleSlice, Samples};
use pointwise_ir::{Definition, Expr, Program};
use std::alloc::Global;
use std::mem;
use value_ranges::{Interval, image_ranges};
use value_rows::Element;

// The plane of an input.
fn input_plane(samples: &Samples) -> Plane<'_>
    ensures { values_of result ≡ map pos samples.now }
{
    match samples.as_slice() {
        SampleSlice::U8(samples) => Plane::Input8(samples),
        SampleSlice::U16(samples) => Plane::Input16(samples),
    }
}

// The planes of the inputs.
fn input_planes<'a>(alloc: Global, frames: &'a [Frame]) -> Result<Vec<Plane<'a>>, OutOfMemory>
    ensures { IfOk result (λ planes. map values_of planes.items
        ≡ map (λ f. map pos f.samples) frames.now) }
{
    let mut planes = Vec::new(alloc);
    for frame in frames {
        planes.push(input_plane(&frame.samples))?;
    }
    Ok(planes)
}

// The plane of an image that is not an input, which is empty if it is not needed.
fn next_plane<'a>(
    alloc: Global,
    sources: &Sources<'_>,
    body: &Expr,
    wanted: bool,
) -> Result<Plane<'a>, OutOfMemory>
    requires can { IsTrue wanted
        → CanEvaluate (size_of sources.now.size) sources.now.planes.now (tree_of body.now) }
    requires sources { AreSources (size_of sources.now.size) sources.now.planes.now
        sources.now.ranges.now (all_types sources.now.inputs.now sources.now.images.now) }
    requires depth { depth_of (tree_of body.now) ≤ MAX_INLINED_DEPTH }
    ensures { IfOk result (IsPlaneOf (size_of sources.now.size) sources.now.planes.now
        (tree_of body.now) wanted) }
{
    if wanted {
        render(alloc, sources, body)
    } else {
        Ok(Plane::Gone)
    }
}

// The images before image `k`.
fn earlier(images: &[Definition], k: usize) -> &[Definition]
    requires { k < length images.now }
    ensures { result.now ≡ take k images.now }
{
    images.split_at(k).0
}

// Lets go of a plane that is needed after `until` images at most, where this many are made.
fn drop_plane(planes: &mut [Plane<'_>], image: usize, until: usize, made: usize)
    requires { image < length planes.old }
    ensures { DropsOne image until made planes.old planes.new }
{
    if until <= made {
        planes[image] = Plane::Gone;
    }
}

// Lets go of the planes that are not needed after this many images.
fn drop_planes(planes: &mut [Plane<'_>], until: &[usize], made: usize)
    requires { length planes.old ≤ length until.now }
    ensures { DropsSome until.now made planes.old planes.new }
{
    for g in 0..planes.len() {
        drop_plane(planes, g, until[g], made);
    }
}

// The same over a vector.
fn drop_unneeded(planes: &mut Vec<Plane<'_>>, until: &[usize], made: usize)
    requires { length planes.old.items ≤ length until.now }
    ensures { DropsSome until.now made planes.old.items planes.new.items }
{
    drop_planes(planes, until, made);
}

// The planes of all images, of which those of the outputs are there.
fn all_planes<'a>(
    alloc: Global,
    ir: &Program,
    frames: &'a [Frame],
    until: &[usize],
    ranges: &[Interval],
) -> Result<Vec<Plane<'a>>, OutOfMemory>
    requires frames { AreFrames ir.now frames.now }
    requires needs { AreNeeds ir.now until.now }
    requires count { length ranges.now ≡ image_count ir.now }
    requires ranges { AreRangesOf ir.now ranges.now }
    ensures { IfOk result (λ planes. ShowsNeeded ir.now.size (types_of ir.now)
        (pictures ir.now (round_of ir.now.size frames.now)) until.now
        (image_count ir.now) planes.items) }
{
    ir.law();
    let size = ir.size();
    let images = ir.images();
    let inputs = ir.inputs();
    let mut planes = input_planes(alloc, frames)?;
    for k in 0..images.len() {
        let before = earlier(images, k);
        let number = inputs.len() + k;
        let wanted = is_needed(until, number);
        let sources = Sources {
            size,
            planes: planes.as_slice(),
            ranges,
            inputs,
            images: before,
        };
        let plane = next_plane(alloc, &sources, &images[k].body, wanted)?;
        planes.push(plane)?;
        drop_unneeded(&mut planes, until, number + 1);
    }
    Ok(planes)
}

// An element that is a sample.
fn sample_of<T: Element>(element: T) -> u16
    requires { IsSample (T.worth element) }
    ensures { result ≡ unsigned_abs (T.worth element) }
{
    element.widen() as u16
}

// Elements that are samples.
fn element_samples<T: Element>(alloc: Global, elements: &[T]) -> Result<Samples, OutOfMemory>
    requires { All IsSample (map T.worth elements.now) }
    ensures { IfOk result (λ s. s ≡ map unsigned_abs (map T.worth elements.now)) }
{
    let mut samples = Vec::with_capacity(alloc, elements.len())?;
    for element in elements {
        samples.push(sample_of(*element))?;
    }
    Ok(Samples::new(samples))
}

// Values that are samples.
fn wide_samples(alloc: Global, values: &[i128]) -> Result<Samples, OutOfMemory>
    requires { All IsSample values.now }
    ensures { IfOk result (λ s. s ≡ map unsigned_abs values.now) }
{
    let mut samples = Vec::new(alloc);
    for value in values {
        samples.push(*value as u16)?;
    }
    Ok(Samples::new(samples))
}

// A copy of 8-bit samples.
fn copied_bytes(alloc: Global, samples: &[u8]) -> Result<Samples, OutOfMemory>
    ensures { IfOk result (λ s. s ≡ samples.now) }
{
    let copy = Vec::from_slice(alloc, samples)?;
    Ok(Samples::from_bytes(copy))
}

// A copy of 16-bit samples.
fn copied_words(alloc: Global, samples: &[u16]) -> Result<Samples, OutOfMemory>
    ensures { IfOk result (λ s. s ≡ samples.now) }
{
    let copy = Vec::from_slice(alloc, samples)?;
    Ok(Samples::new(copy))
}

// The samples of a plane.
#[tactic(auto, using(crate::proofs::Pixels::samples_back))]
fn samples_of(alloc: Global, plane: Plane<'_>) -> Result<Samples, OutOfMemory>
    requires { All IsSample (values_of plane) }
    ensures { IfOk result (λ s. s ≡ map unsigned_abs (values_of plane.entry)) }
{
    match plane {
        Plane::Input8(samples) => copied_bytes(alloc, samples),
        Plane::Input16(samples) => copied_words(alloc, samples),
        Plane::Unsigned8(samples) => Ok(Samples::from_bytes(samples)),
        Plane::Unsigned16(samples) => Ok(Samples::new(samples)),
        Plane::Unsigned32(elements) => element_samples(alloc, &elements),
        Plane::Signed8(elements) => element_samples(alloc, &elements),
        Plane::Signed16(elements) => element_samples(alloc, &elements),
        Plane::Signed32(elements) => element_samples(alloc, &elements),
        Plane::Signed64(elements) => element_samples(alloc, &elements),
        Plane::Wide(values) => wide_samples(alloc, &values),
        Plane::Gone => Ok(Samples::new(Vec::new(alloc))),
    }
}

// The frame of values that are samples.
fn output_frame(alloc: Global, size: FrameSize, plane: Plane<'_>) -> Result<Frame, OutOfMemory>
    requires { All IsSample (values_of plane) }
    ensures { IfOk result (λ f. f
        ≡ record {
          width = size.width;
          height = size.height;
          samples = map unsigned_abs (values_of plane.entry);
        }) }
{
    let samples = samples_of(alloc, plane)?;
    Ok(Frame {
        width: size.width,
        height: size.height,
        samples,
    })
}

// Takes out the plane of an image, which is gone from then on.
fn take_plane<'a>(planes: &mut [Plane<'a>], image: u32) -> Plane<'a>
    requires { image < length planes.old }
    ensures { Takes image planes.old planes.new result }
{
    mem::replace(&mut planes[image as usize], Plane::Gone)
}

// The frames of the outputs, whose planes are taken.
fn frames_of_outputs(
    alloc: Global,
    size: FrameSize,
    outputs: &[u32],
    planes: &mut [Plane<'_>],
) -> Result<Vec<Frame>, OutOfMemory>
    requires { AreOutputPlanes (size_of size) planes.old outputs.now }
    ensures { IfOk result (λ frames. frames.items
        ≡ map (λ g. frame_of (size_of size) (picture_at (all_shown (size_of size) planes.old) g))
        outputs.now) }
{
    let mut frames = Vec::new(alloc);
    for output in outputs {
        let plane = take_plane(planes, *output);
        let frame = output_frame(alloc, size, plane)?;
        frames.push(frame)?;
    }
    Ok(frames)
}

/// The pictures of the outputs in order, on one frame for each input in order, which has the size of the frame and samples in the range of the input's type. Memory is taken for the values of each image that an output needs, and given back once no later image reads it.
pub fn evaluate(alloc: Global, ir: &Program, frames: &[Frame]) -> Result<Vec<Frame>, OutOfMemory>
    requires { AreFrames ir.now frames.now }
    ensures { IfOk result (λ outs. outs.items
        ≡ output_frames ir.now (pictures ir.now (round_of ir.now.size frames.now))) }
{
    ir.law();
    let until = needs(alloc, ir)?;
    let ranges = image_ranges(alloc, ir)?;
    let mut planes = all_planes(alloc, ir, frames, &until, &ranges)?;
    let outs = frames_of_outputs(alloc, ir.size(), ir.outputs(), &mut planes)?;
    Ok(outs)
}
