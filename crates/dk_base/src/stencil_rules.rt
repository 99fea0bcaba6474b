// Whether numbers and lists are stencils, rule by rule.

ghost use Rattle.std.specs.Prelude.{◌≡◌, ℕ, ◌<◌, ◌≤◌, length, IsTrue, ◌↔◌, slice_index};
ghost use Rattle.std.specs.List.{All};
ghost use Rattle.dk_base.specs.Frames.{IsFrame};
ghost use Rattle.dk_base.specs.Stencils.{numbers, IsKept, Ascends, HasWidth, IsDistinct, Repeats, IsBefore, AreInOrder, IsOffset, IsRead, IsStencils, AreKeptImages, AreOutputs, AreLiveReads};

use crate::frame::FrameSize;
use crate::stencils::{Image, LiveRead};
use crate::{MAX_INPUTS, MAX_KEPT_IMAGES, MAX_LIVE_READS, MAX_OUTPUTS, MAX_WIDTH};

// Whether both sides are a frame's.
fn is_frame(width: u32, height: u32) -> bool
    ensures yes { IsTrue result → IsFrame width height }
    ensures no { IsFrame width height → IsTrue result }
{
    FrameSize::checked(width, height).is_some()
}

// Whether the numbers ascend.
fn ascends(images: &[Image]) -> bool
    ensures yes { IsTrue result → Ascends images.now }
    ensures no { Ascends images.now → IsTrue result }
{
    for k in 1..images.len() {
        if images[k].number <= images[k - 1].number {
            return false;
        }
    }
    true
}

// Whether each image has a width.
fn have_widths(images: &[Image]) -> bool
    ensures yes { IsTrue result → All HasWidth images.now }
    ensures no { All HasWidth images.now → IsTrue result }
{
    for image in images {
        if image.width < 1 || MAX_WIDTH < image.width {
            return false;
        }
    }
    true
}

// Whether the first images are the inputs.
#[tactic(auto, using(crate::proofs::Orders::number_at))]
fn inputs_first(images: &[Image], inputs: usize) -> bool
    requires { inputs ≤ length images.now }
    ensures yes { IsTrue result → ((k : ℕ) → k < inputs → slice_index (numbers images.now) k ≡ k) }
    ensures no { ((k : ℕ) → k < inputs → slice_index (numbers images.now) k ≡ k) → IsTrue result }
{
    for k in 0..inputs {
        if images[k].number as usize != k {
            return false;
        }
    }
    true
}

// Whether the image is kept.
fn is_kept(images: &[Image], number: u32) -> bool
    requires { Ascends images.now }
    ensures yes { IsTrue result → IsKept images.now number }
    ensures no { IsKept images.now number → IsTrue result }
{
    images
        .binary_search_by_key(&number, |image| image.number)
        .is_ok()
}

// Whether each output is kept.
fn are_kept(images: &[Image], outputs: &[u32]) -> bool
    requires { Ascends images.now }
    ensures yes { IsTrue result → All (IsKept images.now) outputs.now }
    ensures no { All (IsKept images.now) outputs.now → IsTrue result }
{
    for output in outputs {
        if !is_kept(images, *output) {
            return false;
        }
    }
    true
}

// Whether the output at `k` comes before it too.
fn is_repeated(outputs: &[u32], k: usize) -> bool
    requires { k < length outputs.now }
    ensures repeated { IsTrue result → Repeats outputs.now k }
    ensures new { Repeats outputs.now k → IsTrue result }
{
    outputs[..k].contains(&outputs[k])
}

// Whether no output occurs twice.
fn are_distinct(outputs: &[u32]) -> bool
    ensures yes { IsTrue result → IsDistinct outputs.now }
    ensures no { IsDistinct outputs.now → IsTrue result }
{
    for k in 0..outputs.len() {
        if is_repeated(outputs, k) {
            return false;
        }
    }
    true
}

/// Whether a read comes before another: by the image that reads, then by the one that is read, then by row, then by column. A read is given as these four, and its images go by their numbers or by their places.
pub fn is_before(a: (usize, usize, i32, i32), b: (usize, usize, i32, i32)) -> bool
    ensures yes { IsTrue result → IsBefore (record { f = a.0; g = a.1; dy = a.2; dx = a.3 }) (record { f = b.0; g = b.1; dy = b.2; dx = b.3 }) }
    ensures no { IsBefore (record { f = a.0; g = a.1; dy = a.2; dx = a.3 }) (record { f = b.0; g = b.1; dy = b.2; dx = b.3 }) → IsTrue result }
{
    if a.0 != b.0 {
        return a.0 < b.0;
    }
    if a.1 != b.1 {
        return a.1 < b.1;
    }
    if a.2 != b.2 {
        return a.2 < b.2;
    }
    a.3 < b.3
}

// What a live read is ordered by.
fn order_of(read: LiveRead) -> (usize, usize, i32, i32)
    ensures { record { f = result.0; g = result.1; dy = result.2; dx = result.3 } ≡ read }
{
    (read.f as usize, read.g as usize, read.dy, read.dx)
}

// Whether a live read comes before another.
fn is_read_before(a: LiveRead, b: LiveRead) -> bool
    ensures yes { IsTrue result → IsBefore a b }
    ensures no { IsBefore a b → IsTrue result }
{
    is_before(order_of(a), order_of(b))
}

// Whether the reads are in order.
fn are_in_order(reads: &[LiveRead]) -> bool
    ensures yes { IsTrue result → AreInOrder reads.now }
    ensures no { AreInOrder reads.now → IsTrue result }
{
    for k in 1..reads.len() {
        if !is_read_before(reads[k - 1], reads[k]) {
            return false;
        }
    }
    true
}

// Whether an offset stays within a side.
fn is_offset(side: u32, offset: i32) -> bool
    ensures yes { IsTrue result → IsOffset side offset }
    ensures no { IsOffset side offset → IsTrue result }
{
    offset.unsigned_abs() < side
}

// Whether a read is between kept images.
fn is_read(width: u32, height: u32, inputs: u32, images: &[Image], read: LiveRead) -> bool
    requires { Ascends images.now }
    ensures yes { IsTrue result → IsRead width height inputs images.now read }
    ensures no { IsRead width height inputs images.now read → IsTrue result }
{
    if read.f < inputs {
        return false;
    }
    if read.f <= read.g {
        return false;
    }
    if !is_offset(width, read.dx) {
        return false;
    }
    if !is_offset(height, read.dy) {
        return false;
    }
    if !is_kept(images, read.f) {
        return false;
    }
    is_kept(images, read.g)
}

// Whether each read is between kept images.
fn are_reads(width: u32, height: u32, inputs: u32, images: &[Image], reads: &[LiveRead]) -> bool
    requires { Ascends images.now }
    ensures yes { IsTrue result → All (IsRead width height inputs images.now) reads.now }
    ensures no { All (IsRead width height inputs images.now) reads.now → IsTrue result }
{
    for read in reads {
        if !is_read(width, height, inputs, images, *read) {
            return false;
        }
    }
    true
}

// Whether these are the parts of stencils.
pub(crate) fn is_stencils(
    width: u32,
    height: u32,
    inputs: u32,
    outputs: &[u32],
    images: &[Image],
    reads: &[LiveRead],
) -> bool
    ensures yes { IsTrue result
        → IsStencils (record { width = width; height = height; inputs = inputs; outputs = outputs.now; images = images.now; reads = reads.now }) }
    ensures no { IsStencils (record { width = width; height = height; inputs = inputs; outputs = outputs.now; images = images.now; reads = reads.now })
        → IsTrue result }
{
    if !are_images(inputs, images) {
        return false;
    }
    if !are_outputs(images, outputs) {
        return false;
    }
    if !is_frame(width, height) {
        return false;
    }
    are_live_reads(width, height, inputs, images, reads)
}

// Whether these are live reads, each once.
fn are_live_reads(
    width: u32,
    height: u32,
    inputs: u32,
    images: &[Image],
    reads: &[LiveRead],
) -> bool
    requires { Ascends images.now }
    ensures yes { IsTrue result → AreLiveReads width height inputs images.now reads.now }
    ensures no { AreLiveReads width height inputs images.now reads.now → IsTrue result }
{
    if MAX_LIVE_READS < reads.len() {
        return false;
    }
    if !are_in_order(reads) {
        return false;
    }
    are_reads(width, height, inputs, images, reads)
}

// Whether these are kept images, the inputs first.
fn are_images(inputs: u32, images: &[Image]) -> bool
    ensures yes { IsTrue result → AreKeptImages inputs images.now }
    ensures no { AreKeptImages inputs images.now → IsTrue result }
{
    let inputs = inputs as usize;
    if inputs < 1 || MAX_INPUTS < inputs {
        return false;
    }
    if MAX_KEPT_IMAGES < images.len() || images.len() < inputs {
        return false;
    }
    if !ascends(images) {
        return false;
    }
    if !inputs_first(images, inputs) {
        return false;
    }
    have_widths(images)
}

// Whether these are outputs.
fn are_outputs(images: &[Image], outputs: &[u32]) -> bool
    requires { Ascends images.now }
    ensures yes { IsTrue result → AreOutputs images.now outputs.now }
    ensures no { AreOutputs images.now outputs.now → IsTrue result }
{
    if outputs.len() < 1 || MAX_OUTPUTS < outputs.len() {
        return false;
    }
    if !are_distinct(outputs) {
        return false;
    }
    are_kept(images, outputs)
}
