// The images that are kept.

ghost use Rattle.std.specs.Prelude.{◌≡◌, ◌+◌, ◌<◌, ◌≤◌, ℕ, ℤ, IsTrue, OnOk, IfOk, Contains, length};
ghost use Rattle.dk_base.specs.FrameSizes.{size_of};
ghost use Rattle.pointwise_ir.specs.Trees.{tree_of};
ghost use Rattle.stencil_sets.specs.Paths.{IsIn, Covered, ReadsAt};
ghost use Rattle.stencil_sets.specs.Marks.{AreBlankMarks, AreMarks, AreSoundMarks, MarkedSoFar, MarksMore};

use crate::path::Rect;
use crate::reader::rects_of;
use dk_base::{FrameSize, OutOfMemory};
use pointwise_ir::{Expr, Program};
use std::alloc::Global;

// Whether the rectangle has an offset.
fn has_offset(rect: Rect) -> bool
    ensures yes { IsTrue result → (dx : ℤ) × (dy : ℤ) × IsIn rect rect.image dx dy }
    ensures no { (g : ℕ) (dx dy : ℤ) → IsIn rect g dx dy → IsTrue result }
{
    rect.across.least <= rect.across.greatest && rect.down.least <= rect.down.greatest
}

// Marks an image that is there.
fn mark(kept: &mut [bool], g: usize)
    ensures more { MarksMore kept.old kept.new (λ h. h ≡ g) }
{
    if g < kept.len() {
        kept[g] = true;
    }
}

// Marks the image of a rectangle that has an offset.
fn mark_rect(kept: &mut [bool], rect: Rect)
    ensures more { MarksMore kept.old kept.new (λ h. (dx : ℤ) × (dy : ℤ) × IsIn rect h dx dy) }
{
    if has_offset(rect) {
        mark(kept, rect.image as usize);
    }
}

// Marks the images that some rectangle has.
fn mark_rects(kept: &mut [bool], rects: &[Rect])
    ensures more { MarksMore kept.old kept.new
        (λ h. (dx : ℤ) × (dy : ℤ) × Covered rects.now h dx dy) }
{
    for rect in rects {
        mark_rect(kept, *rect);
    }
}

// Marks the images that the expression reads in some pixel.
fn mark_reads(
    alloc: Global,
    size: FrameSize,
    body: &Expr,
    kept: &mut [bool],
) -> Result<(), OutOfMemory>
    ensures more { OnOk result (MarksMore kept.old kept.new
        (λ h. (dx : ℤ) × (dy : ℤ) × ReadsAt (size_of size) (tree_of body.now) h dx dy)) }
    ensures length { length kept.new ≡ length kept.old }
{
    let rects = rects_of(alloc, size, body)?;
    mark_rects(kept, &rects);
    Ok(())
}

// Marks the inputs, which are the first images.
fn mark_inputs(kept: &mut [bool], inputs: usize)
    requires { inputs ≤ length kept.old }
    ensures more { MarksMore kept.old kept.new (λ h. h < inputs) }
{
    for g in 0..inputs {
        mark(kept, g);
    }
}

// Marks the outputs.
fn mark_outputs(kept: &mut [bool], outputs: &[u32])
    ensures more { MarksMore kept.old kept.new (λ h. Contains outputs.now h) }
{
    for output in outputs {
        mark(kept, *output as usize);
    }
}

// Marks what marked images read, the last image first.
fn mark_needed(alloc: Global, ir: &Program, kept: &mut [bool]) -> Result<(), OutOfMemory>
    requires { AreSoundMarks ir.now kept.old }
    ensures done { OnOk result (MarkedSoFar ir.now kept.old kept.new 0) }
{
    ir.law();
    let size = ir.size();
    let inputs = ir.inputs().len();
    let images = ir.images();
    let mut k = images.len();
    while k > 0 {
        k -= 1;
        if kept[inputs + k] {
            mark_reads(alloc, size, &images[k].body, kept)?;
        }
    }
    Ok(())
}

// Marks all that is kept.
fn mark_all(alloc: Global, ir: &Program, kept: &mut [bool]) -> Result<(), OutOfMemory>
    requires { AreBlankMarks ir.now kept.old }
    ensures marks { OnOk result (AreMarks ir.now kept.new) }
    ensures length { length kept.new ≡ length kept.old }
{
    ir.law();
    mark_inputs(kept, ir.inputs().len());
    mark_outputs(kept, ir.outputs());
    mark_needed(alloc, ir, kept)
}

// For each image, whether it is kept.
pub fn kept_images(alloc: Global, ir: &Program) -> Result<Vec<bool>, OutOfMemory>
    ensures { IfOk result (λ kept. AreMarks ir.now kept.items) }
{
    let count = ir.inputs().len() + ir.images().len();
    let mut kept = vec![in alloc; false; count]?;
    mark_all(alloc, ir, &mut kept)?;
    Ok(kept)
}
