// The live reads of all kept images.

ghost use Rattle.std.specs.Prelude.{◌≡◌, [], ◌<◌, ℕ, ℤ};
ghost use Rattle.dk_base.specs.FrameSizes.{size_of};
ghost use Rattle.pointwise_ir.specs.Trees.{tree_of};
ghost use Rattle.pointwise_ir.specs.Stencils.{the};
ghost use Rattle.stencil_sets.specs.Found.{AllBefore, Finds, IsOpen};
ghost use Rattle.stencil_sets.specs.declared.found.TheConstants.{FIRST_OFFSET};
ghost use Rattle.stencil_sets.specs.Live.{FindsReads};
ghost use Rattle.stencil_sets.specs.Paths.{ReadsAt, IsReadOf};
ghost use Rattle.stencil_sets.specs.Marks.{AreMarks};

use crate::found::Halt;
use crate::reader::{push_reader, rects_of};
use dk_base::{FrameSize, LiveRead};
use pointwise_ir::{Expr, Program};
use std::alloc::Global;

// The reads of image f, whose body this is.
fn push_body(
    alloc: Global,
    all: &mut Vec<LiveRead>,
    f: u32,
    size: FrameSize,
    body: &Expr,
) -> Result<(), Halt>
    requires open { IsOpen all.old.items (the f 0 FIRST_OFFSET FIRST_OFFSET) }
    requires earlier { (g : ℕ) (dx dy : ℤ)
        → ReadsAt (size_of size) (tree_of body.now) g dx dy → g < f }
    ensures { Finds all.old.items all.new.items
        (IsReadOf (size_of size) (tree_of body.now) f) result
        (λ _. (g : ℕ) × (d : ℤ) × (e : ℤ) × AllBefore all.new.items (the f g d e)) }
{
    match rects_of(alloc, size, body) {
        Ok(rects) => push_reader(alloc, all, f, &rects),
        Err(_) => Err(Halt::OutOfMemory),
    }
}

// The live reads of the images that are marked.
pub(crate) fn push_marked(
    alloc: Global,
    ir: &Program,
    kept: &[bool],
    all: &mut Vec<LiveRead>,
) -> Result<(), Halt>
    requires marks { AreMarks ir.now kept.now }
    requires none { all.old.items ≡ [] }
    ensures { FindsReads ir.now all.new.items result }
{
    ir.law();
    let size = ir.size();
    let inputs = ir.inputs().len();
    let images = ir.images();
    for k in 0..images.len() {
        if kept[inputs + k] {
            push_body(alloc, all, (inputs + k) as u32, size, &images[k].body)?;
        }
    }
    Ok(())
}
