// The live reads of one image.

ghost use Rattle.std.specs.Prelude.{◌≡◌, ◌≢◌, ◌++◌, ◌∷◌, [], ◌⊎◌, ℕ, ℤ, OnOk, IfOk};
ghost use Rattle.dk_base.specs.FrameSizes.{size_of};
ghost use Rattle.pointwise_ir.specs.Trees.{tree_of};
ghost use Rattle.stencil_sets.specs.declared.found.TheConstants.{FIRST_OFFSET};
ghost use Rattle.stencil_sets.specs.Paths.{IsByReader, IsOfReader};
ghost use Rattle.pointwise_ir.specs.Stencils.{the};
ghost use Rattle.stencil_sets.specs.Found.{AllBefore, AreOfImage, AreRects, AreRectsOf, Finds, IsOpen};

use crate::found::{Halt, push_image};
use crate::path::{Rect, add_reads};
use dk_base::{FrameSize, LiveRead, OutOfMemory};
use frame_paths::Path;
use pointwise_ir::Expr;
use smallvec::SmallVec;
use std::alloc::Global;

// Where the rectangle begins, from 8,192 columns to the left on.
fn first_column(rect: &Rect) -> i32
    ensures { result ≡ rect.now.across.least }
{
    rect.across.least
}

// What the expression reads in some pixel, as rectangles in the order of their first columns.
pub fn rects_of(alloc: Global, size: FrameSize, body: &Expr) -> Result<Vec<Rect>, OutOfMemory>
    ensures { IfOk result (λ v. AreRectsOf (size_of size) (tree_of body.now) v.items) }
{
    let mut rects = Vec::new(alloc);
    add_reads(&mut rects, size, body, Path::none(size))?;
    rects.sort_by_key(|rect| first_column(rect))?;
    Ok(rects)
}

// Chooses the rectangle where it is of image g.
fn choose(chosen: &mut SmallVec<Rect, 8>, rect: Rect, g: u32) -> Result<(), OutOfMemory>
    ensures { OnOk result (((rect.image ≡ g) × (chosen.new.items ≡ chosen.old.items ++ rect ∷ []))
        ⊎ ((rect.image ≢ g) × (chosen.new.items ≡ chosen.old.items))) }
{
    if rect.image == g {
        chosen.push(rect)?;
    }
    Ok(())
}

// The rectangles of image g, in their order.
fn of_image(alloc: Global, rects: &[Rect], g: u32) -> Result<SmallVec<Rect, 8>, OutOfMemory>
    requires { AreRects rects.now }
    ensures { IfOk result (λ v. AreOfImage rects.now g v.items) }
{
    let mut chosen = SmallVec::new(alloc);
    for rect in rects {
        choose(&mut chosen, *rect, g)?;
    }
    Ok(chosen)
}

// The reads of image g by image f.
fn push_source(
    alloc: Global,
    all: &mut Vec<LiveRead>,
    f: u32,
    g: u32,
    rects: &[Rect],
) -> Result<(), Halt>
    requires open { IsOpen all.old.items (the f g FIRST_OFFSET FIRST_OFFSET) }
    requires rects { AreRects rects.now }
    ensures { Finds all.old.items all.new.items (IsByReader rects.now f g) result
        (λ _. (d : ℤ) × (e : ℤ) × AllBefore all.new.items (the f g d e)) }
{
    match of_image(alloc, rects, g) {
        Ok(chosen) => push_image(all, f, g, chosen.as_slice()),
        Err(_) => Err(Halt::OutOfMemory),
    }
}

// The reads of image f, which is above all that it reads.
pub(crate) fn push_reader(
    alloc: Global,
    all: &mut Vec<LiveRead>,
    f: u32,
    rects: &[Rect],
) -> Result<(), Halt>
    requires open { IsOpen all.old.items (the f 0 FIRST_OFFSET FIRST_OFFSET) }
    requires rects { AreRects rects.now }
    ensures { Finds all.old.items all.new.items (IsOfReader rects.now f) result
        (λ _. (g : ℕ) × (d : ℤ) × (e : ℤ) × AllBefore all.new.items (the f g d e)) }
{
    for g in 0..f {
        push_source(alloc, all, f, g, rects)?;
    }
    Ok(())
}
