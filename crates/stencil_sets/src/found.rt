// The live reads of an image, found in order.

ghost use Rattle.std.specs.Prelude.{◌∷◌, [], ℤ, ◌≤ℤ◌, All};
ghost use Rattle.stencil_sets.specs.declared.found.TheConstants.{FIRST_OFFSET};
ghost use Rattle.stencil_sets.specs.Paths.{IsNearRect};
ghost use Rattle.pointwise_ir.specs.Stencils.{the};
ghost use Rattle.stencil_sets.specs.Found.{AddsRead, AllBefore, AreAmong, AreRects, Finds, IsLeft, IsOf, IsOpen, IsPartEnd, IsRun};

use crate::path::Rect;
use dk_base::{LiveRead, MAX_COUNTED_READS};

// No rectangle begins before this offset: two of the greatest frames to the left, or up.
pub const FIRST_OFFSET: i32 = -8_192;

// Why the search for live reads ends early.
#[derive(Drop)]
pub enum Halt {
    // There are more than are counted.
    Full,
    OutOfMemory,
}

// One read more.
fn push_read(all: &mut Vec<LiveRead>, read: LiveRead) -> Result<(), Halt>
    requires { IsOpen all.old.items read }
    ensures { AddsRead all.old.items all.new.items read result }
{
    if all.len() == MAX_COUNTED_READS + 1 {
        return Err(Halt::Full);
    }
    match all.push(read) {
        Ok(()) => Ok(()),
        Err(_) => Err(Halt::OutOfMemory),
    }
}

// The reads of a row from one column offset to before another.
fn push_run(
    all: &mut Vec<LiveRead>,
    f: u32,
    g: u32,
    dy: i32,
    from: i32,
    end: i32,
) -> Result<(), Halt>
    requires open { IsOpen all.old.items (the f g from dy) }
    requires run { from ≤ℤ end }
    ensures { Finds all.old.items all.new.items (IsRun f g dy from end) result
        (λ _. AllBefore all.new.items (the f g end dy)) }
{
    for dx in from..end {
        push_read(all, LiveRead { f, g, dx, dy })?;
    }
    Ok(())
}

// The reads of a row that the rectangle has, from a column offset on, and the offset after them.
fn push_part(
    all: &mut Vec<LiveRead>,
    f: u32,
    g: u32,
    dy: i32,
    next: i32,
    rect: Rect,
) -> Result<i32, Halt>
    requires open { IsOpen all.old.items (the f g next dy) }
    requires rect { IsNearRect rect }
    ensures { Finds all.old.items all.new.items (IsLeft (rect ∷ []) f g dy next) result
        (λ end. IsPartEnd all.new.items f g rect dy next end) }
{
    if dy < rect.down.least || rect.down.greatest < dy {
        return Ok(next);
    }
    let from = next.max(rect.across.least);
    let end = from.max(rect.across.greatest + 1);
    push_run(all, f, g, dy, from, end)?;
    Ok(end)
}

// The reads of image g by image f in one row of offsets. The rectangles are in the order of their first columns.
fn push_row(all: &mut Vec<LiveRead>, f: u32, g: u32, dy: i32, rects: &[Rect]) -> Result<(), Halt>
    requires open { IsOpen all.old.items (the f g FIRST_OFFSET dy) }
    requires rects { AreRects rects.now }
    ensures { Finds all.old.items all.new.items (IsLeft rects.now f g dy FIRST_OFFSET) result
        (λ _. (e : ℤ) × AllBefore all.new.items (the f g e dy)) }
{
    let mut next = FIRST_OFFSET;
    for rect in rects {
        next = push_part(all, f, g, dy, next, *rect)?;
    }
    Ok(())
}

// The first of the rows of these rectangles, and the row after the last.
fn rows_of(rects: &[Rect]) -> (i32, i32)
    requires { All IsNearRect rects.now }
    ensures { AreAmong result.0 result.1 rects.now }
{
    let mut first: i32 = 0;
    let mut end: i32 = 0;
    for rect in rects {
        first = first.min(rect.down.least);
        end = end.max(rect.down.greatest + 1);
    }
    (first, end)
}

// The reads of image g by image f. The rectangles are in the order of their first columns.
pub(crate) fn push_image(
    all: &mut Vec<LiveRead>,
    f: u32,
    g: u32,
    rects: &[Rect],
) -> Result<(), Halt>
    requires open { IsOpen all.old.items (the f g FIRST_OFFSET FIRST_OFFSET) }
    requires rects { AreRects rects.now }
    ensures { Finds all.old.items all.new.items (IsOf rects.now f g) result
        (λ _. (d : ℤ) × (e : ℤ) × AllBefore all.new.items (the f g d e)) }
{
    let (first, end) = rows_of(rects);
    for dy in first..end {
        push_row(all, f, g, dy, rects)?;
    }
    Ok(())
}
