// The pixels that steps lead by exactly some way.

ghost use Rattle.std.specs.Prelude.{◌≡◌, ◌≤◌, ◌↔◌, ℕ, ℤ, pos, ◌+ℤ◌, IsTrue, IfSome, Some};
ghost use Rattle.dk_base.specs.declared.TheConstants.{MAX_SIDE};
ghost use Rattle.dk_base.specs.Frames.{in_frame};
ghost use Rattle.dk_base.specs.FrameSizes.{size_of};
ghost use Rattle.frame_paths.specs.Moves.{Leads, IsIn, IsInOn, IsMoves, IsInterval};
ghost use Rattle.frame_paths.specs.Paths.{LeadsTo, LeadsToOn, IsPath};
ghost use Rattle.edge_select.specs.Steps.{Lead, LeadBy, LeadOn};
ghost use Rattle.edge_select.specs.Passes.{ArePixels, IsRectangle, Passes, PassesOn};

use crate::step::Step;
use dk_base::FrameSize;
use frame_paths::{Interval, Moves, Path};

// The pixels that are in one of these columns and in one of these rows.
#[derive(Clone, Copy)]
pub struct Rectangle {
    pub across: Interval,
    pub down: Interval,
}

// What the steps make of the frame's pixels, or None where they lead nowhere.
fn path_of(steps: &[Step], size: FrameSize) -> Option<Path>
    ensures path { IfSome result (λ p. IsPath (size_of size) p) }
    ensures leads { (x y u v : ℤ) → IsTrue (in_frame (size_of size) x y)
        → LeadsToOn result x y u v ↔ Lead (size_of size) steps.now x y u v }
{
    let mut path = Path::none(size);
    for step in steps {
        match path.step(size, step.edge, step.dx, step.dy) {
            Some(further) => path = further,
            None => return None,
        }
    }
    Some(path)
}

// Both, or None where either is None.
fn joined(across: Option<Interval>, down: Option<Interval>) -> Option<Rectangle>
    ensures found { IfSome result (λ p. (across ≡ Some p.across) × (down ≡ Some p.down)) }
    ensures passes { (x y : ℕ) → PassesOn result x y ↔ IsInOn across x × IsInOn down y }
{
    match across {
        None => None,
        Some(across) => match down {
            None => None,
            Some(down) => Some(Rectangle { across, down }),
        },
    }
}

// The pixels that the path leads by exactly `dx` columns to the right and `dy` rows down, or None where there is none.
fn led_by(path: Path, size: FrameSize, dx: i32, dy: i32) -> Option<Rectangle>
    requires { IsPath (size_of size) path }
    ensures within { IfSome result (λ p. IsRectangle (size_of size) p) }
    ensures passes { (x y : ℕ) → PassesOn result x y
        ↔ LeadsTo path (pos x) (pos y) (pos x +ℤ dx) (pos y +ℤ dy) }
{
    let across = path.across.led_by(size.width, dx);
    let down = path.down.led_by(size.height, dy);
    joined(across, down)
}

// The coordinates that go through the moves.
fn led(moves: Moves, side: u32) -> Interval
    requires moves { IsMoves side moves }
    requires side { side ≤ MAX_SIDE }
    ensures interval { IsInterval side result }
    ensures led { (x : ℕ) → IsIn result x ↔ (u : ℤ) × Leads moves (pos x) u }
{
    Interval {
        first: moves.first as u32,
        last: moves.last as u32,
    }
}

// The pixels that go through the path.
fn led_on(path: Path, size: FrameSize) -> Rectangle
    requires { IsPath (size_of size) path }
    ensures within { IsRectangle (size_of size) result }
    ensures passes { (x y : ℕ) → Passes result x y
        ↔ (u : ℤ) × (v : ℤ) × LeadsTo path (pos x) (pos y) u v }
{
    let across = led(path.across, size.width);
    let down = led(path.down, size.height);
    Rectangle { across, down }
}

// The pixels that the steps lead somewhere, or None where there is none.
pub fn leading_pixels(steps: &[Step], size: FrameSize) -> Option<Rectangle>
    ensures { ArePixels (size_of size) (LeadOn (size_of size) steps.now) result }
{
    match path_of(steps, size) {
        Some(path) => Some(led_on(path, size)),
        None => None,
    }
}

// The pixels that the steps lead by exactly `dx` columns to the right and `dy` rows down, or None where there is none.
pub fn passing_pixels(steps: &[Step], size: FrameSize, dx: i32, dy: i32) -> Option<Rectangle>
    ensures { ArePixels (size_of size) (LeadBy (size_of size) steps.now dx dy) result }
{
    match path_of(steps, size) {
        Some(path) => led_by(path, size, dx, dy),
        None => None,
    }
}
