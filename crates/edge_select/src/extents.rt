// How many pixels of a frame pass a test.

ghost use Rattle.std.specs.Prelude.{◌≡◌, ◌+◌, ◌≤◌, ◌↔◌, IsTrue};
ghost use Rattle.dk_base.specs.Frames.{IsFrame};
ghost use Rattle.dk_base.specs.FrameSizes.{size_of};
ghost use Rattle.frame_paths.specs.Moves.{IsInterval};
ghost use Rattle.edge_select.specs.Steps.{LeadBy, LeadOn};
ghost use Rattle.edge_select.specs.Passes.{IsExtent, IsRectangle, Passes};

use crate::paths::{Rectangle, leading_pixels, passing_pixels};
use crate::step::Step;
use dk_base::FrameSize;
use frame_paths::Interval;

/// How many pixels of a frame pass a test: none, some and not all, or all.
#[derive(Clone, Copy, Debug, PartialEq, Eq)]
pub enum Extent {
    Never,
    Sometimes,
    Always,
}

// Whether the interval has all coordinates of a side.
pub fn is_whole(interval: Interval, side: u32) -> bool
    requires { IsInterval side interval }
    ensures { IsTrue result ↔ (interval.first ≡ 0) × (side ≤ interval.last + 1) }
{
    interval.first == 0 && interval.last + 1 >= side
}

// How many pixels of a frame are in the rectangle, which has one.
fn extent_of(rectangle: Rectangle, size: FrameSize) -> Extent
    requires { IsRectangle (size_of size) rectangle }
    ensures { IsExtent size.width size.height (Passes rectangle) result }
{
    if !is_whole(rectangle.across, size.width) {
        return Extent::Sometimes;
    }
    if !is_whole(rectangle.down, size.height) {
        return Extent::Sometimes;
    }
    Extent::Always
}

/// How many pixels of a frame of this size, in pixels, pass the test `at` of these steps.
pub fn passing(width: u32, height: u32, steps: &[Step], dx: i32, dy: i32) -> Extent
    requires { IsFrame width height }
    ensures { IsExtent width height
        (LeadBy (record { width = width; height = height }) steps.now dx dy) result }
{
    let size = FrameSize { width, height };
    match passing_pixels(steps, size, dx, dy) {
        Some(rectangle) => extent_of(rectangle, size),
        None => Extent::Never,
    }
}

/// How many pixels of a frame of this size, in pixels, pass the test `leads` of these steps.
pub fn leading(width: u32, height: u32, steps: &[Step]) -> Extent
    requires { IsFrame width height }
    ensures { IsExtent width height
        (LeadOn (record { width = width; height = height }) steps.now) result }
{
    let size = FrameSize { width, height };
    match leading_pixels(steps, size) {
        Some(rectangle) => extent_of(rectangle, size),
        None => Extent::Never,
    }
}
