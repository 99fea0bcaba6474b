// Points of the frame, and where steps lead.

ghost use Rattle.std.specs.Prelude.{◌≡◌, ◌<◌, pos, ◌+ℤ◌, MatchOption, IsFalse};
ghost use Rattle.dk_base.specs.Frames.{is_below, clamped};
ghost use Rattle.dk_base.specs.FrameSizes.{size_of};
ghost use Rattle.pointwise_eval.specs.Planes.{IsNowhere, LeadsTo};

use dk_base::FrameSize;
use pointwise_ir::Edge;

// A pixel: its column and its row.
#[derive(Clone, Copy)]
pub struct Point {
    pub x: u32,
    pub y: u32,
}

// The coordinate that is `by` further, where it is below the limit.
pub fn moved(at: u32, by: i32, limit: u32) -> Option<u32>
    ensures { MatchOption result (IsFalse (is_below (pos at +ℤ by) limit))
        (λ n. (pos n ≡ pos at +ℤ by) × (n < limit)) }
{
    let there = i64::from(at) + i64::from(by);
    if there >= 0 && there < i64::from(limit) {
        Some(there as u32)
    } else {
        None
    }
}

// The coordinate that is `by` further, brought below the limit.
pub fn brought(at: u32, by: i32, limit: u32) -> u32
    requires { 0 < limit }
    ensures below { result < limit }
    ensures clamped { pos result ≡ clamped limit (pos at +ℤ by) }
{
    let there = i64::from(at) + i64::from(by);
    if there < 0 {
        return 0;
    }
    if there < i64::from(limit) {
        there as u32
    } else {
        limit - 1
    }
}

// The pixel to which a step leads, or None where it leads out of the frame.
pub fn step(size: FrameSize, edge: Edge, from: Point, dx: i32, dy: i32) -> Option<Point>
    ensures { MatchOption result
        (IsNowhere (size_of size) edge (pos from.x +ℤ dx) (pos from.y +ℤ dy))
        (λ p. LeadsTo (size_of size) edge (pos from.x +ℤ dx) (pos from.y +ℤ dy) p.x p.y) }
{
    match edge {
        Edge::Zero => {
            let x = moved(from.x, dx, size.width)?;
            let y = moved(from.y, dy, size.height)?;
            Some(Point { x, y })
        }
        Edge::Clamp => {
            let x = brought(from.x, dx, size.width);
            let y = brought(from.y, dy, size.height);
            Some(Point { x, y })
        }
    }
}
