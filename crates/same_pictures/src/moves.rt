// Reads and shifts from a moved point, as moves from the point itself.

ghost use Rattle.std.specs.Prelude.{◌≡◌, pos, IsTrue, IfSome};
ghost use Rattle.pointwise_ir.specs.declared.expr.Edge.TheVariants.{Zero, Clamp};
ghost use Rattle.same_pictures.specs.Matching.{IsJoined, IsPushed, IsSeenBehind};

use pointwise_ir::Edge;

// A move to the right and down. Where the moved point is outside the frame, it is brought to the frame's edge (`Edge::Clamp`), or there is nothing to see (`Edge::Zero`).
#[derive(Clone, Copy)]
pub struct Step {
    pub edge: Edge,
    pub dx: i32,
    pub dy: i32,
}

// No move.
pub const HERE: Step = Step {
    edge: Edge::Clamp,
    dx: 0,
    dy: 0,
};

// Whether it is no move.
pub fn is_here(at: Step) -> bool
    ensures across { IsTrue result → at.dx ≡ pos 0 }
    ensures down { IsTrue result → at.dy ≡ pos 0 }
{
    if at.dx != 0 {
        return false;
    }
    at.dy == 0
}

// Whether they are the same.
pub fn is_same_step(a: Step, b: Step) -> bool
    ensures edge { IsTrue result → a.edge ≡ b.edge }
    ensures across { IsTrue result → a.dx ≡ b.dx }
    ensures down { IsTrue result → a.dy ≡ b.dy }
{
    if a.edge != b.edge {
        return false;
    }
    if a.dx != b.dx {
        return false;
    }
    a.dy == b.dy
}

impl Step {
    pub fn new(edge: Edge, dx: i32, dy: i32) -> Step
        ensures edge { result.edge ≡ edge }
        ensures across { result.dx ≡ dx }
        ensures down { result.dy ≡ dy }
    {
        Step { edge, dx, dy }
    }
}

// The sum of two moves that do not go to opposite sides.
fn joined(d: i32, e: i32) -> Option<i32>
    ensures { IfSome result (IsJoined d e) }
{
    if d < 0 && 0 < e {
        return None;
    }
    if 0 < d && e < 0 {
        return None;
    }
    d.checked_add(e)
}

// A clamped step from a point that was brought to the edge.
fn joined_step(at: Step, dx: i32, dy: i32) -> Option<Step>
    ensures { IfSome result (λ to. IsPushed Clamp at.dx at.dy Clamp dx dy to.edge to.dx to.dy) }
{
    let dx = joined(at.dx, dx)?;
    let dy = joined(at.dy, dy)?;
    Some(Step {
        edge: Edge::Clamp,
        dx,
        dy,
    })
}

// A step from a moved point that is in the frame.
fn added_step(at: Step, by: Step) -> Option<Step>
    ensures { IfSome result (λ to. IsPushed Zero at.dx at.dy by.edge by.dx by.dy to.edge to.dx to.dy) }
{
    let dx = at.dx.checked_add(by.dx)?;
    let dy = at.dy.checked_add(by.dy)?;
    Some(Step {
        edge: by.edge,
        dx,
        dy,
    })
}

// A step from a moved point, as one from the point itself, if it is one on each picture.
pub fn pushed(at: Step, by: Step) -> Option<Step>
    ensures { IfSome result (λ to. IsPushed at.edge at.dx at.dy by.edge by.dx by.dy to.edge to.dx to.dy) }
{
    if at.dx == 0 && at.dy == 0 {
        return Some(by);
    }
    if by.dx == 0 && by.dy == 0 {
        return Some(at);
    }
    match at.edge {
        Edge::Zero => added_step(at, by),
        Edge::Clamp => match by.edge {
            Edge::Zero => None,
            Edge::Clamp => joined_step(at, by.dx, by.dy),
        },
    }
}

// The move to the point that a step from a moved point ends at, if it ends at one from each point.
pub fn pushed_shift(at: Step, by: Step) -> Option<Step>
    ensures { IfSome result (λ to. IsSeenBehind at.edge at.dx at.dy by.edge by.dx by.dy to.edge to.dx to.dy) }
{
    if by.dx == 0 && by.dy == 0 {
        return Some(at);
    }
    let to = pushed(at, by)?;
    match to.edge {
        Edge::Clamp => Some(to),
        Edge::Zero => None,
    }
}
