// Flow pushed along a tree.

ghost use Rattle.std.specs.Prelude.{◌<◌, ◌+◌, ◌^◌, ℕ, slice_index};
ghost use Rattle.flow_dual.specs.Tree.{IsOnTree, Pushes};

use raster_delay::Constraint;

// The ways from the root to the nodes that are reached: when each was reached (0: not), and the constraint on which it hangs.
#[derive(Clone, Copy)]
pub struct Paths<'a> {
    pub root: usize,
    pub order: &'a [usize],
    pub parent: &'a [usize],
}

// Pushes at most so much flow from the root of a tree to a node, and answers how much.
pub fn push(
    constraints: &[Constraint],
    paths: &Paths,
    flow: &mut [u64],
    node: usize,
    most: u64,
) -> u64
    requires way { IsOnTree constraints.now flow.old paths.now.order.now paths.now.parent.now
        paths.now.root node }
    requires some { 0 < most }
    requires room { (i : ℕ) → slice_index flow.old i + most < 2 ^ 64 }
    ensures { Pushes constraints.now paths.now.order.now paths.now.parent.now
        paths.now.root node flow.old flow.new most result }
{
    if node == paths.root {
        return most;
    }
    let i = paths.parent[node];
    let c = constraints[i];
    if c.target == node {
        let amount = push(constraints, paths, flow, c.source, most);
        flow[i] += amount;
        amount
    } else {
        let room = most.min(flow[i]);
        let amount = push(constraints, paths, flow, c.target, room);
        flow[i] -= amount;
        amount
    }
}
