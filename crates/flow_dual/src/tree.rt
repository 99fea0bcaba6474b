// The nodes that are reached from a root in the residual network: by tight constraints, and by taking flow back.

ghost use Rattle.std.specs.Prelude.{◌≡◌, ◌<◌, length, IfOk};
ghost use Rattle.flow_dual.specs.Tree.{CountsReached, Explores, HangsTight, IsClosed, IsClosedAt, IsExplored, IsSearch, IsState, IsTree, KeepsNodes, Reaches};

use crate::shifting::slack;
use dk_base::OutOfMemory;
use raster_delay::Constraint;
use std::alloc::Global;

// The constraints, and for each node the numbers of those at it.
#[derive(Clone, Copy)]
pub struct Network<'a> {
    pub constraints: &'a [Constraint],
    pub incident: &'a [Vec<usize>],
}

// The residual network: the constraints, the potentials of the nodes, by which some are tight, and the flow, which may be taken back.
#[derive(Clone, Copy)]
struct Residual<'a> {
    constraints: &'a [Constraint],
    potentials: &'a [u64],
    flow: &'a [u64],
}

// A search from a root: how many nodes are reached, and for each node when it was (0: not yet) and the constraint on which it hangs.
#[derive(Drop)]
pub struct Tree {
    pub root: usize,
    pub reached: usize,
    pub order: Vec<usize>,
    pub parent: Vec<usize>,
}

// Hangs the node that a constraint reaches on it, if there is one.
fn cross(residual: &Residual, tree: &mut Tree, i: usize)
    requires state { IsState residual.now.constraints.now residual.now.potentials.now
        residual.now.flow.now }
    requires search { IsSearch residual.now.constraints.now residual.now.potentials.now
        residual.now.flow.now
        tree.old.order.items tree.old.parent.items tree.old.root tree.old.reached }
    requires index { i < length residual.now.constraints.now }
    ensures keeps { KeepsNodes tree.old tree.new }
    ensures tree { IsTree residual.now.constraints.now residual.now.flow.now
        tree.new.order.items tree.new.parent.items tree.new.root }
    ensures tight { HangsTight residual.now.constraints.now residual.now.potentials.now
        tree.new.order.items tree.new.parent.items tree.new.root }
    ensures count { CountsReached tree.new.order.items tree.new.reached }
    ensures closed { tree.new.reached ≡ tree.old.reached
        → IsClosedAt residual.now.constraints.now residual.now.potentials.now
        residual.now.flow.now tree.new.order.items i }
{
    let c = residual.constraints[i];
    if tree.order[c.source] != 0 && tree.order[c.target] == 0 {
        if slack(c, residual.potentials) == 0 {
            tree.reached += 1;
            tree.order[c.target] = tree.reached;
            tree.parent[c.target] = i;
        }
        return;
    }
    if tree.order[c.source] == 0 && tree.order[c.target] != 0 && residual.flow[i] > 0 {
        tree.reached += 1;
        tree.order[c.source] = tree.reached;
        tree.parent[c.source] = i;
    }
}

// Goes once over the constraints, and hangs each node that one of them reaches on it.
fn widen(residual: &Residual, tree: &mut Tree)
    requires { IsExplored residual.now.constraints.now residual.now.potentials.now
        residual.now.flow.now tree.old }
    ensures explores { Explores residual.now.constraints.now residual.now.potentials.now
        residual.now.flow.now tree.old tree.new }
    ensures closed { tree.new.reached ≡ tree.old.reached
        → IsClosed residual.now.constraints.now residual.now.potentials.now
        residual.now.flow.now tree.new.order.items }
{
    for i in 0..residual.constraints.len() {
        cross(residual, tree, i);
    }
}

// Hangs what these constraints reach, and notes which node was reached at each order.
fn explore_from(residual: &Residual, tree: &mut Tree, found: &mut [usize], incident: &[usize])
    requires { IsExplored residual.now.constraints.now residual.now.potentials.now
        residual.now.flow.now tree.old }
    ensures { Explores residual.now.constraints.now residual.now.potentials.now
        residual.now.flow.now tree.old tree.new }
{
    for k in 0..incident.len() {
        let i = incident[k];
        if i < residual.constraints.len() {
            let before = tree.reached;
            cross(residual, tree, i);
            let last = tree.reached;
            if last != before && last < found.len() {
                let c = residual.constraints[i];
                found[last] = if tree.order[c.target] == last {
                    c.target
                } else {
                    c.source
                };
            }
        }
    }
}

// Goes on from each node that is reached, in their order, by the lists of constraints at the nodes. This is for speed:
// that nothing is left out rests on `widen`, and not on the lists.
fn explore(residual: &Residual, tree: &mut Tree, found: &mut [usize], incident: &[Vec<usize>])
    requires { IsExplored residual.now.constraints.now residual.now.potentials.now
        residual.now.flow.now tree.old }
    ensures { Explores residual.now.constraints.now residual.now.potentials.now
        residual.now.flow.now tree.old tree.new }
{
    for next in 1..found.len() {
        if next > tree.reached {
            return;
        }
        let node = found[next];
        if node < incident.len() {
            let here = incident[node].as_slice();
            explore_from(residual, tree, found, here);
        }
    }
}

// The numbers of the constraints at each node.
pub fn incidence(
    alloc: Global,
    constraints: &[Constraint],
    nodes: usize,
) -> Result<Vec<Vec<usize>>, OutOfMemory> {
    let mut incident = Vec::new(alloc);
    for _ in 0..nodes {
        incident.push(Vec::new(alloc))?;
    }
    for i in 0..constraints.len() {
        let c = constraints[i];
        if c.source < incident.len() {
            incident[c.source].push(i)?;
        }
        if c.target < incident.len() {
            incident[c.target].push(i)?;
        }
    }
    Ok(incident)
}

// The nodes that are reached from a root.
pub fn reach(
    alloc: Global,
    network: &Network,
    potentials: &[u64],
    flow: &[u64],
    root: usize,
) -> Result<Tree, OutOfMemory>
    requires state { IsState network.now.constraints.now potentials.now flow.now }
    requires root { root < length potentials.now }
    ensures { IfOk result (Reaches network.now.constraints.now potentials.now flow.now root) }
{
    let constraints = network.constraints;
    let residual = Residual {
        constraints,
        potentials,
        flow,
    };
    let mut found = vec![in alloc; root; potentials.len()]?;
    let mut order = vec![in alloc; 0usize; potentials.len()]?;
    let parent = vec![in alloc; 0usize; potentials.len()]?;
    order[root] = 1;
    let mut tree = Tree {
        root,
        reached: 1,
        order,
        parent,
    };
    loop {
        explore(&residual, &mut tree, &mut found, network.incident);
        let before = tree.reached;
        widen(&residual, &mut tree);
        if tree.reached == before {
            return Ok(tree);
        }
    }
}
