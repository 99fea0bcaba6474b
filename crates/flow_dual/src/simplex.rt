// A network simplex: a spanning tree of constraints that has all flow on it is changed, one constraint at a time, until the
// potentials of the nodes by which it is tight keep each constraint.
//
// It is for speed and claims nothing: what it proposes is used only where `is_optimal` finds it so.

use dk_base::{Image, OutOfMemory};
use raster_delay::{Constraint, System};
use std::alloc::Global;

// How many constraints are looked at before the one of them that is violated most enters the tree.
const PIVOT_GROUP: usize = 64;

// How many exchanges are made at most: some twenty times as many as were ever seen. Without a bound it ends too, since no tree
// comes twice, but nothing proved says so.
const MOST_EXCHANGES: usize = 65_536;

/// Potentials of the nodes, and a flow.
#[derive(Drop)]
pub struct Proposal {
    pub potentials: Vec<u64>,
    pub flow: Vec<u64>,
}

// The node on which a node hangs in the tree, the constraint by which it does, and how many are above it. The root hangs on itself.
#[derive(Clone, Copy)]
struct Link {
    parent: usize,
    via: usize,
    depth: usize,
}

// The spanning tree, the potentials by which it is tight, and the flow on all constraints.
#[derive(Drop)]
struct Basis {
    links: Vec<Link>,
    potentials: Vec<i64>,
    flow: Vec<u64>,
}

// For each node one that hangs on it, and the next one that hangs where it does.
#[derive(Drop)]
struct Branches {
    first: Vec<Option<usize>>,
    next: Vec<Option<usize>>,
}

// The two ways up from the ends of a constraint that enters the tree.
#[derive(Clone, Copy)]
enum Side {
    Source,
    Target,
}

// The node below the constraint that leaves the tree, the side it is on, and the flow that is moved.
#[derive(Clone, Copy)]
struct Exit {
    amount: u64,
    node: usize,
    side: Side,
}

fn link_of(links: &[Link], node: usize) -> Link {
    match links.get(node) {
        Some(link) => *link,
        None => Link {
            parent: 0,
            via: 0,
            depth: 0,
        },
    }
}

fn constraint_of(constraints: &[Constraint], i: usize) -> Constraint {
    match constraints.get(i) {
        Some(c) => *c,
        None => Constraint {
            source: 0,
            target: 0,
            cost: 0,
        },
    }
}

fn potential_of(potentials: &[i64], node: usize) -> i64 {
    match potentials.get(node) {
        Some(n) => *n,
        None => 0,
    }
}

fn node_in(nodes: &[Option<usize>], node: usize) -> Option<usize> {
    match nodes.get(node) {
        Some(found) => *found,
        None => None,
    }
}

// By how much a constraint is violated, below 0 where it has that to spare.
fn violation(c: Constraint, potentials: &[i64]) -> i64 {
    let least = potential_of(potentials, c.source).wrapping_add(c.cost);
    least.wrapping_sub(potential_of(potentials, c.target))
}

// The constraint that is violated most among those from one number to another.
fn most_violated(
    constraints: &[Constraint],
    potentials: &[i64],
    from: usize,
    to: usize,
) -> Option<usize> {
    let mut found = None;
    let mut most = 0;
    for i in from..to {
        let by = violation(constraint_of(constraints, i), potentials);
        if by > most {
            most = by;
            found = Some(i);
        }
    }
    found
}

// The constraint to enter the tree, of the first group with a violated one from a number on. The number is moved on.
fn entering(constraints: &[Constraint], potentials: &[i64], from: &mut usize) -> Option<usize> {
    for _ in 0..constraints.len() / PIVOT_GROUP + 2 {
        let to = from.saturating_add(PIVOT_GROUP).min(constraints.len());
        let found = most_violated(constraints, potentials, *from, to);
        *from = if to < constraints.len() { to } else { 0 };
        if found.is_some() {
            return found;
        }
    }
    None
}

// The lowest common ancestor of two nodes.
fn common_ancestor(links: &[Link], a: usize, b: usize) -> usize {
    let mut a = a;
    let mut b = b;
    for _ in 0..links.len() {
        if a == b {
            return a;
        }
        let over_a = link_of(links, a);
        let over_b = link_of(links, b);
        if over_a.depth >= over_b.depth {
            a = over_a.parent;
        }
        if over_b.depth >= over_a.depth {
            b = over_b.parent;
        }
    }
    a
}

// Whether the constraint on which a node hangs loses flow where a constraint that enters gains it.
fn loses(c: Constraint, node: usize, side: Side) -> bool {
    match side {
        Side::Source => c.source == node,
        Side::Target => c.target == node,
    }
}

// The constraint with the least flow among those that lose flow on one side. Of those with as little the one nearest to the
// common ancestor leaves on the source's side, and else the one nearest to the target: so no tree comes twice.
fn leaving(
    constraints: &[Constraint],
    basis: &Basis,
    from: usize,
    top: usize,
    side: Side,
    so_far: Exit,
) -> Exit {
    let mut leaving = so_far;
    let mut node = from;
    for _ in 0..basis.links.len() {
        if node == top {
            return leaving;
        }
        let link = link_of(&basis.links, node);
        let amount = basis.flow.get(link.via).copied().unwrap_or(0);
        let nearer = match side {
            Side::Source => amount <= leaving.amount,
            Side::Target => amount < leaving.amount,
        };
        if nearer && loses(constraint_of(constraints, link.via), node, side) {
            leaving = Exit { amount, node, side };
        }
        node = link.parent;
    }
    leaving
}

// A flow that loses or gains an amount.
fn changed(flow: u64, is_lost: bool, amount: u64) -> u64 {
    if is_lost {
        flow.saturating_sub(amount)
    } else {
        flow.saturating_add(amount)
    }
}

// Moves flow along one side.
fn shift(
    constraints: &[Constraint],
    basis: &mut Basis,
    from: usize,
    top: usize,
    side: Side,
    amount: u64,
) {
    let mut node = from;
    for _ in 0..basis.links.len() {
        if node == top {
            return;
        }
        let link = link_of(&basis.links, node);
        if let Some(flow) = basis.flow.get_mut(link.via) {
            let is_lost = loses(constraint_of(constraints, link.via), node, side);
            *flow = changed(*flow, is_lost, amount);
        }
        node = link.parent;
    }
}

// Hangs a node on another by a constraint, and turns what it hung on until the constraint below `last` is out of the tree.
fn hang(links: &mut [Link], node: usize, parent: usize, via: usize, last: usize) {
    let mut node = node;
    let mut parent = parent;
    let mut via = via;
    for _ in 0..links.len() {
        if node >= links.len() {
            return;
        }
        let old = links[node];
        links[node].parent = parent;
        links[node].via = via;
        if node == last {
            return;
        }
        parent = node;
        via = old.via;
        node = old.parent;
    }
}

// Lists anew what hangs on each node.
fn list_branches(links: &[Link], first: &mut [Option<usize>], next: &mut [Option<usize>]) {
    first.fill(None);
    for node in 1..links.len() {
        let parent = links[node].parent;
        if parent < first.len() && node < next.len() {
            next[node] = first[parent];
            first[parent] = Some(node);
        }
    }
}

// Makes the constraint on which a node hangs tight by the node's potential.
fn tighten(constraints: &[Constraint], links: &mut [Link], potentials: &mut [i64], node: usize) {
    let link = link_of(links, node);
    let c = constraint_of(constraints, link.via);
    let above = potential_of(potentials, link.parent);
    let depth = link_of(links, link.parent).depth.saturating_add(1);
    if node < links.len() && node < potentials.len() {
        links[node].depth = depth;
        potentials[node] = if c.target == node {
            above.wrapping_add(c.cost)
        } else {
            above.wrapping_sub(c.cost)
        };
    }
}

// Makes all constraints tight by which nodes hang on a node and below.
fn tighten_below(
    constraints: &[Constraint],
    links: &mut [Link],
    potentials: &mut [i64],
    branches: &Branches,
    waiting: &mut Vec<usize>,
    top: usize,
) -> Result<(), OutOfMemory> {
    waiting.clear();
    waiting.push(top)?;
    for _ in 0..links.len() {
        let Some(node) = waiting.pop() else {
            return Ok(());
        };
        if node != 0 {
            tighten(constraints, links, potentials, node);
        }
        if node != top
            && let Some(next) = node_in(&branches.next, node)
        {
            waiting.push(next)?;
        }
        if let Some(first) = node_in(&branches.first, node) {
            waiting.push(first)?;
        }
    }
    Ok(())
}

// Lets a constraint enter the tree and another leave it. Answers the node from which the tree was changed.
fn exchange(constraints: &[Constraint], basis: &mut Basis, enters: usize) -> usize {
    let c = constraint_of(constraints, enters);
    let top = common_ancestor(&basis.links, c.source, c.target);
    let none = Exit {
        amount: u64::MAX,
        node: top,
        side: Side::Source,
    };
    let near = leaving(constraints, basis, c.source, top, Side::Source, none);
    let least = leaving(constraints, basis, c.target, top, Side::Target, near);
    shift(
        constraints,
        basis,
        c.source,
        top,
        Side::Source,
        least.amount,
    );
    shift(
        constraints,
        basis,
        c.target,
        top,
        Side::Target,
        least.amount,
    );
    if let Some(flow) = basis.flow.get_mut(enters) {
        *flow = flow.saturating_add(least.amount);
    }
    let (low, high) = match least.side {
        Side::Source => (c.source, c.target),
        Side::Target => (c.target, c.source),
    };
    hang(&mut basis.links, low, high, enters, least.node);
    low
}

// Exchanges constraints until none is violated.
fn improve(
    alloc: Global,
    constraints: &[Constraint],
    basis: &mut Basis,
    branches: &mut Branches,
) -> Result<(), OutOfMemory> {
    let mut waiting = Vec::new(alloc);
    let mut from = 0;
    let mut low = 0;
    for _ in 0..MOST_EXCHANGES {
        list_branches(&basis.links, &mut branches.first, &mut branches.next);
        let links = &mut basis.links;
        let potentials = &mut basis.potentials;
        tighten_below(constraints, links, potentials, branches, &mut waiting, low)?;
        match entering(constraints, &basis.potentials, &mut from) {
            None => return Ok(()),
            Some(enters) => low = exchange(constraints, basis, enters),
        }
    }
    Ok(())
}

// The first tree: each node hangs on the first constraint that leads to it.
fn first_links(
    alloc: Global,
    constraints: &[Constraint],
    nodes: usize,
) -> Result<Vec<Link>, OutOfMemory> {
    let root = Link {
        parent: 0,
        via: 0,
        depth: 0,
    };
    let mut links = vec![in alloc; root; nodes]?;
    for k in 0..constraints.len() {
        let i = constraints.len() - 1 - k;
        let c = constraints[i];
        if c.target < links.len() {
            links[c.target].parent = c.source;
            links[c.target].via = i;
        }
    }
    Ok(links)
}

// The first flow: each image's width from where its values begin to be held to where they end, on its constraint of kind hold.
fn first_flow(alloc: Global, images: &[Image], count: usize) -> Result<Vec<u64>, OutOfMemory> {
    let mut flow = vec![in alloc; 0u64; count]?;
    for k in 0..images.len().min(count) {
        flow[k] = u64::from(images[k].width);
    }
    Ok(flow)
}

// The potentials, each at least 0.
fn unsigned(alloc: Global, potentials: &[i64]) -> Result<Vec<u64>, OutOfMemory> {
    let mut all = Vec::new(alloc);
    for potential in potentials {
        all.push(potential.unsigned_abs())?;
    }
    Ok(all)
}

/// Numbers of the nodes that keep the constraints, and a flow that shows them to be of least bits, as far as the simplex finds them. Nothing is promised: `is_optimal` says whether they are.
pub fn propose(alloc: Global, system: &System) -> Result<Proposal, OutOfMemory> {
    let constraints = system.constraints();
    let nodes = system.nodes();
    let mut basis = Basis {
        links: first_links(alloc, constraints, nodes)?,
        potentials: vec![in alloc; 0i64; nodes]?,
        flow: first_flow(alloc, system.images(), constraints.len())?,
    };
    let mut branches = Branches {
        first: vec![in alloc; None; nodes]?,
        next: vec![in alloc; None; nodes]?,
    };
    improve(alloc, constraints, &mut basis, &mut branches)?;
    let potentials = unsigned(alloc, &basis.potentials)?;
    Ok(Proposal {
        potentials,
        flow: basis.flow,
    })
}
