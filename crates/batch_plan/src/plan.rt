// A plan for a batch of clocks.
//
// It is for speed and claims nothing: who runs it checks all that it rests on.

use crate::graph::{ArrayRead, Graph, Needs, arrays_are_single, graph_of, words_read};
use crate::groups::{NodeGroups, groups_of};
use crate::search::components_of;
use dk_base::OutOfMemory;
use netlist::{Module, Netlist};
use std::alloc::{AllocError, Global};
use wiring::Update;

/// How the words of an array to which a batch comes back are written, clock by clock.
#[derive(Clone, Copy, Debug, PartialEq, Eq)]
pub enum WriteForm {
    /// By its put.
    Put,
    /// By a choice: a value where a bit is 1, else what is read, at the index of the read. The choice is evaluated after the read.
    Choice,
    /// By a choice: a value where a bit is 1, else the register that takes what is read. The register's row and the choice are made
    /// after the read.
    Copy,
}

/// What is done next to the rows of a batch.
#[derive(Clone, Copy, Debug, PartialEq, Eq)]
pub enum BatchStep {
    /// The assigns of the order up to this place, exclusive, are evaluated over the whole batch.
    Run {
        upto: usize,
    },
    /// This register is on no cycle: its row is its next value's, one clock later.
    Shift {
        register: usize,
    },
    /// The reads of this array are taken from its words as they are before the batch.
    Read {
        array: usize,
    },
    /// The reads of this array, which has no more words than the batch has clocks, so that the batch comes back to them: reads and
    /// writes, clock by clock, over a copy of the words. The indexes are known, and the value put, or the bit and the value of the
    /// choice.
    ReadWritten {
        array: usize,
        written: WriteForm,
    },
    /// This register takes what is read of an array where a bit is 1, and else keeps its value: its row is made from those of the
    /// bit and of the read, and the choice is evaluated after this step.
    Load {
        register: usize,
    },
    /// The registers `looped[first..last]` are on a cycle: their rows are guessed, the assigns of the order up to
    /// `upto` are evaluated, and what was guessed is compared and mended.
    Guess {
        first: usize,
        last: usize,
        upto: usize,
    },
}

/// The assigns that read no array, each after all that it reads but for cycles through registers, and the steps that evaluate
/// them.
#[derive(Debug, Drop)]
pub struct BatchPlan {
    /// The numbers of these assigns.
    pub order: Vec<usize>,
    pub steps: Vec<BatchStep>,
    /// The registers on cycles.
    pub looped: Vec<usize>,
    /// The most clocks of a batch.
    pub size: usize,
}

// A plan that is made, and how many of its assigns its steps evaluate.
#[derive(Drop)]
struct PlanDraft {
    plan: BatchPlan,
    done: usize,
}

// Evaluates what was gathered.
fn flush(draft: &mut PlanDraft) -> Result<(), AllocError> {
    let upto = draft.plan.order.len();
    if upto > draft.done {
        draft.plan.steps.push(BatchStep::Run { upto })?;
        draft.done = upto;
    }
    Ok(())
}

fn add_step(draft: &mut PlanDraft, step: BatchStep) -> Result<(), AllocError> {
    flush(draft)?;
    draft.plan.steps.push(step)?;
    Ok(())
}

// How an assign reads an array, if it does.
fn access_at(graph: &Graph, assign: usize) -> Option<ArrayRead> {
    match graph.accesses.get(assign) {
        Some(access) => *access,
        None => None,
    }
}

// An assign on no cycle.
fn add_assign(draft: &mut PlanDraft, graph: &Graph, assign: usize) -> Result<(), AllocError> {
    let Some(access) = access_at(graph, assign) else {
        draft.plan.order.push(assign)?;
        return Ok(());
    };
    let array = access.array;
    match access.written {
        None => add_step(draft, BatchStep::Read { array }),
        Some(written) => add_step(draft, BatchStep::ReadWritten { array, written }),
    }
}

fn is_load(graph: &Graph, update: usize) -> bool {
    match graph.loads.get(update) {
        Some(load) => *load,
        None => false,
    }
}

// The register that an update sets, if it sets one.
fn register_of(wiring: &Netlist, update: usize) -> Option<usize> {
    match wiring.updates.get(update) {
        Some(Update::Set(register, _)) => Some(*register),
        Some(Update::Put(_, _, _)) | None => None,
    }
}

// The one node of a group, on no cycle.
fn add_single(
    draft: &mut PlanDraft,
    wiring: &Netlist,
    graph: &Graph,
    node: usize,
) -> Result<(), AllocError> {
    let assigns = wiring.assigns.len();
    if node < assigns {
        return add_assign(draft, graph, node);
    }
    let update = node - assigns;
    match register_of(wiring, update) {
        Some(register) if is_load(graph, update) => add_step(draft, BatchStep::Load { register }),
        Some(register) => add_step(draft, BatchStep::Shift { register }),
        None => Ok(()),
    }
}

// One node of a group on a cycle; false where it reads an array.
fn add_looped(
    draft: &mut PlanDraft,
    wiring: &Netlist,
    graph: &Graph,
    node: usize,
) -> Result<bool, AllocError> {
    if let Some(update) = node.checked_sub(wiring.assigns.len()) {
        if let Some(register) = register_of(wiring, update) {
            draft.plan.looped.push(register)?;
        }
        return Ok(true);
    }
    if access_at(graph, node).is_some() {
        return Ok(false);
    }
    draft.plan.order.push(node)?;
    Ok(true)
}

// The nodes of a group on a cycle; false where one of them reads an array.
fn add_cycle(
    draft: &mut PlanDraft,
    wiring: &Netlist,
    graph: &Graph,
    nodes: &[usize],
) -> Result<bool, AllocError> {
    flush(draft)?;
    let first = draft.plan.looped.len();
    for node in nodes {
        if !add_looped(draft, wiring, graph, *node)? {
            return Ok(false);
        }
    }
    let last = draft.plan.looped.len();
    let upto = draft.plan.order.len();
    draft
        .plan
        .steps
        .push(BatchStep::Guess { first, last, upto })?;
    draft.done = upto;
    Ok(true)
}

fn add_group(
    draft: &mut PlanDraft,
    wiring: &Netlist,
    graph: &Graph,
    nodes: &[usize],
) -> Result<bool, AllocError> {
    let Some(node) = nodes.first() else {
        return Ok(true);
    };
    if nodes.len() > 1 || needs_itself(&graph.needs, *node) {
        return add_cycle(draft, wiring, graph, nodes);
    }
    add_single(draft, wiring, graph, *node)?;
    Ok(true)
}

fn needs_itself(needs: &[Needs], node: usize) -> bool {
    match needs.get(node) {
        None => false,
        Some(need) => {
            need.first == Some(node) || need.second == Some(node) || need.third == Some(node)
        }
    }
}

// What comes of all groups: a plan, or a cycle with arrays, and then the most clocks of shorter batches in which the cycle has
// fewer arrays to which a batch comes back. It is 0 where it has none.
#[derive(Drop)]
enum Drawn {
    Plan(BatchPlan),
    Cycle(usize),
}

// The most words of an array that one of these nodes reads, of the arrays with no more words than a batch has clocks.
fn deepest(wiring: &Netlist, nodes: &[usize], size: usize) -> usize {
    let mut most = 0;
    for node in nodes {
        let words = words_read(wiring, *node);
        if words <= size {
            most = words.max(most);
        }
    }
    most
}

fn empty_draft(alloc: Global, size: usize) -> PlanDraft {
    PlanDraft {
        plan: BatchPlan {
            order: Vec::new(alloc),
            steps: Vec::new(alloc),
            looped: Vec::new(alloc),
            size,
        },
        done: 0,
    }
}

fn add_groups(
    alloc: Global,
    wiring: &Netlist,
    graph: &Graph,
    groups: &NodeGroups,
    size: usize,
) -> Result<Drawn, AllocError> {
    let mut draft = empty_draft(alloc, size);
    for number in 0..groups.count() {
        let nodes = groups.nodes(number);
        if !add_group(&mut draft, wiring, graph, nodes)? {
            let words = deepest(wiring, nodes, size);
            return Ok(Drawn::Cycle(words.saturating_sub(1)));
        }
    }
    flush(&mut draft)?;
    Ok(Drawn::Plan(draft.plan))
}

// What comes of a module for batches of this many clocks.
fn draw(alloc: Global, module: &Module, size: usize) -> Result<Drawn, AllocError> {
    let wiring = module.wiring();
    let graph = graph_of(alloc, wiring, size)?;
    let found = components_of(alloc, &graph.needs)?;
    let groups = groups_of(alloc, wiring.assigns.len(), module.order(), &found)?;
    add_groups(alloc, wiring, &graph, &groups, size)
}

// How many sizes of batches are tried.
const TRIES: usize = 16;

/// The plan of a module for batches of at most this many clocks, or of fewer where an array is else on a cycle: what is put into
/// it depends on what is read of it, and a batch comes back to its words. None where there is no plan: an array that is not read
/// by one assign and put once, or one on a cycle in shorter batches too. Time and memory are linear in the module.
pub fn make_plan(
    alloc: Global,
    module: &Module,
    most: usize,
) -> Result<Option<BatchPlan>, OutOfMemory> {
    if !arrays_are_single(alloc, module.wiring())? {
        return Ok(None);
    }
    let mut size = most;
    for _try in 0..TRIES {
        match draw(alloc, module, size)? {
            Drawn::Plan(plan) => return Ok(Some(plan)),
            Drawn::Cycle(fewer) => size = fewer,
        }
        if size == 0 {
            return Ok(None);
        }
    }
    Ok(None)
}
