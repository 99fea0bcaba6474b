// Whether the flow is balanced, and what it is worth.

ghost use Rattle.std.specs.Prelude.{◌≡◌, ◌≤◌, ◌<◌, ◌^◌, ◌↔◌, pos, neg_ℤ, ◌-ℤ◌, ◌≤ℤ◌, length, slice_index, Contains, IsTrue};
ghost use Rattle.raster_delay.specs.Network.{worth};
ghost use Rattle.raster_delay.specs.Delays.{IsReadAmong};
ghost use Rattle.raster_delay.specs.Systems.{image_count, placed_reads, coefficient_in};
ghost use Rattle.plan_check.specs.Flows.{amount_of};
ghost use Rattle.plan_check.specs.Holding.{HasConstraint, FlowHolds};
ghost use Rattle.plan_check.specs.Sums.{AddsAt, AreEven, AreFlowLines, AreSums, IsBounded, IsLimited, IsPrice, SumsHold, Tallies, amounts, carriers, constraint_of, inflow_of, outflow_of};

use crate::lines::named;
use raster_delay::{
    Constraint, PlacedRead, System, hold_constraint, keep_constraint, read_constraint,
    start_constraint,
};
use report_text::FlowLine;

// The most nodes of a system: those of 264 images and one input.
const MOST_NODES: usize = 528;

// What a system's limits say of a live read.
fn read_law(system: &System, r: PlacedRead)
    requires { Contains (placed_reads system.now) r }
    ensures { IsReadAmong system.now.stencils.width (image_count system.now) r }
{
    system.law();
}

// What a system's limits are.
fn limits(system: &System)
    ensures { IsLimited system.now }
{
    system.law();
}

// The constraint that a flow line names.
fn constraint_of(system: &System, line: FlowLine) -> Constraint
    requires { HasConstraint system.now line }
    ensures { result ≡ constraint_of system.now line }
{
    limits(system);
    let inputs = system.inputs();
    let images = system.images().len();
    match line {
        FlowLine::Hold { image, .. } => hold_constraint(inputs, images, image),
        FlowLine::Start { image, .. } => start_constraint(inputs, image),
        FlowLine::Read {
            reader,
            source,
            dx,
            dy,
            ..
        } => {
            let read = named(reader, source, dx, dy);
            read_law(system, read);
            read_constraint(system.width(), system.age(), inputs, read)
        }
        FlowLine::Keep {
            reader,
            source,
            dx,
            dy,
            ..
        } => {
            let read = named(reader, source, dx, dy);
            read_law(system, read);
            keep_constraint(system.width(), inputs, images, read)
        }
    }
}

// What a flow line carries.
fn amount_of(line: FlowLine) -> u64
    ensures { result ≡ amount_of line }
{
    match line {
        FlowLine::Hold { flow, .. } => flow,
        FlowLine::Start { flow, .. } => flow,
        FlowLine::Read { flow, .. } => flow,
        FlowLine::Keep { flow, .. } => flow,
    }
}

// Between which nodes a flow line's constraint is, and how small its cost is.
fn constraint_law(system: &System, line: FlowLine)
    requires { HasConstraint system.now line }
    ensures { IsBounded system.now (constraint_of system.now line) }
{
    system.law();
}

// Adds an amount to the sum of a node.
fn add_at(sums: &mut [u128], node: usize, amount: u64)
    requires within { node < length sums.old }
    requires room { slice_index sums.old node ≤ 2 ^ 100 }
    ensures { AddsAt sums.old sums.new node amount }
{
    sums[node] += u128::from(amount);
}

// Adds what a flow line brings to its target, and what it takes from its source.
fn add_line(system: &System, line: FlowLine, brought: &mut [u128], taken: &mut [u128])
    requires constraint { HasConstraint system.now line }
    requires sums { AreSums system.now (2 ^ 100) brought.old taken.old }
    ensures brought { AddsAt brought.old brought.new
        (constraint_of system.now line).target (amount_of line) }
    ensures taken { AddsAt taken.old taken.new
        (constraint_of system.now line).source (amount_of line) }
{
    constraint_law(system, line);
    let constraint = constraint_of(system, line);
    let amount = amount_of(line);
    add_at(brought, constraint.target, amount);
    add_at(taken, constraint.source, amount);
}

// What flows into each node, and what flows out.
fn tally(system: &System, flow: &[FlowLine], brought: &mut [u128], taken: &mut [u128])
    requires lines { AreFlowLines system.now flow.now }
    requires none { AreSums system.now 0 brought.old taken.old }
    ensures { Tallies system.now flow.now brought.new taken.new }
{
    for line in flow {
        add_line(system, *line, brought, taken);
    }
}

// Whether what flows into a node less what flows out is the coefficient.
fn is_even(system: &System, node: usize, brought: u128, taken: u128) -> bool
    requires brought { brought ≤ 2 ^ 100 }
    requires taken { taken ≤ 2 ^ 100 }
    ensures { IsTrue result ↔ (pos brought -ℤ pos taken ≡ coefficient_in system.now node) }
{
    brought as i128 - taken as i128 == i128::from(system.coefficient(node))
}

// Whether that holds at each node.
fn are_even(system: &System, brought: &[u128], taken: &[u128]) -> bool
    requires { AreSums system.now (2 ^ 100) brought.now taken.now }
    ensures { IsTrue result ↔ AreEven system.now (slice_index brought.now) (slice_index taken.now) }
{
    for node in 0..system.nodes() {
        if !is_even(system, node, brought[node], taken[node]) {
            return false;
        }
    }
    true
}

// Whether at each node what flows in less what flows out is the coefficient, in one pass over the flow lines.
fn is_balanced(system: &System, flow: &[FlowLine]) -> bool
    requires { AreFlowLines system.now flow.now }
    ensures { IsTrue result
        ↔ AreEven system.now (inflow_of system.now flow.now) (outflow_of system.now flow.now) }
{
    system.law();
    let mut brought = [0; MOST_NODES];
    let mut taken = [0; MOST_NODES];
    tally(system, flow, &mut brought, &mut taken);
    are_even(system, &brought, &taken)
}

// A cost times an amount.
fn price(cost: i64, amount: u64) -> i128
    requires low { neg_ℤ (pos (2 ^ 25)) ≤ℤ cost }
    requires high { cost ≤ℤ pos (2 ^ 25) }
    ensures { IsPrice cost amount result }
{
    let size = u128::from(cost.unsigned_abs()) * u128::from(amount);
    if cost < 0 {
        -(size as i128)
    } else {
        size as i128
    }
}

// The sum of cost times flow.
fn worth(system: &System, flow: &[FlowLine]) -> i128
    requires { AreFlowLines system.now flow.now }
    ensures { result ≡ worth (carriers system.now flow.now) (amounts flow.now) }
{
    let mut sum: i128 = 0;
    for line in flow {
        sum += price_of(system, *line);
    }
    sum
}

// The cost of a flow line's constraint, times what it carries.
fn price_of(system: &System, line: FlowLine) -> i128
    requires { HasConstraint system.now line }
    ensures { IsPrice (constraint_of system.now line).cost (amount_of line) result }
{
    constraint_law(system, line);
    price(constraint_of(system, line).cost, amount_of(line))
}

// Whether the flow lines are balanced and worth these bits, each on the constraint that it names.
fn sums_hold(system: &System, flow: &[FlowLine], bits: u64) -> bool
    requires { AreFlowLines system.now flow.now }
    ensures { IsTrue result ↔ SumsHold system.now flow.now bits }
{
    if !is_balanced(system, flow) {
        return false;
    }
    worth(system, flow) == i128::from(bits)
}

// A law: lines in order that name constraints sum to what the flow does whose lines they are.
fn sums_law(system: &System, flow: &[FlowLine], bits: u64)
    requires { AreFlowLines system.now flow.now }
    ensures { SumsHold system.now flow.now bits ↔ FlowHolds system.now flow.now bits }
{
    system.law();
}

/// Whether the flow lines are those of a balanced flow that is worth these bits.
pub(crate) fn flow_holds(system: &System, flow: &[FlowLine], bits: u64) -> bool
    requires { AreFlowLines system.now flow.now }
    ensures { IsTrue result ↔ FlowHolds system.now flow.now bits }
{
    sums_law(system, flow, bits);
    sums_hold(system, flow, bits)
}
