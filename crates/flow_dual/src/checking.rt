// Whether numbers and a flow are of the greatest worth: each constraint holds, each one with flow is tight, and the flow is balanced.

ghost use Rattle.std.specs.Prelude.{◌≡◌, ◌<◌, ◌≤◌, ◌-ℤ◌, ℕ, pos, length, slice_index, All, IfOk};
ghost use Rattle.std.specs.Bool.{OnTrue};
ghost use Rattle.raster_delay.specs.Network.{Holds, IsTight, IsComplementary, inflow, outflow};
ghost use Rattle.raster_delay.specs.Systems.{IsBalanced, constraints_in, coefficient_in, nodes};
ghost use Rattle.flow_dual.specs.Solutions.{IsGreatest};
ghost use Rattle.flow_dual.specs.Tree.{AreSmall, AreSums, AreSumsOf, IsAmong, IsNetwork, IsSmallFlow};

use dk_base::OutOfMemory;
use raster_delay::{Constraint, System};
use std::alloc::Global;

// Whether a constraint holds, and is tight if there is flow on it.
fn carries_at(constraint: Constraint, numbers: &[u64], amount: u64) -> bool
    requires { IsAmong numbers.now constraint }
    ensures holds { OnTrue result (Holds numbers.now constraint) }
    ensures carries { OnTrue result (0 < amount → IsTight numbers.now constraint) }
{
    let source = numbers[constraint.source] as i64;
    let target = numbers[constraint.target] as i64;
    let spare = target - source - constraint.cost;
    spare == 0 || (spare > 0 && amount == 0)
}

// Whether each constraint holds, and each one with flow is tight.
fn carries(constraints: &[Constraint], numbers: &[u64], flow: &[u64]) -> bool
    requires flows { length flow.now ≡ length constraints.now }
    requires network { IsNetwork (length numbers.now) constraints.now }
    requires numbers { AreSmall numbers.now }
    ensures holds { OnTrue result (All (Holds numbers.now) constraints.now) }
    ensures carries { OnTrue result (IsComplementary constraints.now flow.now numbers.now) }
{
    for i in 0..constraints.len() {
        if !carries_at(constraints[i], numbers, flow[i]) {
            return false;
        }
    }
    true
}

// Whether each number is at most so much.
fn are_at_most(numbers: &[u64], most: u64) -> bool
    ensures { OnTrue result ((v : ℕ) → slice_index numbers.now v ≤ most) }
{
    for v in 0..numbers.len() {
        if numbers[v] > most {
            return false;
        }
    }
    true
}

// Adds to each node what a flow brings to it.
fn add_inflows(constraints: &[Constraint], flow: &[u64], inflows: &mut [u64])
    requires flow { IsSmallFlow constraints.now flow.now }
    requires targets { All (λ c. c.target < length inflows.old) constraints.now }
    requires zero { (v : ℕ) → slice_index inflows.old v ≡ 0 }
    ensures { AreSumsOf (length inflows.old) (inflow constraints.now flow.now) inflows.new }
{
    for i in 0..constraints.len() {
        inflows[constraints[i].target] += flow[i];
    }
}

// Adds to each node what a flow takes from it.
fn add_outflows(constraints: &[Constraint], flow: &[u64], outflows: &mut [u64])
    requires flow { IsSmallFlow constraints.now flow.now }
    requires sources { All (λ c. c.source < length outflows.old) constraints.now }
    requires zero { (v : ℕ) → slice_index outflows.old v ≡ 0 }
    ensures { AreSumsOf (length outflows.old) (outflow constraints.now flow.now) outflows.new }
{
    for i in 0..constraints.len() {
        outflows[constraints[i].source] += flow[i];
    }
}

// What a flow brings to each node.
fn inflows(
    alloc: Global,
    constraints: &[Constraint],
    flow: &[u64],
    nodes: usize,
) -> Result<Vec<u64>, OutOfMemory>
    requires flow { IsSmallFlow constraints.now flow.now }
    requires targets { All (λ c. c.target < nodes) constraints.now }
    ensures { IfOk result (λ xs. AreSumsOf nodes (inflow constraints.now flow.now) xs.items) }
{
    let mut inflows = vec![in alloc; 0u64; nodes]?;
    add_inflows(constraints, flow, &mut inflows);
    Ok(inflows)
}

// What a flow takes from each node.
fn outflows(
    alloc: Global,
    constraints: &[Constraint],
    flow: &[u64],
    nodes: usize,
) -> Result<Vec<u64>, OutOfMemory>
    requires flow { IsSmallFlow constraints.now flow.now }
    requires sources { All (λ c. c.source < nodes) constraints.now }
    ensures { IfOk result (λ xs. AreSumsOf nodes (outflow constraints.now flow.now) xs.items) }
{
    let mut outflows = vec![in alloc; 0u64; nodes]?;
    add_outflows(constraints, flow, &mut outflows);
    Ok(outflows)
}

// Whether inflow less outflow is the coefficient at each node.
fn are_balanced(system: &System, inflows: &[u64], outflows: &[u64]) -> bool
    requires inflows { AreSums (nodes system.now) inflows.now }
    requires outflows { AreSums (nodes system.now) outflows.now }
    ensures { OnTrue result ((v : ℕ) → v < nodes system.now
        → pos (slice_index inflows.now v) -ℤ pos (slice_index outflows.now v)
        ≡ coefficient_in system.now v) }
{
    for v in 0..inflows.len() {
        let surplus = inflows[v] as i64 - outflows[v] as i64;
        if surplus != system.coefficient(v) {
            return false;
        }
    }
    true
}

// Whether a flow is balanced.
fn is_balanced(alloc: Global, system: &System, flow: &[u64]) -> Result<bool, OutOfMemory>
    requires { IsSmallFlow (constraints_in system.now) flow.now }
    ensures { IfOk result (λ b. OnTrue b (IsBalanced system.now flow.now)) }
{
    system.law();
    let constraints = system.constraints();
    let inflows = inflows(alloc, constraints, flow, system.nodes())?;
    let outflows = outflows(alloc, constraints, flow, system.nodes())?;
    let balanced = are_balanced(system, &inflows, &outflows);
    Ok(balanced)
}

/// Whether numbers of the nodes keep the constraints, and a flow is balanced and only on tight constraints. It may say no to numbers above 2^59 and flows above 2^32.
pub fn is_optimal(
    alloc: Global,
    system: &System,
    numbers: &[u64],
    flow: &[u64],
) -> Result<bool, OutOfMemory>
    ensures { IfOk result (λ b. OnTrue b (IsGreatest system.now numbers.now flow.now)) }
{
    system.law();
    let constraints = system.constraints();
    if numbers.len() != system.nodes() || flow.len() != constraints.len() {
        return Ok(false);
    }
    if !are_at_most(numbers, 1 << 59) || !are_at_most(flow, 1 << 32) {
        return Ok(false);
    }
    if !carries(constraints, numbers, flow) {
        return Ok(false);
    }
    let balanced = is_balanced(alloc, system, flow)?;
    Ok(balanced)
}
