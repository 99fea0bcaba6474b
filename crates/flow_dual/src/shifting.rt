// How far the numbers of nodes may be raised or lowered, and doing so.

ghost use Rattle.std.specs.Prelude.{◌≡◌, ◌<◌, ◌≤◌, ◌+◌, ◌-◌, ◌^◌, ◌+ℤ◌, ℕ, pos, length, slice_index};
ghost use Rattle.raster_delay.specs.Network.{Holds};
ghost use Rattle.flow_dual.specs.Tree.{IsAmong, IsFeasible, IsSlack, Shifts, Sinks, StopsTight};

use raster_delay::Constraint;

// How far the target's number is above the source's and the cost.
pub fn slack(constraint: Constraint, numbers: &[u64]) -> u64
    requires among { IsAmong numbers.now constraint }
    requires holds { Holds numbers.now constraint }
    ensures { pos (slice_index numbers.now constraint.source) +ℤ constraint.cost +ℤ pos result
        ≡ pos (slice_index numbers.now constraint.target) }
{
    let source = numbers[constraint.source] as i64;
    let target = numbers[constraint.target] as i64;
    (target - source - constraint.cost) as u64
}

// The least slack of the constraints that lead from a node that is reached to one that is not.
pub fn least_slack(constraints: &[Constraint], numbers: &[u64], order: &[usize]) -> u64
    requires orders { length order.now ≡ length numbers.now }
    requires feasible { IsFeasible constraints.now numbers.now }
    requires closed { StopsTight constraints.now numbers.now order.now }
    ensures { IsSlack constraints.now numbers.now order.now result }
{
    let mut least = u64::MAX;
    for i in 0..constraints.len() {
        let c = constraints[i];
        if order[c.source] != 0 && order[c.target] == 0 {
            least = least.min(slack(c, numbers));
        }
    }
    least
}

// Raises the numbers of the nodes that are reached.
pub fn raise(numbers: &mut [u64], order: &[usize], by: u64)
    requires orders { length order.now ≡ length numbers.old }
    requires room { (v : ℕ) → slice_index numbers.old v + by < 2 ^ 64 }
    ensures { Shifts order.now numbers.old numbers.new by }
{
    for v in 0..numbers.len() {
        if order[v] != 0 {
            numbers[v] += by;
        }
    }
}

// Lowers the numbers of the nodes that are not reached.
pub fn lower(numbers: &mut [u64], order: &[usize], by: u64)
    requires orders { length order.now ≡ length numbers.old }
    requires room { (v : ℕ) → v < length numbers.old → slice_index order.now v ≡ 0
        → by ≤ slice_index numbers.old v }
    ensures { Sinks order.now numbers.old numbers.new by }
{
    for v in 0..numbers.len() {
        if order[v] == 0 {
            numbers[v] -= by;
        }
    }
}

// Takes the number of node 0 from each.
pub fn rebase(numbers: &mut [u64])
    requires some { 0 < length numbers.old }
    requires least { (v : ℕ) → v < length numbers.old
        → slice_index numbers.old 0 ≤ slice_index numbers.old v }
    ensures { (v : ℕ) → slice_index numbers.new v
        ≡ slice_index numbers.old v - slice_index numbers.old 0 }
{
    let base = numbers[0];
    for v in 0..numbers.len() {
        numbers[v] -= base;
    }
}
