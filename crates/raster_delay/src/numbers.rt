// The causal delays that are least in every place, and numbers of all nodes that keep each constraint.

ghost use Rattle.std.specs.Prelude.{◌≡◌, ◌≤◌, ◌<◌, ◌^◌, ℕ, length, slice_index, IfOk};
ghost use Rattle.raster_delay.specs.Delays.{AreBounded, AreRaised, IsNeeded, IsSmall};
ghost use Rattle.raster_delay.specs.Systems.{AreBegins, AreEarliestDelays, AreEarliestNumbers, AreEnds, nodes};

use crate::build::{begin_node, end_node};
use crate::network::Constraint;
use crate::system::System;
use dk_base::OutOfMemory;
use std::alloc::Global;

// The least number that a constraint lets its target have.
fn needed(constraint: Constraint, numbers: &[u64]) -> u64
    requires source { constraint.source < length numbers.now }
    requires cost { IsSmall constraint }
    requires number { slice_index numbers.now constraint.source < 2 ^ 60 }
    ensures { IsNeeded numbers.now constraint result }
{
    let source = numbers[constraint.source] as i64;
    let least = source + constraint.cost;
    if least > 0 { least as u64 } else { 0 }
}

// Raises numbers of nodes by each constraint in turn, as far as the constraints need.
fn relax(constraints: &[Constraint], numbers: &mut [u64])
    requires bounds { AreBounded (length numbers.old) constraints.now }
    requires numbers { (v : ℕ) → slice_index numbers.old v ≤ 2 ^ 41 }
    ensures { AreRaised constraints.now numbers.old numbers.new }
{
    for i in 0..constraints.len() {
        let c = constraints[i];
        let least = needed(c, numbers);
        numbers[c.target] = numbers[c.target].max(least);
    }
}

// Raises numbers of 0 until they keep each constraint.
fn raise_numbers(system: &System, numbers: &mut [u64])
    requires size { length numbers.old ≡ nodes system.now }
    requires zero { (v : ℕ) → slice_index numbers.old v ≡ 0 }
    ensures { AreEarliestNumbers system.now numbers.new }
{
    system.law();
    relax(system.read_constraints(), numbers);
    relax(system.hold_constraints(), numbers);
    relax(system.keep_constraints(), numbers);
}

/// The numbers of the nodes that are the least in every place of those that keep each constraint: the earliest delays, and these with their depths.
pub fn earliest_numbers(alloc: Global, system: &System) -> Result<Vec<u64>, OutOfMemory>
    ensures { IfOk result (λ numbers. AreEarliestNumbers system.now numbers.items) }
{
    let mut numbers = vec![in alloc; 0u64; system.nodes()]?;
    raise_numbers(system, &mut numbers);
    Ok(numbers)
}

/// The numbers of the nodes at which the kept images begin, one for each image in order.
pub fn begin_numbers(
    alloc: Global,
    system: &System,
    numbers: &[u64],
) -> Result<Vec<u64>, OutOfMemory>
    requires { length numbers.now ≡ nodes system.now }
    ensures { IfOk result (λ delays. AreBegins system.now numbers.now delays.items) }
{
    system.law();
    let inputs = system.inputs();
    let mut delays = Vec::new(alloc);
    for k in 0..system.images().len() {
        delays.push(numbers[begin_node(inputs, k)])?;
    }
    Ok(delays)
}

/// The numbers of the nodes at which the kept images end, one for each image in order.
pub fn end_numbers(alloc: Global, system: &System, numbers: &[u64]) -> Result<Vec<u64>, OutOfMemory>
    requires { length numbers.now ≡ nodes system.now }
    ensures { IfOk result (λ ends. AreEnds system.now numbers.now ends.items) }
{
    system.law();
    let inputs = system.inputs();
    let images = system.images().len();
    let mut ends = Vec::new(alloc);
    for k in 0..images {
        ends.push(numbers[end_node(inputs, images, k)])?;
    }
    Ok(ends)
}

/// The causal delays that are least in every place among all causal delays, one for each kept image in order, in clocks.
pub fn earliest(alloc: Global, system: &System) -> Result<Vec<u64>, OutOfMemory>
    ensures { IfOk result (λ delays. AreEarliestDelays system.now delays.items) }
{
    system.law();
    let numbers = earliest_numbers(alloc, system)?;
    let delays = begin_numbers(alloc, system, &numbers)?;
    Ok(delays)
}
