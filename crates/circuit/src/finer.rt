// Chains over more ages than are read: whether ages that are proposed make one, and the taps that are read of it.

ghost use Rattle.std.specs.Prelude.{◌≡◌, ◌<◌, length, Contains, slice_index_or, slice_get, Some, None, [], IfOk, MatchOption};
ghost use Rattle.std.specs.List.{list_all};
ghost use Rattle.std.specs.List.Sorted.{IsStrictlyIncreasing};
ghost use Rattle.line_buffer.specs.Places.{depth_of};
ghost use Rattle.circuit.specs.Taps.{Keeps};
ghost use Rattle.buffer_plan.specs.Plans.{ages_of};
ghost use Rattle.circuit.specs.Splits.{lists_of, ascends, has_age, is_finer, split_ages, IsFiner, IsTapAmong, AreTapsAmong};

use buffer_plan::Plan;
use dk_base::OutOfMemory;
use std::alloc::Global;
use wiring::Net;

// Whether each age is above the one before it, and the first above 0.
fn ascends(ages: &[u64]) -> bool
    ensures { result ≡ ascends 0 ages.now }
{
    let mut low = 0;
    for age in ages {
        if *age <= low {
            return false;
        }
        low = *age;
    }
    true
}

// The place of an age among ages that ascend.
fn place_among(split: &[u64], age: u64) -> Option<usize>
    requires { IsStrictlyIncreasing split.now }
    ensures { MatchOption result (Contains split.now age → ⊥)
        (λ k. slice_get split.now k ≡ Some age) }
{
    match split.binary_search(&age) {
        Ok(place) => Some(place),
        Err(_) => None,
    }
}

// Whether an age is 0 or among ages that ascend.
fn has_age(split: &[u64], age: u64) -> bool
    requires { IsStrictlyIncreasing split.now }
    ensures { result ≡ has_age split.now age }
{
    if age == 0 {
        return true;
    }
    match place_among(split, age) {
        None => false,
        Some(_) => true,
    }
}

// Whether each of the ages is 0 or among those that ascend.
fn has_each(split: &[u64], ages: &[u64]) -> bool
    requires { IsStrictlyIncreasing split.now }
    ensures { result ≡ list_all (has_age split.now) ages.now }
{
    for age in ages {
        if !has_age(split, *age) {
            return false;
        }
    }
    true
}

// The greatest of ages that ascend, 0 without any.
fn greatest(ages: &[u64]) -> u64
    ensures { result ≡ depth_of ages.now }
{
    if ages.is_empty() {
        return 0;
    }
    ages[ages.len() - 1]
}

// Whether the ages `split` make a finer chain than `ages`.
fn is_finer(ages: &[u64], split: &[u64]) -> bool
    ensures { result ≡ is_finer ages.now split.now }
{
    if !ascends(split) {
        return false;
    }
    if !has_each(split, ages) {
        return false;
    }
    greatest(split) == greatest(ages)
}

// The ages at a place of what is proposed, none past its end.
fn proposed_at(proposed: &[Vec<u64>], place: usize) -> &[u64]
    ensures { result.now ≡ slice_index_or (lists_of proposed.now) place [] }
{
    if place < proposed.len() {
        return proposed[place].as_slice();
    }
    &[]
}

/// The ages of the chain of a kept image: those that are proposed, if they make a finer chain, and else those that are read.
pub fn split_of<'a>(plan: &'a Plan, proposed: &'a [Vec<u64>], image: u32) -> &'a [u64]
    requires { Keeps plan.now image }
    ensures ages { result.now ≡ split_ages (lists_of proposed.now) plan.now image }
    ensures finer { IsFiner (ages_of plan.now image) result.now }
{
    let ages = plan.ages(image);
    let split = proposed_at(proposed, plan.place(image));
    if is_finer(ages, split) {
        return split;
    }
    ages
}

// The tap of an age, among the nets of a finer chain.
fn tap_among(split: &[u64], nets: &[Net], age: u64, value: Net) -> Net
    requires ascending { IsStrictlyIncreasing split.now }
    requires there { 0 < age → Contains split.now age }
    requires one_each { length nets.now ≡ length split.now }
    ensures { IsTapAmong split.now nets.now value age result }
{
    if age == 0 {
        return value;
    }
    match place_among(split, age) {
        None => value,
        Some(place) => nets[place],
    }
}

// The taps of the ages that are read, among the nets of a finer chain.
pub fn taps_among(
    alloc: Global,
    ages: &[u64],
    split: &[u64],
    nets: &[Net],
    value: Net,
) -> Result<Vec<Net>, OutOfMemory>
    requires finer { IsFiner ages.now split.now }
    requires one_each { length nets.now ≡ length split.now }
    ensures { IfOk result (λ taps. AreTapsAmong ages.now split.now nets.now value taps.items) }
{
    let mut taps = Vec::new(alloc);
    for age in ages {
        taps.push(tap_among(split, nets, *age, value))?;
    }
    Ok(taps)
}
