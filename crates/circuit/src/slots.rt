// Which word of which array holds a pixel.

ghost use Rattle.std.specs.Prelude.{◌≡◌, ◌+◌, ◌-◌, ◌%◌, ◌<◌, ◌^◌, length};
ghost use Rattle.line_buffer.specs.Places.{Ascend, later, segment_place};
ghost use Rattle.circuit.specs.Taps.{Keeps};
ghost use Rattle.buffer_plan.specs.Plans.{depth_of};
ghost use Rattle.circuit.specs.Splits.{lists_of};
ghost use Rattle.circuit.specs.Forms.{IsFirstArray, IsSlotOf, chain_shapes_of, chain_places, block_shapes_of, block_places, ring_shapes_of, ring_places};

use crate::finer::split_of;
use buffer_plan::Plan;

/// A word of an array of the module, both by their numbers.
#[derive(Clone, Copy, Debug, PartialEq, Eq)]
pub struct Slot {
    pub array: usize,
    pub word: u64,
}

// The ages above 0, of ages that ascend.
fn later_ages(ages: &[u64]) -> &[u64]
    ensures { result.now ≡ later ages.now }
{
    match ages.split_first() {
        None => ages,
        Some((first, rest)) => {
            if *first == 0 {
                return rest;
            }
            ages
        }
    }
}

// How many arrays a chain of a kept image has.
fn chain_arrays(plan: &Plan, image: u32) -> usize
    requires { Keeps plan.now image }
    ensures { result ≡ length (chain_shapes_of plan.now image) }
{
    later_ages(plan.ages(image)).len()
}

// The same of its chain over proposed ages.
fn block_arrays(plan: &Plan, proposed: &[Vec<u64>], image: u32) -> usize
    requires { Keeps plan.now image }
    ensures { result ≡ length (block_shapes_of (lists_of proposed.now) plan.now image) }
{
    later_ages(split_of(plan, proposed, image)).len()
}

// How many arrays a ring of a kept image has.
fn ring_arrays(plan: &Plan, image: u32) -> usize
    requires { Keeps plan.now image }
    ensures { result ≡ length (ring_shapes_of plan.now image) }
{
    if plan.depth(image) == 0 {
        return 0;
    }
    1
}

// The number of the first array of an image's chain: as many arrays as the kept images before it have.
fn first_of_chain(plan: &Plan, image: u32) -> usize
    requires { Keeps plan.now image }
    ensures { IsFirstArray chain_shapes_of plan.now image result }
{
    plan.law();
    let mut first = 0;
    for k in 0..plan.place(image) {
        first += chain_arrays(plan, plan.images()[k].number);
    }
    first
}

// The same of its chain over proposed ages.
fn first_of_block(plan: &Plan, proposed: &[Vec<u64>], image: u32) -> usize
    requires { Keeps plan.now image }
    ensures { IsFirstArray (block_shapes_of (lists_of proposed.now)) plan.now image result }
{
    plan.law();
    let mut first = 0;
    for k in 0..plan.place(image) {
        first += block_arrays(plan, proposed, plan.images()[k].number);
    }
    first
}

// The same of its ring.
fn first_of_ring(plan: &Plan, image: u32) -> usize
    requires { Keeps plan.now image }
    ensures { IsFirstArray ring_shapes_of plan.now image result }
{
    plan.law();
    let mut first = 0;
    for k in 0..plan.place(image) {
        first += ring_arrays(plan, plan.images()[k].number);
    }
    first
}

// The word of an age in segments to these ages, from the array `first` and from above the age `low` on.
fn segment_slot(first: usize, low: u64, ages: &[u64], age: u64, clock: u64) -> Slot
    requires ascend { Ascend low ages.now }
    requires room { first + length ages.now < 2 ^ 64 }
    ensures { IsSlotOf (segment_place first low ages.now age clock) result }
{
    match ages.split_first() {
        None => Slot {
            array: first,
            word: 0,
        },
        Some((high, rest)) => {
            if age <= *high {
                let behind = clock.saturating_sub(age.saturating_sub(low));
                return Slot {
                    array: first,
                    word: behind % (*high - low),
                };
            }
            segment_slot(first + 1, *high, rest, age, clock)
        }
    }
}

// The word of an age of an image in its chain.
pub fn chain_slot(plan: &Plan, image: u32, age: u64, clock: u64) -> Slot
    requires { Keeps plan.now image }
    ensures { IsSlotOf (chain_places plan.now image age clock) result }
{
    plan.law();
    let first = first_of_chain(plan, image);
    segment_slot(first, 0, later_ages(plan.ages(image)), age, clock)
}

// The word of an age of an image in its chain over proposed ages.
pub fn block_slot(plan: &Plan, proposed: &[Vec<u64>], image: u32, age: u64, clock: u64) -> Slot
    requires { Keeps plan.now image }
    ensures { IsSlotOf (block_places (lists_of proposed.now) plan.now image age clock) result }
{
    plan.law();
    let first = first_of_block(plan, proposed, image);
    segment_slot(
        first,
        0,
        later_ages(split_of(plan, proposed, image)),
        age,
        clock,
    )
}

// The word of an age of an image in its ring.
pub fn ring_slot(plan: &Plan, image: u32, age: u64, clock: u64) -> Slot
    requires kept { Keeps plan.now image }
    requires some { 0 < depth_of plan.now image }
    ensures { IsSlotOf (ring_places plan.now image age clock) result }
{
    let array = first_of_ring(plan, image);
    let word = clock.saturating_sub(age) % plan.depth(image);
    Slot { array, word }
}
