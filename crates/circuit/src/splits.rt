// How the chains of a plan are divided further, for block memories.

ghost use Rattle.std.specs.Prelude.{◌≡◌, ◌++◌, ◌-◌, ◌+◌, ◌<◌, ◌≤◌, ℕ, List, ◌∷◌, Contains, filter, flat_map, nat_lt, replicate, IfOk, MatchOption, OnOk};
ghost use Rattle.std.specs.List.Sorted.{IsNonDecreasing, IsStrictlyIncreasing};
ghost use Rattle.circuit.specs.Splits.{lists_of};
ghost use Rattle.circuit.specs.Divided.{segments, all_segments, IsShortest, AreArraysOf, ages_after, AreDivided, AreSplits, AreChainsDivided, AreLong, IsLeastFrom, AddsArrays};

use buffer_plan::Plan;
use dk_base::OutOfMemory;
use std::alloc::Global;

/// Up to this number of words a segment that is not long becomes registers in a row, and if the long segments of a plan differ by at most as many words, their arrays have one length.
pub const MAX_REGISTERS: u64 = 8;

// Adds the words of each segment that has more than `least`.
fn add_long(lengths: &mut Vec<u64>, ages: &[u64], least: u32) -> Result<(), OutOfMemory>
    ensures { OnOk result (lengths.new.items ≡ lengths.old.items
        ++ filter (nat_lt least) (segments 0 ages.now)) }
{
    let mut low = 0;
    for age in ages {
        let words = age.saturating_sub(low);
        if words > u64::from(least) {
            lengths.push(words)?;
        }
        low = *age;
    }
    Ok(())
}

// The words of the long segments of all images, ascending.
fn long_lengths(alloc: Global, plan: &Plan, least: u32) -> Result<Vec<u64>, OutOfMemory>
    ensures { IfOk result (λ lengths. AreLong least (all_segments plan.now) lengths.items) }
{
    let images = plan.images();
    let mut lengths = Vec::new(alloc);
    for image in images {
        add_long(&mut lengths, plan.ages(image.number), least)?;
    }
    lengths.sort_unstable();
    Ok(lengths)
}

// The least of ascending numbers that is not below the bound.
fn least_from(numbers: &[u64], bound: u64) -> Option<u64>
    requires { IsNonDecreasing numbers.now }
    ensures { MatchOption result ((n : ℕ) → Contains numbers.now n → n < bound)
        (IsLeastFrom numbers.now bound) }
{
    match numbers.binary_search(&bound) {
        Ok(_) => Some(bound),
        Err(place) => {
            if place < numbers.len() {
                return Some(numbers[place]);
            }
            None
        }
    }
}

// The words of the block memory of a long segment: one fewer than the shortest long segment that is near.
fn array_words(lengths: &[u64], words: u64) -> u64
    requires { IsNonDecreasing lengths.now }
    ensures { (least : ℕ) (all : List ℕ) → AreLong least all lengths.now → Contains all words
        → least < words → IsShortest least all words (result + 1) }
{
    match least_from(lengths, words.saturating_sub(MAX_REGISTERS)) {
        None => words,
        Some(shortest) => shortest.saturating_sub(1),
    }
}

// The words of the first array of a segment. All others have one word.
fn first_words(lengths: &[u64], words: u64, least: u32) -> u64
    requires ascending { IsNonDecreasing lengths.now }
    requires some { 0 < words }
    ensures { (all : List ℕ) → AreLong least all lengths.now → Contains all words
        → AreArraysOf least all words (result ∷ replicate (words - result) 1) }
{
    if words > u64::from(least) {
        return array_words(lengths, words);
    }
    if words <= MAX_REGISTERS {
        return 1;
    }
    words
}

// Adds the ages of a segment whose first array has this number of words, and each further one a single word.
fn add_segment(split: &mut Vec<u64>, low: u64, high: u64, first: u64) -> Result<(), OutOfMemory>
    requires { low + first ≤ high }
    ensures { OnOk result (split.new.items ≡ split.old.items
        ++ ages_after low (first ∷ replicate (high - low - first) 1)) }
{
    let end = low + first;
    split.push(end)?;
    for age in end..high {
        split.push(age + 1)?;
    }
    Ok(())
}

// Adds the ages of the arrays that a segment becomes.
fn add_arrays(
    split: &mut Vec<u64>,
    low: u64,
    high: u64,
    lengths: &[u64],
    least: u32,
) -> Result<(), OutOfMemory>
    requires up { low ≤ high }
    requires long { (all : List ℕ) × AreLong least all lengths.now × Contains all (high - low) }
    ensures { OnOk result ((all : List ℕ) → AreLong least all lengths.now → Contains all (high - low)
        → AddsArrays least all low high split.old.items split.new.items) }
{
    if low == high {
        return Ok(());
    }
    let first = first_words(lengths, high - low, least);
    add_segment(split, low, high, first)?;
    Ok(())
}

// The ages of an image's chain, divided further.
fn divided(
    alloc: Global,
    ages: &[u64],
    lengths: &[u64],
    least: u32,
) -> Result<Vec<u64>, OutOfMemory>
    requires ascending { IsStrictlyIncreasing ages.now }
    requires long { (all : List ℕ) × AreLong least all lengths.now
        × ((words : ℕ) → Contains (segments 0 ages.now) words → Contains all words) }
    ensures { IfOk result (λ split. (all : List ℕ) → AreLong least all lengths.now
        → ((words : ℕ) → Contains (segments 0 ages.now) words → Contains all words)
        → AreDivided least all 0 ages.now split.items) }
{
    let mut split = Vec::new(alloc);
    let mut low = 0;
    for age in ages {
        add_arrays(&mut split, low, *age, lengths, least)?;
        low = *age;
    }
    Ok(split)
}

/// Ages for a chain of each kept image in order, which `BlockChain` takes: those of the plan, each segment divided into its arrays (`AreArraysOf`).
///
/// A segment of more than `least` words is long. Its array is one word shorter than the shortest long segment of the plan that is at most `MAX_REGISTERS` words shorter than it, and what is left are single words: at least one, which is a register after the block memory. Another segment of at most `MAX_REGISTERS` words becomes single words, and any other stays one array.
pub fn finer_ages(alloc: Global, plan: &Plan, least: u32) -> Result<Vec<Vec<u64>>, OutOfMemory>
    ensures splits { IfOk result (λ splits. AreSplits least plan.now (lists_of splits.items)) }
    ensures taken { IfOk result (λ splits. 0 < least
        → AreChainsDivided least plan.now (lists_of splits.items)) }
{
    plan.law();
    let lengths = long_lengths(alloc, plan, least)?;
    let images = plan.images();
    let mut splits = Vec::new(alloc);
    for image in images {
        let split = divided(alloc, plan.ages(image.number), &lengths, least)?;
        splits.push(split)?;
    }
    Ok(splits)
}
