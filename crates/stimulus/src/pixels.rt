// What the dins are given.

ghost use Rattle.std.specs.Prelude.{◌≡◌, ℕ, ◌-◌, ◌^◌, ◌<◌, ◌≤◌, List, length, replicate, slice_index, IfOk, ◌/◌, ◌%◌};
ghost use Rattle.std.specs.List.{All};
ghost use Rattle.dk_base.specs.declared.TheConstants.{MAX_PORT_WIDTH};
ghost use Rattle.dk_base.specs.Frames.{Size, area as area_of};
ghost use Rattle.wiring.specs.Sizes.{IsWidth};
ghost use Rattle.wiring.specs.Rules.{IsPortWidth};
ghost use Rattle.wiring.specs.Snapshot.{Fit};
ghost use Rattle.stimulus.specs.Stimulus.{stream, dins_at, greatest_dins};
ghost use Rattle.stimulus.specs.Given.{rounds_of, AreBenchFrames};

use dk_base::OutOfMemory;
use dk_frames::Samples;
use netlist::Width;
use pgm_rounds::Round;
use std::alloc::Global;

// The sample at a place of a frame.
fn sample(samples: &Samples, place: usize) -> u64
    requires { place < length samples.now }
    ensures { result ≡ slice_index samples.now place }
{
    u64::from(samples.sample(place))
}

// The round of a pixel. Most are in the first one, where nothing has to be divided.
fn round_at(place: usize, area: usize) -> usize
    requires { 0 < area }
    ensures { result ≡ place / area }
{
    if place < area { 0 } else { place / area }
}

// The place of a pixel in its frame.
fn place_at(place: usize, area: usize) -> usize
    requires { 0 < area }
    ensures { result ≡ place % area }
{
    if place < area { place } else { place % area }
}

/// A pixel of an input, counted over all rounds, or 0 after the last one. A frame has `area` pixels.
pub fn pixel(rounds: &[Round], area: usize, input: usize, number: u64) -> u64
    requires area { 0 < area }
    requires frames { (widths : List ℕ) × (size : Size) × AreBenchFrames widths size rounds.now × (input < length widths) × (area ≡ area_of size) }
    ensures { result ≡ slice_index (stream (rounds_of rounds.now) input) number }
{
    let place = number as usize;
    let round = round_at(place, area);
    if rounds.len() <= round {
        return 0;
    }
    let frame = &rounds[round].frames[input];
    sample(&frame.samples, place_at(place, area))
}

/// Gives each din its pixel of this number, counted over all rounds; 0 after the last one. A frame has `area` pixels.
pub fn fill_dins(rounds: &[Round], area: usize, number: u64, dins: &mut Vec<u64>)
    requires area { 0 < area }
    requires frames { (widths : List ℕ) × (size : Size) × AreBenchFrames widths size rounds.now × (length dins.old.items ≡ length widths)
        × (area ≡ area_of size) }
    ensures is { dins.new.items ≡ dins_at (length dins.old.items) (rounds_of rounds.now) number }
    ensures count { length dins.new.items ≡ length dins.old.items }
{
    for input in 0..dins.len() {
        dins[input] = pixel(rounds, area, input, number);
    }
}

// The greatest number of this many bits.
fn greatest(width: Width) -> u64
    requires { width ≤ MAX_PORT_WIDTH }
    ensures { result ≡ 2 ^ width - 1 }
{
    (1 << width.bits()) - 1
}

/// The greatest number of each din.
pub fn greatest_of(alloc: Global, widths: &[Width]) -> Result<Vec<u64>, OutOfMemory>
    requires { All IsPortWidth widths.now }
    ensures { IfOk result (λ dins. dins.items ≡ greatest_dins widths.now) }
{
    let mut dins = Vec::with_capacity(alloc, widths.len())?;
    for width in widths {
        dins.push(greatest(*width))?;
    }
    Ok(dins)
}

/// This many zeros.
pub fn zeros(alloc: Global, count: usize) -> Result<Vec<u64>, OutOfMemory>
    ensures { IfOk result (λ dins. dins.items ≡ replicate count 0) }
{
    let dins = vec![in alloc; 0; count]?;
    Ok(dins)
}
