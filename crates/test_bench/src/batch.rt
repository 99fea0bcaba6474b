// Batches of clocks.

ghost use Rattle.std.specs.Prelude.{◌≡◌, ℕ, ◌+◌, ◌*◌, ◌^◌, ◌<◌, ◌≤◌, ◌++◌, ◌∷◌, [], List, false, length, take, IfOk, vec_capacity, if◌then◌else◌};
ghost use Rattle.dk_base.specs.Frames.{Size, area as area_of};
ghost use Rattle.wiring.specs.Netlist.{Netlist};
ghost use Rattle.cycle_sim.specs.Ports.{din_widths};
ghost use Rattle.batch_sim.specs.Called.{clocks_for};
ghost use Rattle.test_bench.specs.declared.batch.TheConstants.{BATCH_PIXELS};
ghost use Rattle.stimulus.specs.Stimulus.{dins_at, pixel_clock, is_held_after, clocks_at};
ghost use Rattle.stimulus.specs.Given.{rounds_of, AreBenchFrames};
ghost use Rattle.test_bench.specs.Clocking.{IsFed, IsFedTo, pixel_clocks};
ghost use Rattle.test_bench.specs.Batches.{clocks_in, Appends, HasBatch, HasPlacesFor, IsGiven, KeepsRoom};
ghost use Rattle.test_bench.specs.BatchClocks.{clocks_of, CanStepFront, HasClocks, KeepsClocks, StepsBatch};

use crate::clocking::Feed;
use batch_sim::{Batches, Stop};
use cycle_sim::Out;
use dk_base::OutOfMemory;
use pgm_rounds::Round;
use std::alloc::Global;
use stimulus::{clocks_left, is_last, next_left, pixel};

/// How many pixels of an input are clocked in one call at most. It is six times the clocks that batch_sim makes over whole rows, so
/// that without held clocks no row is made for a few clocks alone.
pub const BATCH_PIXELS: u64 = 2106;

// The clocks of a batch: the port `en` and the dins of each, and room for what the outputs show in them.
#[derive(Drop)]
pub(crate) struct Batch {
    pub(crate) enables: Vec<bool>,
    pub(crate) dins: Vec<u64>,
    pub(crate) outs: Vec<Out>,
}

impl Batch {
    // Room for the clocks of a batch, held ones too, each with this many dins and outputs.
    pub(crate) fn new(alloc: Global, dins: usize, outputs: usize) -> Result<Batch, OutOfMemory>
        requires dins { dins < 2 ^ 32 }
        requires outputs { outputs < 2 ^ 32 }
        ensures { IfOk result (HasBatch dins outputs) }
    {
        let clocks = 2 * BATCH_PIXELS as usize;
        let out = Out {
            valid: false,
            dout: 0,
        };
        let enables = Vec::with_capacity(alloc, clocks)?;
        let numbers = Vec::with_capacity(alloc, clocks * dins)?;
        let outs = vec![in alloc; out; clocks * outputs]?;
        Ok(Batch {
            enables,
            dins: numbers,
            outs,
        })
    }

    // The clocks of the batch in one call, of a module with this many outputs. What they show is in the first places.
    pub(crate) fn step(&mut self, sim: &mut Batches, ports: usize) -> Result<(), Stop>
        requires clocks { HasClocks sim.old.netlist self.old }
        requires ports { length sim.old.netlist.outputs ≡ 2 * ports }
        requires room { length self.old.outs.items ≡ 2 * BATCH_PIXELS * ports }
        ensures steps { StepsBatch sim.old sim.new (clocks_of sim.old.netlist self.old)
            (take (length self.old.enables.items * ports) self.new.outs.items) result }
        ensures keeps { KeepsClocks self.old self.new }
    {
        let places = self.enables.len() * ports;
        step_front(sim, &self.enables, &self.dins, &mut self.outs, places)
    }

    // What the outputs show in the first `count` clocks, of a module with this many outputs.
    pub(crate) fn shown(&self, count: usize, ports: usize) -> &[Out]
        requires { count * ports ≤ length self.now.outs.items }
        ensures { result.now ≡ take (count * ports) self.now.outs.items }
    {
        self.outs.split_at(count * ports).0
    }
}

// Clocks in one call, in which the outputs show what is in the first `places` places.
fn step_within(
    sim: &mut Batches,
    enables: &[bool],
    dins: &[u64],
    outs: &mut [Out],
    places: usize,
) -> Result<(), Stop>
    requires { CanStepFront sim.old.netlist enables.now dins.now outs.old places }
    ensures steps { StepsBatch sim.old sim.new (clocks_for sim.old enables.now dins.now)
        (take places outs.new) result }
    ensures outs { length outs.new ≡ length outs.old }
{
    sim.step_batch(enables, dins, &mut outs[..places])
}

// The same for a vector of outputs.
fn step_front(
    sim: &mut Batches,
    enables: &[bool],
    dins: &[u64],
    outs: &mut Vec<Out>,
    places: usize,
) -> Result<(), Stop>
    requires { CanStepFront sim.old.netlist enables.now dins.now outs.old.items places }
    ensures steps { StepsBatch sim.old sim.new (clocks_for sim.old enables.now dins.now)
        (take places outs.new.items) result }
    ensures outs { length outs.new.items ≡ length outs.old.items }
{
    step_within(sim, enables, dins, outs, places)
}

// Adds the pixel of this number of each input.
fn push_pixels(rounds: &[Round], area: usize, number: u64, inputs: usize, dins: &mut Vec<u64>)
    requires area { 0 < area }
    requires frames { (widths : List ℕ) × (size : Size) × AreBenchFrames widths size rounds.now
        × (inputs ≡ length widths) × (area ≡ area_of size) }
    requires room { length dins.old.items + inputs ≤ vec_capacity dins.old }
    ensures { Appends dins.old dins.new (dins_at inputs (rounds_of rounds.now) number) }
{
    for input in 0..inputs {
        dins.push_reserved(pixel(rounds, area, input, number));
    }
}

// Adds these numbers.
fn push_all(numbers: &[u64], dins: &mut Vec<u64>)
    requires room { length dins.old.items + length numbers.now ≤ vec_capacity dins.old }
    ensures { Appends dins.old dins.new numbers.now }
{
    for number in numbers {
        dins.push_reserved(*number);
    }
}

// Adds the clock of this number, in which each din has its pixel of that number.
fn push_pixel_clock(batch: &mut Batch, feed: &Feed, rounds: &[Round], number: u64)
    requires fed { (m : Netlist) × IsFedTo m feed.now rounds.now }
    requires places { HasPlacesFor 1 (length feed.now.held.items) batch.old }
    ensures clocks { clocks_in (length feed.now.held.items) batch.new
        ≡ clocks_in (length feed.now.held.items) batch.old
        ++ pixel_clock (length feed.now.held.items) (rounds_of rounds.now) number ∷ [] }
    ensures count { length batch.new.enables.items ≡ length batch.old.enables.items + 1 }
    ensures given { IsGiven (length feed.now.held.items) (length batch.old.enables.items + 1)
        batch.old batch.new }
{
    batch.enables.push_reserved(true);
    push_pixels(rounds, feed.area, number, feed.held.len(), &mut batch.dins);
}

// Adds a held clock, where one comes now.
fn push_held_clock(batch: &mut Batch, comes: bool, held: &[u64])
    requires places { HasPlacesFor 1 (length held.now) batch.old }
    ensures clocks { clocks_in (length held.now) batch.new ≡ clocks_in (length held.now) batch.old
        ++ (if comes then record { reset = false; enable = false; dins = held.now } ∷ [] else []) }
    ensures given { IsGiven (length held.now) (length batch.old.enables.items + 1) batch.old
        batch.new }
{
    if comes {
        batch.enables.push_reserved(false);
        push_all(held, &mut batch.dins);
    }
}

// Adds the clock of this number and the held one after it, if one follows.
fn push_clocks(batch: &mut Batch, feed: &Feed, rounds: &[Round], number: u64, follows: bool)
    requires fed { (m : Netlist) × IsFedTo m feed.now rounds.now }
    requires follows { follows ≡ is_held_after feed.now.hold number }
    requires places { HasPlacesFor 2 (length feed.now.held.items) batch.old }
    ensures clocks { (m : Netlist) (size : Size) → IsFed m size feed.now rounds.now
        → clocks_in (length feed.now.held.items) batch.new
        ≡ clocks_in (length feed.now.held.items) batch.old
        ++ clocks_at feed.now.hold (din_widths m) (rounds_of rounds.now) number }
    ensures given { IsGiven (length feed.now.held.items) (length batch.old.enables.items + 2)
        batch.old batch.new }
{
    push_pixel_clock(batch, feed, rounds, number);
    push_held_clock(batch, follows, &feed.held);
}

// Leaves no clock.
fn clear(batch: &mut Batch)
    ensures enables { batch.new.enables.items ≡ [] }
    ensures dins { batch.new.dins.items ≡ [] }
    ensures room { KeepsRoom batch.old batch.new }
{
    batch.enables.clear();
    batch.dins.clear();
}

// Makes a batch of this many clocks, counted from this one, with the held ones between them.
pub(crate) fn fill_batch(batch: &mut Batch, feed: &Feed, rounds: &[Round], start: u64, count: u64)
    requires fed { (m : Netlist) × IsFedTo m feed.now rounds.now }
    requires start { start < 2 ^ 60 }
    requires count { count ≤ BATCH_PIXELS }
    requires enables { 2 * BATCH_PIXELS ≤ vec_capacity batch.old.enables }
    requires dins { 2 * BATCH_PIXELS * length feed.now.held.items ≤ vec_capacity batch.old.dins }
    ensures clocks { (m : Netlist) (size : Size) → IsFed m size feed.now rounds.now
        → clocks_in (length feed.now.held.items) batch.new
        ≡ pixel_clocks m feed.now rounds.now start count }
    ensures given { IsGiven (length feed.now.held.items) (2 * count) batch.old batch.new }
{
    clear(batch);
    let mut left = clocks_left(feed.hold, start);
    for number in 0..count {
        let follows = is_last(feed.hold, left);
        push_clocks(batch, feed, rounds, start + number, follows);
        left = next_left(feed.hold, left);
    }
}
