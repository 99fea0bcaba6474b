//! The clocks of a line, and what the output shows in each of them.

ghost use Rattle.std.specs.Prelude.{◌≡◌, ℕ, ◌+◌, ◌*◌, ◌≤◌, [], ◌∷◌, true, length, IfOk, IfErr, map, take};
ghost use Rattle.std.specs.List.{range_with_len};
ghost use Rattle.wiring.specs.Snapshot.{Snapshot, Fit};
ghost use Rattle.cycle_sim.specs.Ports.{din_widths, IsShown};
ghost use Rattle.cycle_sim.specs.Simulated.{GoesOn, StopsIn, clock as clock_of};
ghost use Rattle.pgm_codec.specs.Images.{sample_size};
ghost use Rattle.pgm_codec.specs.Rasters.{sample_at};
ghost use Rattle.row_stream.specs.Batches.{CanStep, CanStepAll, HasBatch, StepsAll};

use batch_sim::Batches;
use cycle_sim::{IndexRange, Out};
use dk_base::OutOfMemory;
use std::alloc::Global;

// The clocks of a line: the port `en` and the din of each, and what the output shows in it.
#[derive(Drop)]
pub(crate) struct Batch {
    pub(crate) enables: Vec<bool>,
    pub(crate) dins: Vec<u64>,
    pub(crate) outs: Vec<Out>,
}

impl Batch {
    // Room for `count` clocks.
    pub(crate) fn new(alloc: Global, count: usize) -> Result<Batch, OutOfMemory>
        ensures { IfOk result (HasBatch count) }
    {
        let out = Out {
            valid: false,
            dout: 0,
        };
        let enables = vec![in alloc; true; count]?;
        let dins = vec![in alloc; 0; count]?;
        let outs = vec![in alloc; out; count]?;
        Ok(Batch {
            enables,
            dins,
            outs,
        })
    }

    // The first `count` clocks, in one call.
    pub(crate) fn step(&mut self, sim: &mut Batches, count: usize)
        requires room { (width : ℕ) × HasBatch width self.old × (count ≤ width) }
        requires can { CanStep sim.old.netlist self.old.dins.items sim.old.contents }
        ensures steps { StepsAll sim.old.netlist sim.new.netlist (take count self.old.dins.items)
            sim.old.contents sim.new.contents (take count self.new.outs.items) }
        ensures batch { (width : ℕ) → HasBatch width self.old → HasBatch width self.new }
        ensures dins { self.new.dins.items ≡ self.old.dins.items }
    {
        let enables = self.enables.split_at(count).0;
        let dins = self.dins.split_at(count).0;
        step_front(sim, enables, dins, &mut self.outs);
    }

    // What the output shows in the first `count` clocks.
    pub(crate) fn shown(&self, count: usize) -> &[Out]
        requires { count ≤ length self.now.outs.items }
        ensures { result.now ≡ take count self.now.outs.items }
    {
        self.outs.split_at(count).0
    }
}

// A clock for each of these numbers at the din, in one call.
fn step_exact(sim: &mut Batches, enables: &[bool], dins: &[u64], outs: &mut [Out])
    requires clocks { CanStepAll sim.old.netlist enables.now dins.now sim.old.contents }
    requires outs { length outs.old ≡ length dins.now }
    ensures steps { StepsAll sim.old.netlist sim.new.netlist dins.now sim.old.contents
        sim.new.contents outs.new }
    ensures outs { length outs.new ≡ length outs.old }
{
    sim.law();
    netlist::values_fit_law();
    match sim.step_batch(enables, dins, outs) {
        Err(_) => unreachable!(),
        Ok(()) => {}
    }
}

// `step_exact` with room for more outputs.
fn step_within(sim: &mut Batches, enables: &[bool], dins: &[u64], outs: &mut [Out])
    requires clocks { CanStepAll sim.old.netlist enables.now dins.now sim.old.contents }
    requires outs { length dins.now ≤ length outs.old }
    ensures steps { StepsAll sim.old.netlist sim.new.netlist dins.now sim.old.contents
        sim.new.contents (take (length dins.now) outs.new) }
    ensures outs { length outs.new ≡ length outs.old }
{
    let count = dins.len();
    step_exact(sim, enables, dins, &mut outs[..count]);
}

// The same for a vector.
fn step_front(sim: &mut Batches, enables: &[bool], dins: &[u64], outs: &mut Vec<Out>)
    requires clocks { CanStepAll sim.old.netlist enables.now dins.now sim.old.contents }
    requires outs { length dins.now ≤ length outs.old.items }
    ensures steps { StepsAll sim.old.netlist sim.new.netlist dins.now sim.old.contents
        sim.new.contents (take (length dins.now) outs.new.items) }
    ensures outs { length outs.new.items ≡ length outs.old.items }
{
    step_within(sim, enables, dins, outs);
}

// One clock, and what the output shows in it.
pub(crate) fn step(sim: &mut Batches, reset: bool, din: u64) -> Result<Out, IndexRange>
    requires din { Fit (din_widths sim.old.netlist) (din ∷ []) }
    requires one { length sim.old.netlist.outputs ≡ 2 }
    ensures netlist { sim.new.netlist ≡ sim.old.netlist }
    ensures ok { IfOk result (λ out. (s : Snapshot)
        × GoesOn sim.old (clock_of reset true (din ∷ [])) s sim.new × IsShown s 0 out) }
    ensures stops { IfErr result
        (λ r. StopsIn sim.old (clock_of reset true (din ∷ [])) r.array r.index) }
{
    let mut outs = [Out {
        valid: false,
        dout: 0,
    }];
    match sim.step_all(reset, true, &[din], &mut outs) {
        Err(range) => Err(range),
        Ok(()) => Ok(outs[0]),
    }
}

// The sample of this number in the bytes of a line.
fn sample(row: &[u8], maxval: u16, column: usize) -> u64
    requires { (column + 1) * sample_size maxval ≤ length row.now }
    ensures { result ≡ sample_at maxval row.now column }
{
    if maxval < 256 {
        u64::from(row[column])
    } else {
        256 * u64::from(row[2 * column]) + u64::from(row[2 * column + 1])
    }
}

// Gives each clock the sample of its number in a line.
pub(crate) fn fill_samples(row: &[u8], maxval: u16, dins: &mut Vec<u64>)
    requires { length row.now ≡ length dins.old.items * sample_size maxval }
    ensures is { dins.new.items ≡ map (λ k. sample_at maxval row.now k)
        (range_with_len 0 (length dins.old.items)) }
    ensures count { length dins.new.items ≡ length dins.old.items }
{
    for column in 0..dins.len() {
        dins[column] = sample(row, maxval, column);
    }
}

// Gives each clock 0.
pub(crate) fn fill_zeros(dins: &mut Vec<u64>)
    ensures is { dins.new.items ≡ map (λ k. 0) (range_with_len 0 (length dins.old.items)) }
    ensures count { length dins.new.items ≡ length dins.old.items }
{
    for column in 0..dins.len() {
        dins[column] = 0;
    }
}
