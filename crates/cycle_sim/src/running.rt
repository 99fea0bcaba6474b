// Runs over lists of clocks.

ghost use Rattle.std.specs.Prelude.{◌≡◌, ◌≢◌, ◌⊎◌, ℕ, List, ◌+◌, ◌*◌, ◌<◌, ◌≤◌, ◌++◌, [], ◌∷◌, length, IsTrue, Err, IsOk, OnOk, IfErr, if◌then◌else◌};
ghost use Rattle.std.specs.Vec.{vec_capacity, vec_len};
ghost use Rattle.wiring.specs.Snapshot.{Contents};
ghost use Rattle.wiring.specs.Snapshot.{Fit};
ghost use Rattle.cycle_sim.specs.Ports.{din_widths};
ghost use Rattle.cycle_sim.specs.Runs.{clock_of, clocks_of, EndsEarly, FitClocks, Ran, RanToStop, RunsClocks};
ghost use Rattle.cycle_sim.specs.declared.running.RunFault.TheVariants.{Stopped, OutOfMemory};

use crate::edge::IndexRange;
use crate::ports::Out;
use crate::sim::Sim;
use netlist::one_run_law;

/// What the ports are given in a clock. Without the port `en` its value is not looked at.
#[derive(Debug, Drop)]
pub struct Clock {
    pub reset: bool,
    pub enable: bool,
    pub dins: Vec<u64>,
}

/// Why a run ends before its list of clocks.
#[derive(Clone, Copy, Debug, PartialEq, Eq)]
pub enum RunFault {
    /// An index is not below the depth of its array.
    Stopped(IndexRange),
    /// There was not enough memory for the samples. No clock took place.
    OutOfMemory,
}

/// Whether a simulator can take what each of the clocks gives to its din ports: what `run` asks of them.
pub fn clocks_fit(sim: &Sim, clocks: &[Clock]) -> bool
    ensures yes { IsTrue result → FitClocks sim.now.netlist clocks.now }
    ensures no { FitClocks sim.now.netlist clocks.now → IsTrue result }
{
    for clock in clocks {
        if !sim.fits(&clock.dins) {
            return false;
        }
    }
    true
}

// Adds what an output shows, where its valid is 1. There is room for it.
fn note(samples: &mut Vec<u64>, out: Out)
    requires { vec_len samples.old < vec_capacity samples.old }
    ensures items { samples.new.items
        ≡ samples.old.items ++ (if out.valid then out.dout ∷ [] else []) }
    ensures count { vec_len samples.new ≤ vec_len samples.old + 1 }
    ensures capacity { vec_capacity samples.new ≡ vec_capacity samples.old }
{
    if out.valid {
        samples.push_reserved(out.dout);
    }
}

fn run_clock(
    sim: &mut Sim,
    clock: &Clock,
    output: usize,
    samples: &mut Vec<u64>,
) -> Result<(), IndexRange>
    requires dins { Fit (din_widths sim.old.netlist) clock.now.dins.items }
    requires output { 2 * output + 1 < length sim.old.netlist.outputs }
    requires room { vec_len samples.old < vec_capacity samples.old }
    ensures { RunsClocks sim.old sim.new output (clock_of clock.now ∷ []) samples.old samples.new 1
        result }
{
    match sim.step_output(clock.reset, clock.enable, &clock.dins, output) {
        Err(range) => Err(range),
        Ok(out) => {
            note(samples, out);
            Ok(())
        }
    }
}

// The same over a list of clocks, to its end or the first that stops.
fn run_clocks(
    sim: &mut Sim,
    clocks: &[Clock],
    output: usize,
    samples: &mut Vec<u64>,
) -> Result<(), IndexRange>
    requires dins { FitClocks sim.old.netlist clocks.now }
    requires output { 2 * output + 1 < length sim.old.netlist.outputs }
    requires room { vec_len samples.old + length clocks.now ≤ vec_capacity samples.old }
    ensures { RunsClocks sim.old sim.new output (clocks_of clocks.now) samples.old samples.new
        (length clocks.now) result }
{
    for clock in clocks {
        run_clock(sim, clock, output, samples)?;
    }
    Ok(())
}

/// Runs the clocks in their order, to the end of the list or the first that stops, and adds to the samples what the output of
/// this number shows: its dout in each clock with its valid 1, the values being those before the edge. Room for one sample a
/// clock is made before the first clock, so without memory nothing changes; where that room is there, no memory is taken.
pub fn run(
    sim: &mut Sim,
    clocks: &[Clock],
    output: usize,
    samples: &mut Vec<u64>,
) -> Result<(), RunFault>
    requires dins { FitClocks sim.old.netlist clocks.now }
    requires output { 2 * output + 1 < length sim.old.netlist.outputs }
    ensures netlist { sim.new.netlist ≡ sim.old.netlist }
    ensures ok { OnOk result (Ran sim.old.netlist output (clocks_of clocks.now)
        sim.old.contents samples.old.items sim.new.contents samples.new.items) }
    ensures err { IfErr result (EndsEarly sim.old.netlist output (clocks_of clocks.now)
        sim.old.contents samples.old.items sim.new.contents samples.new.items) }
    ensures to_end { (to : Contents) (all : List ℕ)
        → Ran sim.old.netlist output (clocks_of clocks.now) sim.old.contents samples.old.items
        to all
        → (result ≡ Err OutOfMemory)
        ⊎ (IsOk result × (sim.new.contents ≡ to) × (samples.new.items ≡ all)) }
    ensures to_stop { (to : Contents) (all : List ℕ) (x i : ℕ)
        → RanToStop sim.old.netlist output (clocks_of clocks.now) sim.old.contents samples.old.items
        to all x i
        → (result ≡ Err OutOfMemory) ⊎ ((result ≡ Err (Stopped (record { array = x; index = i })))
        × (sim.new.contents ≡ to) × (samples.new.items ≡ all)) }
    ensures room { vec_len samples.old + length clocks.now ≤ vec_capacity samples.old
        → result ≢ Err OutOfMemory }
    ensures count { vec_len samples.new ≤ vec_len samples.old + length clocks.now }
    ensures capacity { vec_capacity samples.old ≤ vec_capacity samples.new }
{
    sim.law();
    one_run_law();
    if samples.try_reserve(clocks.len()).is_err() {
        return Err(RunFault::OutOfMemory);
    }
    match run_clocks(sim, clocks, output, samples) {
        Err(range) => Err(RunFault::Stopped(range)),
        Ok(()) => Ok(()),
    }
}
