// Batches of clocks.

ghost use Rattle.std.specs.Prelude.{◌≡◌, ℕ, Err, ◌*◌, length, IfOk, OnOk, IfErr, OnErr};
ghost use Rattle.wiring.specs.Snapshot.{Snapshot, Fit, HasOneSnapshot, HasOneNext, HasPlaces, FitsContents};
ghost use Rattle.cycle_sim.specs.Ports.{din_widths, AreShown};
ghost use Rattle.cycle_sim.specs.Filled.{filled_contents};
ghost use Rattle.cycle_sim.specs.Simulated.{GoesOn, StopsIn, clock};
ghost use Rattle.batch_sim.specs.Called.{din_count, output_count, clocks_for, FitPorts, IsStopOfRun, MachineRan, MachineStops};

use crate::pause::Pause;
use crate::rows::Rows;
use crate::rows::make::rows_of;
use crate::stored::{step_stored, zeros};
use batch_guess::{Inputs, Stored};
use cycle_sim::{Fill, IndexRange, Out, Sim, dins_of};
use dk_base::OutOfMemory;
use netlist::{Module, one_run_law};
use std::alloc::Global;
use std::marker::Model;

/// A netlist with the contents of its registers and arrays, clocked many clocks at a time.
#[derive(Drop)]
pub struct Batches {
    // its contents mean nothing between the calls
    pub(crate) sim: Sim,
    pub(crate) stored: Stored,
    pub(crate) dins: usize,
    pub(crate) rows: Option<Rows>,
    pub(crate) pause: Pause,
}

impl Model for Batches {
    ghost use Rattle.cycle_sim.specs.Simulated.{Machine};
    ghost use Rattle.batch_sim.specs.Stored.{contents_in};
    ghost use Rattle.batch_sim.specs.Engine.{AreBatches};

    ghost Value = { Machine };

    ghost view = { λ b. record { netlist = b.sim.netlist; contents = contents_in b.stored } };

    ghost invariant = { λ b. AreBatches b.sim.netlist b.stored b.dins b.rows };
}

/// Where a batch stops: `done` clocks took place, and in the next one this index is outside its array.
#[derive(Clone, Copy, Debug, PartialEq, Eq)]
pub struct Stop {
    pub done: usize,
    pub range: IndexRange,
}

// The number of dins of a module.
fn count_dins(module: &Module) -> usize
    ensures { result ≡ din_count «module».now.netlist }
{
    dins_of(module).len()
}

impl Batches {
    /// A simulator of a module, with these contents at power-up. No later call takes memory.
    pub fn new(alloc: Global, module: &Module, fill: Fill) -> Result<Batches, OutOfMemory>
        ensures netlist { IfOk result (λ b. b.netlist ≡ «module».now.netlist) }
        ensures contents { IfOk result
            (λ b. b.contents ≡ filled_contents fill «module».now.netlist) }
    {
        let dins = count_dins(module);
        let rows = rows_of(alloc, module, dins)?;
        let mut stored = zeros(alloc, module.wiring())?;
        let mut sim = Sim::new(alloc, module, fill)?;
        sim.law();
        sim.exchange(&mut stored.regs, &mut stored.arrays);
        let batches = Batches {
            sim,
            stored,
            dins,
            rows,
            pause: Pause::new(),
        };
        Ok(batches)
    }

    /// A law: there is one valuation for each contents and inputs and one next contents, and the contents fit the netlist.
    pub fn law(&self)
        ensures one_valuation { HasOneSnapshot self.now.netlist }
        ensures one_next { HasOneNext self.now.netlist }
        ensures places { HasPlaces self.now.netlist self.now.contents }
        ensures fit { FitsContents self.now.netlist self.now.contents }
    {
        self.sim.law();
    }

    /// The number of outputs, each of a valid and a dout.
    pub fn outputs(&self) -> usize
        ensures { length self.now.netlist.outputs ≡ 2 * result }
    {
        self.sim.outputs()
    }

    /// One clock, a reset among them, as `Sim::step_all` makes it.
    pub fn step_all(
        &mut self,
        reset: bool,
        enable: bool,
        dins: &[u64],
        outs: &mut [Out],
    ) -> Result<(), IndexRange>
        requires dins { Fit (din_widths self.old.netlist) dins.now }
        requires outs { length self.old.netlist.outputs ≡ 2 * length outs.old }
        ensures netlist { self.new.netlist ≡ self.old.netlist }
        ensures ok { OnOk result ((s : Snapshot)
            × GoesOn self.old (clock reset enable dins.now) s self.new × AreShown s outs.new) }
        ensures stops { IfErr result
            (λ r. StopsIn self.old (clock reset enable dins.now) r.array r.index) }
        ensures only { (x i : ℕ) → StopsIn self.old (clock reset enable dins.now) x i
            → result ≡ Err (record { array = x; index = i }) }
        ensures err { OnErr result (self.new ≡ self.old) }
        ensures outs { OnErr result (outs.new ≡ outs.old) }
    {
        step_stored(&mut self.sim, &mut self.stored, reset, enable, dins, outs)
    }

    /// As many clocks as `enables` has, none of them a reset. The dins of each clock, in their order and each fitting its port,
    /// follow those of the clock before. So do its outputs, which are as they are before its edge. It answers Stop exactly if
    /// one of the clocks stops: those before it took place, and the outputs from it on are unchanged. It allocates no memory.
    pub fn step_batch(
        &mut self,
        enables: &[bool],
        dins: &[u64],
        outs: &mut [Out],
    ) -> Result<(), Stop>
        requires dins { FitPorts self.old.netlist (clocks_for self.old enables.now dins.now) }
        requires all { length dins.now ≡ length enables.now * din_count self.old.netlist }
        requires outs { length outs.old ≡ length enables.now * output_count self.old.netlist }
        ensures netlist { self.new.netlist ≡ self.old.netlist }
        ensures ok { OnOk result
            (MachineRan self.old self.new (clocks_for self.old enables.now dins.now) outs.new) }
        ensures stops { IfErr result (MachineStops self.old self.new
            (clocks_for self.old enables.now dins.now) outs.old outs.new) }
        ensures only { IsStopOfRun self.old.netlist (clocks_for self.old enables.now dins.now)
            self.old.contents result }
    {
        self.law();
        one_run_law();
        let inputs = Inputs { enables, dins };
        self.step_pieces(&inputs, outs)
    }
}
