// The simulator.

ghost use Rattle.std.specs.Prelude.{◌≡◌, ℕ, Err, ◌<◌, ◌+◌, ◌*◌, [], ◌∷◌, true, length, IsTrue, OnOk, IfOk, IfErr, OnErr};
ghost use Rattle.wiring.specs.Snapshot.{Snapshot, Fit, HasOneSnapshot, HasOneNext, HasPlaces, FitsContents};
ghost use Rattle.cycle_sim.specs.Slots.{all_values, all_widths, words_of};
ghost use Rattle.cycle_sim.specs.Ports.{din_widths, AreShown};
ghost use Rattle.cycle_sim.specs.Filled.{filled_contents};
ghost use Rattle.cycle_sim.specs.Simulated.{clock, held_contents, GoesOn, ShowsOutput, StopsIn};

use crate::circuit::Circuit;
use crate::edge::IndexRange;
use crate::fill::Fill;
use crate::ports::{Out, out_at, show_outs};
use dk_base::OutOfMemory;
use netlist::Module;
use std::alloc::Global;
use std::marker::Model;

/// A netlist with what its registers and arrays hold.
#[derive(Debug, Drop)]
pub struct Sim {
    circuit: Circuit,
}

impl Model for Sim {
    ghost use Rattle.cycle_sim.specs.Simulated.{Machine};

    ghost Value = { Machine };

    ghost view = { λ s. record { netlist = s.circuit.netlist; contents = s.circuit.shot.contents } };
}

impl Sim {
    /// A simulator of a module, with these contents at power-up.
    pub fn new(alloc: Global, module: &Module, fill: Fill) -> Result<Sim, OutOfMemory>
        ensures netlist { IfOk result (λ s. s.netlist ≡ «module».now.netlist) }
        ensures contents { IfOk result
            (λ s. s.contents ≡ filled_contents fill «module».now.netlist) }
    {
        let circuit = Circuit::new(alloc, module, fill)?;
        let sim = Sim { circuit };
        Ok(sim)
    }

    /// A law: there is one valuation for each contents and inputs and one next contents, and what registers and arrays hold fits them.
    pub fn law(&self)
        ensures one_valuation { HasOneSnapshot self.now.netlist }
        ensures one_next { HasOneNext self.now.netlist }
        ensures places { HasPlaces self.now.netlist self.now.contents }
        ensures fit { FitsContents self.now.netlist self.now.contents }
    {
        self.circuit.law();
    }

    /// Whether these are a number for each din, the first din first, each fitting its port: what a step asks of them.
    pub fn fits(&self, dins: &[u64]) -> bool
        ensures yes { IsTrue result → Fit (din_widths self.now.netlist) dins.now }
        ensures no { Fit (din_widths self.now.netlist) dins.now → IsTrue result }
    {
        self.circuit.fits(dins)
    }

    /// The number of outputs, each of a valid and a dout.
    pub fn outputs(&self) -> usize
        ensures { length self.now.netlist.outputs ≡ 2 * result }
    {
        self.circuit.output_count()
    }

    /// One clock of a module of any ports, with one number for each din, the first din first, each fitting its port. The outputs
    /// are as they are before the edge, in their order. It answers IndexRange exactly where the clock stops, with the first access
    /// outside its array, and the simulator and the outputs are then as before. It takes no memory.
    pub fn step_all(
        &mut self,
        reset: bool,
        enable: bool,
        dins: &[u64],
        outs: &mut [Out],
    ) -> Result<(), IndexRange>
        requires dins { Fit (din_widths self.old.netlist) dins.now }
        requires outs { length self.old.netlist.outputs ≡ 2 * length outs.old }
        ensures netlist { self.new.netlist ≡ self.old.netlist }
        ensures ok { OnOk result ((s : Snapshot)
            × GoesOn self.old (clock reset enable dins.now) s self.new × AreShown s outs.new) }
        ensures stops { IfErr result
            (λ r. StopsIn self.old (clock reset enable dins.now) r.array r.index) }
        ensures only { (x i : ℕ) → StopsIn self.old (clock reset enable dins.now) x i
            → result ≡ Err (record { array = x; index = i }) }
        ensures err { OnErr result (self.new ≡ self.old) }
        ensures outs { OnErr result (outs.new ≡ outs.old) }
    {
        match self.circuit.settle(reset, enable, dins) {
            Err(range) => Err(range),
            Ok(()) => {
                show_outs(self.circuit.outputs(), outs);
                self.circuit.edge();
                Ok(())
            }
        }
    }

    /// One clock, and what the output of this number shows before the edge. Otherwise as `step_all`.
    pub fn step_output(
        &mut self,
        reset: bool,
        enable: bool,
        dins: &[u64],
        output: usize,
    ) -> Result<Out, IndexRange>
        requires dins { Fit (din_widths self.old.netlist) dins.now }
        requires output { 2 * output + 1 < length self.old.netlist.outputs }
        ensures { ShowsOutput self.old self.new (clock reset enable dins.now) output result }
    {
        match self.circuit.settle(reset, enable, dins) {
            Err(range) => Err(range),
            Ok(()) => {
                let out = out_at(self.circuit.outputs(), output);
                self.circuit.edge();
                Ok(out)
            }
        }
    }

    /// One clock of a module of one din and one output, with the port `en` at this value where there is that port. Otherwise as `step_all`.
    pub fn step_enabled(&mut self, reset: bool, enable: bool, din: u64) -> Result<Out, IndexRange>
        requires din { Fit (din_widths self.old.netlist) (din ∷ []) }
        requires one { length self.old.netlist.outputs ≡ 2 }
        ensures { ShowsOutput self.old self.new (clock reset enable (din ∷ [])) 0 result }
    {
        self.step_output(reset, enable, &[din], 0)
    }

    /// One clock with the port `en` at 1 where there is that port. Otherwise as `step_enabled`.
    pub fn step(&mut self, reset: bool, din: u64) -> Result<Out, IndexRange>
        requires din { Fit (din_widths self.old.netlist) (din ∷ []) }
        requires one { length self.old.netlist.outputs ≡ 2 }
        ensures { ShowsOutput self.old self.new (clock reset true (din ∷ [])) 0 result }
    {
        self.step_enabled(reset, true, din)
    }

    /// The number of variables: inputs, outputs, wires and registers.
    pub fn variables(&self) -> usize
        ensures { result ≡ length (all_widths self.now.netlist) }
    {
        self.circuit.values().len()
    }

    /// One clock, with the value of each variable before the edge: inputs, outputs, wires and registers, each in the module's order.
    /// After a refusal the simulator and the values are as before. It takes no memory.
    pub fn step_seen(
        &mut self,
        reset: bool,
        enable: bool,
        dins: &[u64],
        seen: &mut [u64],
    ) -> Result<(), IndexRange>
        requires dins { Fit (din_widths self.old.netlist) dins.now }
        requires seen { length seen.old ≡ length (all_widths self.old.netlist) }
        ensures netlist { self.new.netlist ≡ self.old.netlist }
        ensures ok { OnOk result ((s : Snapshot)
            × GoesOn self.old (clock reset enable dins.now) s self.new
            × (seen.new ≡ all_values s)) }
        ensures stops { IfErr result
            (λ r. StopsIn self.old (clock reset enable dins.now) r.array r.index) }
        ensures only { (x i : ℕ) → StopsIn self.old (clock reset enable dins.now) x i
            → result ≡ Err (record { array = x; index = i }) }
        ensures err { OnErr result (self.new ≡ self.old) }
        ensures seen { OnErr result (seen.new ≡ seen.old) }
    {
        match self.circuit.settle(reset, enable, dins) {
            Err(range) => Err(range),
            Ok(()) => {
                seen.copy_from_slice(self.circuit.values());
                self.circuit.edge();
                Ok(())
            }
        }
    }

    /// Exchanges what registers and arrays hold for these, which have to fit. It takes no memory.
    pub fn exchange(&mut self, regs: &mut Vec<u64>, arrays: &mut Vec<Vec<u64>>)
        requires fit { FitsContents self.old.netlist
            (held_contents regs.old.items (words_of arrays.old.items)) }
        ensures netlist { self.new.netlist ≡ self.old.netlist }
        ensures contents { self.new.contents
            ≡ held_contents regs.old.items (words_of arrays.old.items) }
        ensures back { held_contents regs.new.items (words_of arrays.new.items)
            ≡ self.old.contents }
    {
        self.circuit.exchange(regs, arrays);
    }
}
