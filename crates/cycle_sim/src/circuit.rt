// A netlist in a simulator.
ghost use Rattle.std.specs.Prelude.{◌≡◌, ℕ, Err, ◌+◌, ◌*◌, ◌≤◌, length, take, drop, IsTrue, IfOk, OnOk, IfErr};
ghost use Rattle.cycle_sim.specs.Slots.{all_values, all_widths};
ghost use Rattle.cycle_sim.specs.Ports.{din_widths};
ghost use Rattle.wiring.specs.Snapshot.{Fit, SnapshotOf, IsInRange, StopsAt, IsNext};
ghost use Rattle.wiring.specs.Clock.{given, Stops};
ghost use Rattle.wiring.specs.Netlist.{netlist_of};

use crate::build::program_of;
use crate::edge::IndexRange;
use crate::fill::{Fill, filled_arrays, filled_slots};
use crate::machine::{Program, edge_vec, exchange_arrays, exchange_vec, settle_vec};
use crate::ports::{all_fit, dins_in, output_count};
use netlist::{Module, Netlist};
use std::alloc::{AllocError, Global};
use std::marker::Model;

// A netlist with the values of its nets, and what its registers and arrays hold.
#[derive(Debug, Drop)]
pub struct Circuit {
    wiring: Netlist,
    order: Vec<usize>,
    program: Program,
    values: Vec<u64>,
    staged: Vec<u64>,
    arrays: Vec<Vec<u64>>,
}

impl Model for Circuit {
    ghost use Rattle.wiring.specs.Netlist.{netlist_of};
    ghost use Rattle.cycle_sim.specs.Slots.{words_of};
    ghost use Rattle.cycle_sim.specs.Simulated.{Moment, shot_of, IsCircuit};

    ghost Value = { Moment };

    ghost view = { λ s. record { netlist = netlist_of s.wiring; shot = shot_of (netlist_of s.wiring) s.values.items (words_of s.arrays.items) } };

    ghost invariant = { λ s. IsCircuit (netlist_of s.wiring) s.order.items s.program s.values.items s.staged.items (words_of s.arrays.items) };
}

// A copy of a netlist.
fn copy_of(alloc: Global, wiring: &Netlist) -> Result<Netlist, AllocError>
    ensures { IfOk result (λ w. netlist_of w ≡ netlist_of wiring.now) }
{
    Ok(Netlist {
        enable: wiring.enable,
        inputs: Vec::from_slice(alloc, &wiring.inputs)?,
        outputs: Vec::from_slice(alloc, &wiring.outputs)?,
        wires: Vec::from_slice(alloc, &wiring.wires)?,
        regs: Vec::from_slice(alloc, &wiring.regs)?,
        arrays: Vec::from_slice(alloc, &wiring.arrays)?,
        assigns: Vec::from_slice(alloc, &wiring.assigns)?,
        updates: Vec::from_slice(alloc, &wiring.updates)?,
    })
}

// `count` numbers from this place on.
fn part(numbers: &[u64], from: usize, count: usize) -> &[u64]
    requires { from + count ≤ length numbers.now }
    ensures items { result.now ≡ take count (drop from numbers.now) }
    ensures count { length result.now ≡ count }
{
    numbers.split_at(from).1.split_at(count).0
}

impl Circuit {
    ghost use Rattle.wiring.specs.Snapshot.{FitsContents};
    ghost use Rattle.cycle_sim.specs.Slots.{words_of};
    ghost use Rattle.cycle_sim.specs.Simulated.{clock, held_contents, IsDetermined};
    ghost use Rattle.cycle_sim.specs.Filled.{filled_contents};

    // The netlist of a module, with these contents at power-up.
    pub fn new(alloc: Global, module: &Module, fill: Fill) -> Result<Circuit, AllocError>
        ensures netlist { IfOk result (λ s. s.netlist ≡ «module».now.netlist) }
        ensures contents { IfOk result
            (λ s. s.shot.contents ≡ filled_contents fill «module».now.netlist) }
    {
        let wiring = copy_of(alloc, module.wiring())?;
        let order = Vec::from_slice(alloc, module.order())?;
        let program = program_of(alloc, &wiring, &order)?;
        let values = filled_slots(alloc, fill, &program.widths)?;
        let staged = filled_slots(alloc, fill, &wiring.regs)?;
        let arrays = filled_arrays(alloc, fill, &wiring.arrays)?;
        Ok(Circuit {
            wiring,
            order,
            program,
            values,
            staged,
            arrays,
        })
    }

    // A law: one valuation for each contents and inputs, one next contents, and contents that fit.
    pub fn law(&self)
        ensures { IsDetermined self.now.netlist self.now.shot.contents }
    {
        let _order = &self.order;
        wiring::one_valuation_law();
        wiring::one_next_law();
    }

    // Whether these are a number for each din, each fitting its port.
    pub fn fits(&self, dins: &[u64]) -> bool
        ensures yes { IsTrue result → Fit (din_widths self.now.netlist) dins.now }
        ensures no { Fit (din_widths self.now.netlist) dins.now → IsTrue result }
    {
        all_fit(dins_in(&self.wiring), dins)
    }

    // The number of outputs, of two ports each.
    pub fn output_count(&self) -> usize
        ensures { length self.now.netlist.outputs ≡ 2 * result }
    {
        output_count(&self.wiring)
    }

    // The values of all nets: inputs before outputs before wires before registers.
    pub fn values(&self) -> &[u64]
        ensures values { result.now ≡ all_values self.now.shot }
        ensures count { length result.now ≡ length (all_widths self.now.netlist) }
    {
        &self.values
    }

    // The values of the outputs.
    pub fn outputs(&self) -> &[u64]
        ensures values { result.now ≡ self.now.shot.outputs }
        ensures count { length result.now ≡ length self.now.netlist.outputs }
    {
        let first = self.wiring.inputs.len();
        part(&self.values, first, self.wiring.outputs.len())
    }

    // The nets take the values of a clock with these inputs. Returns the first access outside its array. It takes no memory.
    pub fn settle(&mut self, reset: bool, enable: bool, dins: &[u64]) -> Result<(), IndexRange>
        requires { Fit (din_widths self.old.netlist) dins.now }
        ensures netlist { self.new.netlist ≡ self.old.netlist }
        ensures shot { SnapshotOf self.old.netlist self.old.shot.contents
            (given self.old.netlist (clock reset enable dins.now)) self.new.shot }
        ensures ok { OnOk result (IsInRange self.old.netlist self.new.shot) }
        ensures stops { IfErr result (λ r. StopsAt self.old.netlist self.new.shot r.array r.index) }
        ensures only { (x i : ℕ) → Stops self.old.netlist self.old.shot.contents
            (given self.old.netlist (clock reset enable dins.now)) x i
            → result ≡ Err (record { array = x; index = i }) }
    {
        settle_vec(
            &self.program,
            &mut self.values,
            &self.arrays,
            reset,
            enable,
            dins,
        )
    }

    // The clock edge. It takes no memory.
    pub fn edge(&mut self)
        requires { IsInRange self.old.netlist self.old.shot }
        ensures netlist { self.new.netlist ≡ self.old.netlist }
        ensures next { IsNext self.old.netlist self.old.shot self.new.shot.contents }
    {
        edge_vec(
            &self.program,
            &mut self.values,
            &mut self.staged,
            &mut self.arrays,
        );
    }

    // Exchanges what registers and arrays hold for these. It takes no memory.
    pub fn exchange(&mut self, regs: &mut Vec<u64>, arrays: &mut Vec<Vec<u64>>)
        requires fit { FitsContents self.old.netlist
            (held_contents regs.old.items (words_of arrays.old.items)) }
        ensures netlist { self.new.netlist ≡ self.old.netlist }
        ensures contents { self.new.shot.contents
            ≡ held_contents regs.old.items (words_of arrays.old.items) }
        ensures back { held_contents regs.new.items (words_of arrays.new.items)
            ≡ self.old.shot.contents }
    {
        exchange_vec(&mut self.values, self.program.first_reg, regs);
        exchange_arrays(&mut self.arrays, arrays);
    }
}
