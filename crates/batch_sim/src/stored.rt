// The contents of registers and arrays, outside of a simulator.

ghost use Rattle.std.specs.Prelude.{◌≡◌, ℕ, Err, ◌*◌, length, map, replicate, IfOk};
ghost use Rattle.wiring.specs.declared.netlist.Shape.{Shape};
ghost use Rattle.wiring.specs.Netlist.{netlist_of};
ghost use Rattle.wiring.specs.Snapshot.{Fit, FitsContents};
ghost use Rattle.cycle_sim.specs.Ports.{din_widths};
ghost use Rattle.cycle_sim.specs.Slots.{words_of};
ghost use Rattle.cycle_sim.specs.Simulated.{clock};
ghost use Rattle.batch_sim.specs.Called.{din_count};
ghost use Rattle.batch_sim.specs.Stored.{contents_in, StepsStored, StoredStops};
ghost use Rattle.batch_sim.specs.Pieces.{CanStep, IsStepped};

use crate::batches::Stop;
use crate::each::step_each;
use batch_guess::{Piece, Stored};
use cycle_sim::{IndexRange, Out, Sim};
use netlist::{Netlist, Shape, Width};
use std::alloc::{AllocError, Global};

// This many zeros.
fn zero_slots(alloc: Global, widths: &[Width]) -> Result<Vec<u64>, AllocError>
    ensures { IfOk result (λ v. v.items ≡ replicate (length widths.now) 0) }
{
    let zeros = vec![in alloc; 0; widths.len()]?;
    Ok(zeros)
}

fn zero_arrays(alloc: Global, shapes: &[Shape]) -> Result<Vec<Vec<u64>>, AllocError>
    ensures { IfOk result
        (λ v. words_of v.items ≡ map (λ (s : Shape). replicate s.depth 0) shapes.now) }
{
    let mut arrays = Vec::new(alloc);
    for shape in shapes {
        arrays.push(vec![in alloc; 0; shape.depth.words() as usize]?)?;
    }
    Ok(arrays)
}

// Zeros in all registers and arrays of a netlist.
#[tactic(auto, using(crate::proofs::Fitting::zeros_fit))]
pub fn zeros(alloc: Global, wiring: &Netlist) -> Result<Stored, AllocError>
    ensures { IfOk result (λ h. FitsContents (netlist_of wiring.now) (contents_in h)) }
{
    let regs = zero_slots(alloc, &wiring.regs)?;
    let arrays = zero_arrays(alloc, &wiring.arrays)?;
    Ok(Stored { regs, arrays })
}

// One clock of a simulator over these contents.
pub fn step_stored(
    sim: &mut Sim,
    stored: &mut Stored,
    reset: bool,
    enable: bool,
    dins: &[u64],
    outs: &mut [Out],
) -> Result<(), IndexRange>
    requires fits { FitsContents sim.old.netlist (contents_in stored.old) }
    requires dins { Fit (din_widths sim.old.netlist) dins.now }
    requires outs { length sim.old.netlist.outputs ≡ 2 * length outs.old }
    ensures steps { StepsStored sim.old.netlist sim.new.netlist stored.old stored.new
        (clock reset enable dins.now) outs.old outs.new result }
    ensures only { (x i : ℕ)
        → StoredStops sim.old.netlist stored.old (clock reset enable dins.now) x i
        → result ≡ Err (record { array = x; index = i }) }
{
    sim.law();
    sim.exchange(&mut stored.regs, &mut stored.arrays);
    let done = sim.step_all(reset, enable, dins, outs);
    sim.law();
    sim.exchange(&mut stored.regs, &mut stored.arrays);
    done
}

// The clocks of a piece, one by one, over these contents: `step_each`.
pub fn each_stored(
    sim: &mut Sim,
    stored: &mut Stored,
    ports: usize,
    piece: &Piece<'_>,
    outs: &mut [Out],
) -> Result<(), Stop>
    requires fits { FitsContents sim.old.netlist (contents_in stored.old) }
    requires ports { ports ≡ din_count sim.old.netlist }
    requires step { CanStep sim.old.netlist piece.now outs.old }
    ensures fits { FitsContents sim.old.netlist (contents_in stored.new) }
    ensures steps { IsStepped sim.old.netlist sim.new.netlist piece.now (contents_in stored.old)
        (contents_in stored.new) outs.old outs.new result }
{
    sim.law();
    sim.exchange(&mut stored.regs, &mut stored.arrays);
    let done = step_each(sim, ports, piece, outs);
    sim.law();
    sim.exchange(&mut stored.regs, &mut stored.arrays);
    done
}
