// Clocks of a batch, one by one.

ghost use Rattle.std.specs.Prelude.{◌≡◌};
ghost use Rattle.batch_sim.specs.Called.{din_count};
ghost use Rattle.batch_sim.specs.Pieces.{CanStep, StepsPiece};

use crate::batches::Stop;
use batch_guess::Piece;
use cycle_sim::{Out, Sim};

// The clocks of a piece, one after another, each with this many dins.
pub fn step_each(
    sim: &mut Sim,
    ports: usize,
    piece: &Piece<'_>,
    outs: &mut [Out],
) -> Result<(), Stop>
    requires ports { ports ≡ din_count sim.old.netlist }
    requires step { CanStep sim.old.netlist piece.now outs.old }
    ensures { StepsPiece sim.old sim.new piece.now outs.old outs.new result }
{
    let count = sim.outputs();
    let inputs = piece.inputs;
    let first = piece.first;
    let last = first + piece.count;
    for number in first..last {
        let din = &inputs.dins[number * ports..(number + 1) * ports];
        let out = &mut outs[number * count..(number + 1) * count];
        match sim.step_all(false, inputs.enables[number], din, out) {
            Err(range) => {
                return Err(Stop {
                    done: number,
                    range,
                });
            }
            Ok(()) => {}
        }
    }
    Ok(())
}
