// Batches of any length, piece by piece.

ghost use Rattle.std.specs.Prelude.{◌≡◌, ◌≤◌, OnOk, IfErr, IfSome};
ghost use Rattle.batch_sim.specs.Engine.{AreRowsOf, CanTry, TriesPiece};
ghost use Rattle.batch_sim.specs.Called.{MachineRan, MachineStops};
ghost use Rattle.batch_sim.specs.Pieces.{clocks_of, AreInputsOf, CanStep, HavePlaces, StepsPiece};

use crate::batches::{Batches, Stop};
use crate::pause::Pause;
use crate::rows::{Rows, rows_batch};
use crate::stored::each_stored;
use batch_guess::{Inputs, Piece, Stored};
use cycle_sim::{Out, Sim};

// The greatest number of clocks that are made over whole rows. A row has one place more, which makes it a whole number of vectors in
// each lane: the loops over rows have no rest.
pub const MOST_CLOCKS: usize = 351;

// Pieces of fewer clocks are made one by one.
pub const LEAST: usize = 24;

// The clocks of a piece over rows, if there are rows and they do.
fn by_rows(
    sim: &Sim,
    rows: &mut Option<Rows>,
    pause: &mut Pause,
    stored: &mut Stored,
    piece: &Piece<'_>,
    outs: &mut [Out],
) -> bool
    requires piece { CanTry sim.now.netlist stored.old piece.now }
    requires rows { IfSome rows.old (AreRowsOf sim.now.netlist) }
    requires outs { HavePlaces sim.now.netlist piece.now.inputs outs.old }
    ensures rows { IfSome rows.new (AreRowsOf sim.now.netlist) }
    ensures tries { TriesPiece sim.now.netlist piece.now stored.old stored.new outs.old outs.new
        result }
{
    if piece.count < LEAST {
        return false;
    }
    if pause.is_on() {
        return false;
    }
    match rows {
        Some(rows) => {
            let ran = rows_batch(sim, rows, stored, piece, outs);
            pause.note(ran);
            ran
        }
        None => false,
    }
}

// The most clocks of a piece.
fn size_of(rows: &Option<Rows>) -> usize
    requires { IfSome rows.now (λ r. 1 ≤ r.size) }
    ensures { 1 ≤ result }
{
    match rows {
        Some(rows) => rows.size,
        None => MOST_CLOCKS,
    }
}

impl Batches {
    // The clocks of a piece, over rows or one by one.
    fn step_piece(&mut self, piece: &Piece<'_>, outs: &mut [Out]) -> Result<(), Stop>
        requires { CanStep self.old.netlist piece.now outs.old }
        ensures { StepsPiece self.old self.new piece.now outs.old outs.new result }
    {
        if by_rows(
            &self.sim,
            &mut self.rows,
            &mut self.pause,
            &mut self.stored,
            piece,
            outs,
        ) {
            return Ok(());
        }
        each_stored(&mut self.sim, &mut self.stored, self.dins, piece, outs)
    }

    // The most clocks of a piece.
    #[tactic(auto, using(crate::proofs::Judged::some_clocks))]
    fn most_clocks(&self) -> usize
        ensures { 1 ≤ result }
    {
        size_of(&self.rows)
    }

    // The clocks of a batch, piece by piece.
    pub(crate) fn step_pieces(&mut self, inputs: &Inputs<'_>, outs: &mut [Out]) -> Result<(), Stop>
        requires inputs { AreInputsOf self.old.netlist inputs.now }
        requires outs { HavePlaces self.old.netlist inputs.now outs.old }
        ensures netlist { self.new.netlist ≡ self.old.netlist }
        ensures ok { OnOk result
            (MachineRan self.old self.new (clocks_of self.old.netlist inputs.now) outs.new) }
        ensures stops { IfErr result (MachineStops self.old self.new
            (clocks_of self.old.netlist inputs.now) outs.old outs.new) }
    {
        let count = inputs.enables.len();
        let size = self.most_clocks();
        let mut first = 0;
        for _piece in 0..count / size {
            let most = (count - first).min(size);
            let piece = Piece {
                inputs: *inputs,
                first,
                count: most,
            };
            match self.step_piece(&piece, outs) {
                Err(stop) => return Err(stop),
                Ok(()) => {}
            }
            first += most;
        }
        let rest = Piece {
            inputs: *inputs,
            first,
            count: count - first,
        };
        self.step_piece(&rest, outs)
    }
}
