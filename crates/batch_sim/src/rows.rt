// Pieces of a batch over whole rows.

ghost use Rattle.std.specs.Prelude.{◌≡◌, ◌+◌, ◌*◌, ◌<◌, length, IsTrue};
ghost use Rattle.lane_rows.specs.Values.{items_of, values_of};
ghost use Rattle.batch_sim.specs.Arrays.{HaveLong};
ghost use Rattle.batch_sim.specs.Engine.{AreRowsOf, CanJudge, CanTry, HasRoomFor, JudgesRows, TriesPiece, TriesRows};
ghost use Rattle.batch_sim.specs.Pieces.{HavePlaces};
ghost use Rattle.batch_sim.specs.Shown.{AreShownIn, CanShowAll};

pub mod make;
pub mod shown;

use crate::judge::arrays::PassRoom;
use crate::judge::judge;
use crate::rows::shown::show_rows;
use batch_guess::{Piece, RowGuess, Stored};
use cycle_sim::{Out, Sim};

// The rows of a module, and room in which they are judged.
#[derive(Drop)]
pub struct Rows {
    pub guess: RowGuess,
    pub room: PassRoom,
    // What the puts of each array took away.
    pub lost: Vec<Vec<u64>>,
    // The most clocks of a piece: a row has one place more.
    pub size: usize,
}

// Whether each of some lists has this many places.
fn are_long(lists: &[Vec<u64>], count: usize) -> bool
    ensures { IsTrue result → HaveLong (items_of lists.now) count }
{
    for x in 0..lists.len() {
        if lists[x].len() < count {
            return false;
        }
    }
    true
}

// Whether there is room for this many clocks of this many arrays.
fn has_room(rows: &Rows, arrays: usize, count: usize) -> bool
    ensures { IsTrue result → HasRoomFor rows.now arrays count }
{
    if rows.size < count {
        return false;
    }
    if rows.room.spares.read.len() < count {
        return false;
    }
    if rows.room.spares.index.len() < count {
        return false;
    }
    if rows.room.spares.value.len() < count {
        return false;
    }
    if rows.room.spares.target.len() < count {
        return false;
    }
    if rows.room.to.len() < count {
        return false;
    }
    if rows.lost.len() != arrays {
        return false;
    }
    are_long(&rows.lost, count)
}

// Whether guessed rows are right. The contents are then those after the clocks of a piece, else as before.
fn judge_guess(
    guess: &RowGuess,
    room: &mut PassRoom,
    lost: &mut Vec<Vec<u64>>,
    stored: &mut Stored,
    piece: &Piece<'_>,
) -> bool
    requires { CanJudge guess.now.engine (values_of guess.now.rows) room.old lost.old.items
        stored.old piece.now }
    ensures { JudgesRows guess.now.engine (values_of guess.now.rows) piece.now stored.old stored.new
        result }
{
    judge(guess.engine(), guess.rows(), room, lost, stored, piece)
}

// The rows are judged, after all instructions.
fn judge_rows(sim: &Sim, rows: &mut Rows, stored: &mut Stored, piece: &Piece<'_>) -> bool
    requires piece { CanTry sim.now.netlist stored.old piece.now }
    requires rows { AreRowsOf sim.now.netlist rows.old }
    requires all { rows.old.guess.done ≡ length rows.old.guess.engine.code.instructions.items }
    ensures guess { rows.new.guess ≡ rows.old.guess }
    ensures size { rows.new.size ≡ rows.old.size }
    ensures tries { TriesRows sim.now.netlist piece.now stored.old stored.new rows.old result }
{
    if !has_room(rows, stored.arrays.len(), piece.count) {
        return false;
    }
    rows.guess.law();
    judge_guess(&rows.guess, &mut rows.room, &mut rows.lost, stored, piece)
}

// The clocks of a piece, over rows.
#[tactic(auto, using(crate::proofs::Judged::rows_as))]
fn run_piece(sim: &Sim, rows: &mut Rows, stored: &mut Stored, piece: &Piece<'_>) -> bool
    requires piece { CanTry sim.now.netlist stored.old piece.now }
    requires rows { AreRowsOf sim.now.netlist rows.old }
    ensures rows { AreRowsOf sim.now.netlist rows.new }
    ensures tries { TriesRows sim.now.netlist piece.now stored.old stored.new rows.new result }
{
    if !rows.guess.guess(stored, piece) {
        return false;
    }
    judge_rows(sim, rows, stored, piece)
}

// The outputs of guessed rows in these clocks, this many a clock.
fn show_guess(guess: &RowGuess, count: usize, outs: &mut [Out], clocks: usize)
    requires { CanShowAll guess.now.rows guess.now.engine.code.first_output count clocks outs.old }
    ensures { AreShownIn (values_of guess.now.rows) guess.now.engine.code.first_output count clocks
        outs.new }
{
    let engine = guess.engine();
    show_rows(guess.rows(), engine.code.first_output, count, outs, clocks);
}

// The clocks of a piece, over rows: true if they took place. The contents of registers and arrays and the outputs are then those of
// these clocks, else as before.
pub fn rows_batch(
    sim: &Sim,
    rows: &mut Rows,
    stored: &mut Stored,
    piece: &Piece<'_>,
    outs: &mut [Out],
) -> bool
    requires piece { CanTry sim.now.netlist stored.old piece.now }
    requires rows { AreRowsOf sim.now.netlist rows.old }
    requires outs { HavePlaces sim.now.netlist piece.now.inputs outs.old }
    ensures rows { AreRowsOf sim.now.netlist rows.new }
    ensures tries { TriesPiece sim.now.netlist piece.now stored.old stored.new outs.old outs.new
        result }
{
    if !run_piece(sim, rows, stored, piece) {
        return false;
    }
    let outputs = sim.outputs();
    let part = &mut outs[piece.first * outputs..(piece.first + piece.count) * outputs];
    rows.guess.law();
    show_guess(&rows.guess, outputs, part, piece.count);
    true
}
