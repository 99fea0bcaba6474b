// Whether rows keep the equations of their code.

ghost use Rattle.std.specs.Prelude.{◌≡◌, ◌≤◌, length, IsTrue};
ghost use Rattle.lane_rows.specs.Values.{values_of};
ghost use Rattle.batch_sim.specs.Engine.{AreRight, AreWide, CanJudge, JudgesRows};
ghost use Rattle.batch_sim.specs.Pieces.{HasDins};

pub mod arrays;
pub mod given;
pub mod passes;
pub mod registers;

use crate::judge::arrays::{Accesses, PassRoom};
use crate::judge::given::are_given;
use crate::judge::passes::pass_arrays;
use crate::judge::registers::{are_kept, take_registers};
use batch_guess::{Engine, Piece, Stored};
use lane_rows::Row;

// Whether the inputs and the registers of rows are right over the clocks of a piece.
fn are_right(
    engine: &Engine,
    rows: &[Row],
    spare: &mut Vec<u64>,
    regs: &[u64],
    piece: &Piece<'_>,
) -> bool
    requires wide { AreWide engine.now (values_of rows.now) piece.now.count }
    requires slots { length (values_of rows.now) ≡ length rows.now }
    requires spare { piece.now.count ≤ length spare.old.items }
    requires regs { length regs.now ≡ length engine.now.code.nexts.items }
    requires dins { HasDins engine.now.ports piece.now }
    ensures spare { length spare.new.items ≡ length spare.old.items }
    ensures right { IsTrue result → AreRight engine.now (values_of rows.now) piece.now regs.now }
{
    let code = &engine.code;
    if !are_given(
        rows,
        code.first_output,
        engine.has_enable,
        engine.ports,
        piece,
    ) {
        return false;
    }
    are_kept(rows, spare, code.first_reg, &code.nexts, regs, piece.count)
}

// Whether rows keep the equations of their code over the clocks of a piece. Registers and arrays then store what they do after
// these clocks, else what they did.
pub fn judge(
    engine: &Engine,
    rows: &[Row],
    room: &mut PassRoom,
    lost: &mut Vec<Vec<u64>>,
    stored: &mut Stored,
    piece: &Piece<'_>,
) -> bool
    requires rows { CanJudge engine.now (values_of rows.now) room.old lost.old.items stored.old
        piece.now }
    requires slots { length (values_of rows.now) ≡ length rows.now }
    ensures { JudgesRows engine.now (values_of rows.now) piece.now stored.old stored.new result }
{
    if !are_right(engine, rows, &mut room.to, &stored.regs, piece) {
        return false;
    }
    let all = Accesses {
        reads: &engine.code.reads,
        puts: &engine.code.puts,
        count: piece.count,
    };
    if !pass_arrays(rows, room, &all, &mut stored.arrays, lost) {
        return false;
    }
    take_registers(rows, engine.code.first_reg, &mut stored.regs, piece.count);
    true
}
