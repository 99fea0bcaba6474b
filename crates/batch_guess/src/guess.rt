// The rows of a module, guessed for a batch of clocks.

ghost use Rattle.std.specs.Prelude.{◌≡◌, length, replicate, IfOk, IsTrue};
ghost use Rattle.lane_rows.specs.Values.{values_of, InLanes};
ghost use Rattle.batch_rows.specs.Code.{HaveRun};
ghost use Rattle.batch_guess.specs.Engine.{IsEngine, HasRun};
ghost use Rattle.batch_guess.specs.Guess.{KeepsCode};

use crate::engine::Engine;
use crate::hints::Hints;
use crate::inputs::Piece;
use crate::proposals::propose_input;
use crate::stored::Stored;
use crate::table::Table;
use batch_rows::Rooms;
use lane_rows::{Row, zero_row};
use netlist::{Netlist, Width};
use std::alloc::{AllocError, Global};
use std::marker::Model;

/// The rows of all slots of a module. They are guessed for a piece of a batch by the steps of a plan: rows of inputs, registers and
/// array reads are proposed, and the instructions make all others. That the instructions hold is all that is known of them.
#[derive(Drop)]
pub struct RowGuess {
    pub(crate) engine: Engine,
    pub(crate) table: Table,
    pub(crate) hints: Hints,
    // how many instructions were run over the rows
    pub(crate) done: usize,
}

impl Model for RowGuess {
    ghost use Rattle.std.specs.Prelude.{length};
    ghost use Rattle.batch_guess.specs.Engine.{IsEngine, HasRun};
    ghost use Rattle.batch_guess.specs.Guess.{Guessed};

    ghost Value = { Guessed };

    ghost view = { λ g. record { engine = g.engine; rows = g.table.rows.items; long = length g.table.room.items; done = g.done } };

    ghost invariant = { λ g. IsEngine g.engine × HasRun g.engine (length g.table.room.items) g.table g.done };
}

// A row of zeros for each width.
fn slot_rows(alloc: Global, widths: &[Width], long: usize) -> Result<Vec<Row>, AllocError>
    ensures values { IfOk result (λ v. values_of v.items ≡ replicate (length widths.now) (replicate long 0)) }
    ensures lanes { IfOk result (λ v. InLanes widths.now v.items) }
{
    let mut rows = Vec::new(alloc);
    for slot in 0..widths.len() {
        rows.push(zero_row(alloc, widths[slot].bits(), long)?)?;
    }
    Ok(rows)
}

#[tactic(auto, using(crate::proofs::Made::zero_table))]
fn table_of(alloc: Global, engine: &Engine, long: usize) -> Result<Table, AllocError>
    ensures table { IfOk result (λ t. HasRun engine.now (length t.room.items) t 0) }
    ensures long { IfOk result (λ t. length t.room.items ≡ long) }
{
    let room = vec![in alloc; 0; long]?;
    let narrow = vec![in alloc; 0; long]?;
    let middle = vec![in alloc; 0; long]?;
    let rooms = Rooms::new(alloc, long)?;
    let rows = slot_rows(alloc, &engine.code.widths, long)?;
    let table = Table {
        rows,
        room,
        narrow,
        middle,
        rooms,
    };
    Ok(table)
}

impl RowGuess {
    /// Rows of this many places for an engine. No later call takes memory.
    pub fn new(
        alloc: Global,
        engine: Engine,
        wiring: &Netlist,
        long: usize,
    ) -> Result<RowGuess, AllocError>
        requires { IsEngine engine }
        ensures engine { IfOk result (λ g. g.engine ≡ engine) }
        ensures long { IfOk result (λ g. g.long ≡ long) }
    {
        let hints = Hints::new(alloc, wiring, engine.plan.size, long)?;
        let table = table_of(alloc, &engine, long)?;
        Ok(RowGuess {
            engine,
            table,
            hints,
            done: 0,
        })
    }

    /// A law: the instructions that were run hold over the rows, whose values fit.
    pub fn law(&self)
        ensures { HaveRun self.now.engine.code.widths.items self.now.engine.code.instructions.items self.now.long self.now.rows self.now.done }
    {
        let _done = &self.done;
    }

    pub fn engine(&self) -> &Engine
        ensures { result.now ≡ self.now.engine }
    {
        &self.engine
    }

    /// The rows of all slots.
    pub fn rows(&self) -> &[Row]
        ensures { result.now ≡ self.now.rows }
    {
        &self.table.rows
    }

    // The row of an input is proposed: its values in the clocks of a piece.
    #[tactic(auto, using(crate::proofs::Tables::table_refilled))]
    fn guess_input(&mut self, piece: &Piece<'_>, input: usize) -> bool
        ensures { KeepsCode self.old self.new }
    {
        propose_input(&mut self.table, &self.engine, piece, input);
        self.offer(input)
    }

    fn guess_inputs(&mut self, piece: &Piece<'_>)
        ensures { KeepsCode self.old self.new }
    {
        for input in 0..self.engine.code.first_output {
            let _offered = self.guess_input(piece, input);
        }
    }

    /// Guesses all rows over the clocks of a piece: true if all instructions were run.
    pub fn guess(&mut self, stored: &Stored, piece: &Piece<'_>) -> bool
        ensures code { KeepsCode self.old self.new }
        ensures all { IsTrue result → self.new.done ≡ length self.old.engine.code.instructions.items }
    {
        self.go_back(0);
        self.guess_inputs(piece);
        self.take_steps(stored, piece.count)
    }
}
