// Proposals for the rows of free slots, in the lane of the slot. They claim nothing.

ghost use Rattle.batch_guess.specs.Table.{IsRefilled};

use crate::engine::{Engine, WrittenArray};
use crate::fill::{
    Line, Writes, fill_dins, fill_enable, fill_line, fill_load, fill_read, fill_same, fill_shift,
    fill_written,
};
use crate::inputs::Piece;
use crate::sources::{ValueSource, source_of, source_of_slot};
use crate::table::Table;
use lane_rows::{Lane, Row, Size, lane_in};
use wiring::{Atom, Right};

// The slot of the port en, where there is one.
pub(crate) const ENABLE: usize = 1;

// What a spare row becomes.
#[derive(Clone, Copy)]
pub(crate) enum RowProposal<'a> {
    // The contents of a register, and then its next value, one clock later.
    Shift {
        next: Atom<usize>,
        stored: u64,
    },
    // What is read of words that stay as they are.
    Read {
        index: Atom<usize>,
        words: &'a [u64],
    },
    // The row of a register that takes the first value of this choice, or else keeps its own.
    Load {
        choice: Right<usize, usize>,
        stored: u64,
    },
    // The first places of a slot's row, and then a line, of which these numbers count the steps, if it does not take one in each
    // clock.
    Line {
        slot: usize,
        first: usize,
        line: Line,
        steps: Option<&'a [u16]>,
    },
}

fn fill_chosen<L: Lane>(to: &mut [L], rows: &[Row], choice: &Right<usize, usize>, stored: u64) {
    if let Right::Choose(bit, value, _) = choice {
        fill_load(to, source_of(rows, bit), source_of(rows, value), stored);
    }
}

fn fill<L: Lane>(to: &mut [L], rows: &[Row], proposal: &RowProposal<'_>) {
    match proposal {
        RowProposal::Shift { next, stored } => fill_shift(to, source_of(rows, next), *stored),
        RowProposal::Read { index, words } => fill_read(to, source_of(rows, index), words),
        RowProposal::Load { choice, stored } => fill_chosen(to, rows, choice, *stored),
        RowProposal::Line {
            slot,
            first,
            line,
            steps,
        } => fill_line(to, source_of_slot(rows, *slot), *first, *line, *steps),
    }
}

// The spare row in the lane of a slot becomes a proposal.
pub(crate) fn propose_row(table: &mut Table, slot: usize, proposal: &RowProposal<'_>)
    ensures { IsRefilled table.old table.new }
{
    match lane_in(&table.rows, slot) {
        Size::Narrow => fill(&mut table.narrow, &table.rows, proposal),
        Size::Middle => fill(&mut table.middle, &table.rows, proposal),
        Size::Wide => fill(&mut table.room, &table.rows, proposal),
    }
}

fn fill_input<L: Lane>(to: &mut [L], engine: &Engine, piece: &Piece<'_>, input: usize) {
    if input == 0 {
        return fill_same(to, 0);
    }
    if engine.has_enable && input == ENABLE {
        return fill_enable(to, piece.inputs.enables, piece.first);
    }
    let head = if engine.has_enable { 2 } else { 1 };
    let place = piece
        .first
        .saturating_mul(engine.ports)
        .saturating_add(input.saturating_sub(head));
    fill_dins(to, piece.inputs.dins, place, engine.ports);
}

// The spare row in the lane of an input becomes its values in the clocks of a piece.
pub(crate) fn propose_input(table: &mut Table, engine: &Engine, piece: &Piece<'_>, input: usize)
    ensures { IsRefilled table.old table.new }
{
    match lane_in(&table.rows, input) {
        Size::Narrow => fill_input(&mut table.narrow, engine, piece, input),
        Size::Middle => fill_input(&mut table.middle, engine, piece, input),
        Size::Wide => fill_input(&mut table.room, engine, piece, input),
    }
}

// The bit by which a value is put into an array, and the value. By its put, a value is put at each clock.
fn put_sources<'a>(rows: &'a [Row], access: &WrittenArray) -> (ValueSource<'a>, ValueSource<'a>) {
    if let Some(Right::Choose(bit, value, _)) = &access.choice {
        (source_of(rows, bit), source_of(rows, value))
    } else {
        (ValueSource::Number(1), source_of(rows, &access.put.value))
    }
}

fn fill_access<L: Lane>(to: &mut [L], rows: &[Row], access: &WrittenArray, words: &mut [u64]) {
    let (bit, value) = put_sources(rows, access);
    let writes = Writes {
        written: access.written,
        read: source_of(rows, &access.read),
        index: source_of(rows, &access.put.index),
        bit,
        value,
        copy: access.copy,
    };
    fill_written(to, &writes, words);
}

// The spare row in the lane of what is read becomes that of words that are written clock by clock.
pub(crate) fn propose_access(table: &mut Table, access: &WrittenArray, words: &mut [u64])
    ensures { IsRefilled table.old table.new }
{
    match lane_in(&table.rows, access.target) {
        Size::Narrow => fill_access(&mut table.narrow, &table.rows, access, words),
        Size::Middle => fill_access(&mut table.middle, &table.rows, access, words),
        Size::Wide => fill_access(&mut table.room, &table.rows, access, words),
    }
}
