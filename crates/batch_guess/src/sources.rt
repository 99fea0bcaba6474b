// Where proposals take their values from: rows and constants.

use lane_rows::{Lane, Row, length_of, number_of};
use wiring::Atom;

// What is in a row at a clock.
fn place_in(row: &Row, t: usize) -> u64 {
    if t < length_of(row) {
        number_of(row, t)
    } else {
        0
    }
}

// Where a value comes from: from a row, at each clock its number, or from a number, the same at all clocks.
#[derive(Clone, Copy)]
pub(crate) enum ValueSource<'a> {
    Row(&'a Row),
    Number(u64),
}

pub(crate) fn source_of_slot(rows: &[Row], slot: usize) -> ValueSource<'_> {
    match rows.get(slot) {
        Some(row) => ValueSource::Row(row),
        None => ValueSource::Number(0),
    }
}

pub(crate) fn source_of<'a>(rows: &'a [Row], a: &Atom<usize>) -> ValueSource<'a> {
    match a {
        Atom::Net(slot) => source_of_slot(rows, *slot),
        Atom::Constant(c) => ValueSource::Number(c.value()),
    }
}

impl<'a> ValueSource<'a> {
    // The value at a clock.
    pub(crate) fn at(self, t: usize) -> u64 {
        match self {
            ValueSource::Row(row) => place_in(row, t),
            ValueSource::Number(value) => value,
        }
    }

    // The numbers of a row in this lane.
    pub(crate) fn numbers<L: Lane>(self) -> Option<&'a [L]> {
        match self {
            ValueSource::Row(row) => L::of_row(row),
            ValueSource::Number(_) => None,
        }
    }
}
