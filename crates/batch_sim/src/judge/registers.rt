// The rows of the registers.

ghost use Rattle.std.specs.Prelude.{◌≡◌, ℕ, ◌+◌, ◌<◌, ◌≤◌, length, map, slice_index, IsTrue};
ghost use Rattle.wiring.specs.declared.right.Atom.{Atom};
ghost use Rattle.lane_rows.specs.Values.{numbers_in, row_values, values_of, value_at};
ghost use Rattle.batch_code.specs.Rows.{KeepsRegister};
ghost use Rattle.batch_sim.specs.Checked.{AreLonger, AreRegisterRows, CanKeep, CanKeepAll, Follows};

use crate::judge::given::row_at;
use batch_rows::{atom_numbers, note_words};
use lane_rows::{Lane, Numbers, Row, number_at, number_of};
use wiring::Atom;

// Whether numbers begin with a register's contents, and are others, a clock later.
pub fn follows<A: Lane, B: Lane>(row: &[A], next: &[B], stored: u64) -> bool
    requires { length next.now < length row.now }
    ensures { IsTrue result → Follows (map A.value row.now) (map B.value next.now) stored }
{
    let mut same = number_at(row, 0) == stored;
    for t in 0..next.len() {
        if number_at(row, t + 1) != number_at(next, t) {
            same = false;
        }
    }
    same
}

// The same of numbers in any lane.
fn follows_numbers<A: Lane>(row: &[A], next: Numbers<'_>, stored: u64) -> bool
    requires { length (numbers_in next) < length row.now }
    ensures { IsTrue result → Follows (map A.value row.now) (numbers_in next.entry) stored }
{
    match next {
        Numbers::Narrow(next) => follows(row, next, stored),
        Numbers::Middle(next) => follows(row, next, stored),
        Numbers::Wide(next) => follows(row, next, stored),
    }
}

// The same of a row in any lane.
fn follows_row(row: &Row, next: Numbers<'_>, stored: u64) -> bool
    requires { length (numbers_in next) < length (row_values row.now) }
    ensures { IsTrue result → Follows (row_values row.now) (numbers_in next.entry) stored }
{
    match row {
        Row::Narrow(row) => follows_numbers(row, next, stored),
        Row::Middle(row) => follows_numbers(row, next, stored),
        Row::Wide(row) => follows_numbers(row, next, stored),
    }
}

// Whether a register's row begins with its contents, and is that of its next value, a clock later, over this many clocks.
#[tactic(auto, using(crate::proofs::Checks::kept_register))]
fn is_kept(
    rows: &[Row],
    spare: &mut Vec<u64>,
    slot: usize,
    next: &Atom<usize>,
    stored: u64,
    count: usize,
) -> bool
    requires { CanKeep rows.now spare.old.items slot next.now count }
    ensures spare { length spare.new.items ≡ length spare.old.items }
    ensures kept { IsTrue result → KeepsRegister (values_of rows.now) count stored slot next.now }
{
    let own = note_words(rows, spare, next, true, count);
    let later = atom_numbers(rows, own, spare, next, count);
    follows_row(row_at(rows, slot), later, stored)
}

// Whether this is so for all registers, whose slots begin with the first one.
pub fn are_kept(
    rows: &[Row],
    spare: &mut Vec<u64>,
    first: usize,
    nexts: &[Atom<usize>],
    stored: &[u64],
    count: usize,
) -> bool
    requires { CanKeepAll rows.now spare.old.items first nexts.now stored.now count }
    ensures spare { length spare.new.items ≡ length spare.old.items }
    ensures kept { IsTrue result
        → AreRegisterRows (values_of rows.now) count first stored.now nexts.now }
{
    for r in 0..nexts.len() {
        if !is_kept(rows, spare, first + r, &nexts[r], stored[r], count) {
            return false;
        }
    }
    true
}

// The value in a row at a clock.
pub fn place_of(row: &Row, count: usize) -> u64
    requires { count < length (row_values row.now) }
    ensures { result ≡ slice_index (row_values row.now) count }
{
    number_of(row, count)
}

// The registers take the values of this place of their rows.
pub fn take_registers(rows: &[Row], first: usize, regs: &mut [u64], count: usize)
    requires slots { first + length regs.old ≤ length rows.now }
    requires long { AreLonger rows.now count }
    ensures { (r : ℕ) → r < length regs.new
        → slice_index regs.new r ≡ value_at (values_of rows.now) count (first + r) }
{
    for r in 0..regs.len() {
        let row = row_at(rows, first + r);
        regs[r] = place_of(row, count);
    }
}
