// The rows of the inputs.

ghost use Rattle.std.specs.Prelude.{◌≡◌, ◌+◌, ◌*◌, ◌<◌, ◌≤◌, length, map, IsTrue, [], slice_index_or};
ghost use Rattle.lane_rows.specs.Values.{row_values, values_of};
ghost use Rattle.batch_sim.specs.Checked.{input_of, inputs_with, AreInputRows, AreLonger, CanGive, IsInputRow};
ghost use Rattle.batch_sim.specs.Pieces.{HasDins};

use batch_guess::Piece;
use lane_rows::{Lane, Row, number_at};

// The row of a slot.
pub fn row_at(rows: &[Row], slot: usize) -> &Row
    requires { slot < length rows.now }
    ensures { row_values result.now ≡ slice_index_or (values_of rows.now) slot [] }
{
    &rows[slot]
}

// What the inputs are given: rst, en where there is one, and the dins.
#[tactic(auto, using(crate::proofs::Checks::input_reset, crate::proofs::Checks::input_enable, crate::proofs::Checks::input_din))]
fn input_at(
    has_enable: bool,
    ports: usize,
    enables: &[bool],
    dins: &[u64],
    clock: usize,
    input: usize,
) -> u64
    requires clock { clock < length enables.now }
    requires all { length dins.now ≡ length enables.now * ports }
    requires input { input < inputs_with has_enable ports }
    ensures { result ≡ input_of has_enable ports enables.now dins.now clock input }
{
    if input == 0 {
        return 0;
    }
    if has_enable && input == 1 {
        return u64::from(enables[clock]);
    }
    let head = if has_enable { 2 } else { 1 };
    dins[clock * ports + (input - head)]
}

// Whether numbers are what an input is given.
fn is_given<L: Lane>(
    row: &[L],
    has_enable: bool,
    ports: usize,
    piece: &Piece<'_>,
    input: usize,
) -> bool
    requires { CanGive has_enable ports piece.now input (length row.now) }
    ensures { IsTrue result → IsInputRow has_enable ports piece.now input (map L.value row.now) }
{
    let enables = piece.inputs.enables;
    let dins = piece.inputs.dins;
    let first = piece.first;
    let mut given = true;
    for t in 0..piece.count {
        if number_at(row, t) != input_at(has_enable, ports, enables, dins, first + t, input) {
            given = false;
        }
    }
    given
}

// The same of a row in any lane.
fn is_row_given(row: &Row, has_enable: bool, ports: usize, piece: &Piece<'_>, input: usize) -> bool
    requires { CanGive has_enable ports piece.now input (length (row_values row.now)) }
    ensures { IsTrue result → IsInputRow has_enable ports piece.now input (row_values row.now) }
{
    match row {
        Row::Narrow(row) => is_given(row, has_enable, ports, piece, input),
        Row::Middle(row) => is_given(row, has_enable, ports, piece, input),
        Row::Wide(row) => is_given(row, has_enable, ports, piece, input),
    }
}

// Whether the rows of all inputs are what the ports are given in the clocks of a piece.
pub fn are_given(
    rows: &[Row],
    inputs: usize,
    has_enable: bool,
    ports: usize,
    piece: &Piece<'_>,
) -> bool
    requires dins { HasDins ports piece.now }
    requires inputs { inputs ≡ inputs_with has_enable ports }
    requires slots { inputs ≤ length rows.now }
    requires long { AreLonger rows.now piece.now.count }
    ensures { IsTrue result → AreInputRows has_enable ports piece.now inputs (values_of rows.now) }
{
    for input in 0..inputs {
        let row = row_at(rows, input);
        if !is_row_given(row, has_enable, ports, piece, input) {
            return false;
        }
    }
    true
}
