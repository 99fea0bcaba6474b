// The row of a slot, in a lane that holds its values.

ghost use Rattle.std.specs.Prelude.{◌≡◌, ℕ, ◌^◌, ◌<◌, ◌≤◌, length, map, slice_index};
ghost use Rattle.lane_rows.specs.Values.{numbers_in, row_bits, row_values};

use crate::lanes::Lane;

/// One of the three lanes.
#[derive(Clone, Copy, Debug, PartialEq, Eq)]
pub enum Size {
    Narrow,
    Middle,
    Wide,
}

/// The values of a slot over clocks, in numbers of 16, 32 or 64 bits.
#[derive(Debug, Drop)]
pub enum Row {
    Narrow(Vec<u16>),
    Middle(Vec<u32>),
    Wide(Vec<u64>),
}

/// Numbers of a row over its first clocks, in the row's lane.
#[derive(Clone, Copy)]
pub enum Numbers<'a> {
    Narrow(&'a [u16]),
    Middle(&'a [u32]),
    Wide(&'a [u64]),
}

/// The first numbers of numbers of a lane.
#[tactic(auto, using(crate::proofs::LaneRows::first_taken))]
pub fn first_of<L: Lane>(row: &[L], count: usize) -> &[L]
    requires { count ≤ length row.now }
    ensures count { length result.now ≡ count }
    ensures each { (t : ℕ) → t < count → slice_index (map L.value result.now) t ≡ slice_index (map L.value row.now) t }
{
    &row[..count]
}

/// The first numbers of a row.
pub fn first_numbers(row: &Row, count: usize) -> Numbers<'_>
    requires { count ≤ length (row_values row.now) }
    ensures count { length (numbers_in result) ≡ count }
    ensures each { (t : ℕ) → t < count → slice_index (numbers_in result) t ≡ slice_index (row_values row.now) t }
{
    match row {
        Row::Narrow(row) => Numbers::Narrow(first_of(row, count)),
        Row::Middle(row) => Numbers::Middle(first_of(row, count)),
        Row::Wide(row) => Numbers::Wide(first_of(row, count)),
    }
}

// The numbers of a row, in another lane that holds them.
pub(crate) fn convert_row<A: Lane, L: Lane>(to: &mut [L], a: &[A])
    requires a { length to.old ≤ length a.now }
    requires fits { (t : ℕ) → t < length to.old → slice_index (map A.value a.now) t < 2 ^ L.bits }
    ensures count { length to.new ≡ length to.old }
    ensures each { (t : ℕ) → t < length to.new → slice_index (map L.value to.new) t ≡ slice_index (map A.value a.now) t }
{
    for t in 0..to.len() {
        to[t] = L::cut(a[t].word());
    }
}

/// The first numbers of a row, in a lane that holds them.
pub fn widen_row<L: Lane>(to: &mut [L], row: &Row)
    requires row { length to.old ≤ length (row_values row.now) }
    requires fits { (t : ℕ) → t < length to.old → slice_index (row_values row.now) t < 2 ^ L.bits }
    ensures count { length to.new ≡ length to.old }
    ensures each { (t : ℕ) → t < length to.new → slice_index (map L.value to.new) t ≡ slice_index (row_values row.now) t }
{
    match row {
        Row::Narrow(row) => convert_row(to, row),
        Row::Middle(row) => convert_row(to, row),
        Row::Wide(row) => convert_row(to, row),
    }
}

/// The lane of a slot's row.
pub fn lane_in(rows: &[Row], slot: usize) -> Size {
    match rows.get(slot) {
        Some(Row::Narrow(_)) => Size::Narrow,
        Some(Row::Middle(_)) => Size::Middle,
        Some(Row::Wide(_)) | None => Size::Wide,
    }
}

/// The clocks of a row.
pub fn length_of(row: &Row) -> usize
    ensures { result ≡ length (row_values row.now) }
{
    match row {
        Row::Narrow(row) => row.len(),
        Row::Middle(row) => row.len(),
        Row::Wide(row) => row.len(),
    }
}

/// The numbers of a lane as words.
#[tactic(auto, using(crate::proofs::LaneRows::read_is))]
pub fn words_of_row<A: Lane>(to: &mut [u64], a: &[A])
    requires a { length to.old ≤ length a.now }
    ensures count { length to.new ≡ length to.old }
    ensures each { (t : ℕ) → t < length to.old → slice_index to.new t ≡ slice_index (map A.value a.now) t }
{
    for t in 0..to.len() {
        to[t] = a[t].word();
    }
}

/// The first numbers of a row as words.
pub fn copy_words(to: &mut [u64], row: &Row)
    requires row { length to.old ≤ length (row_values row.now) }
    ensures count { length to.new ≡ length to.old }
    ensures each { (t : ℕ) → t < length to.old → slice_index to.new t ≡ slice_index (row_values row.now) t }
{
    match row {
        Row::Narrow(row) => words_of_row(to, row),
        Row::Middle(row) => words_of_row(to, row),
        Row::Wide(row) => words_of_row(to, row),
    }
}

/// What a row has at a clock.
pub fn number_of(row: &Row, t: usize) -> u64
    requires { t < length (row_values row.now) }
    ensures { result ≡ slice_index (row_values row.now) t }
{
    match row {
        Row::Narrow(row) => u64::from(row[t]),
        Row::Middle(row) => u64::from(row[t]),
        Row::Wide(row) => row[t],
    }
}

#[tactic(auto, using(crate::proofs::LaneRows::trimmed_is))]
fn trimmed<L: Lane>(number: L, mask: u64) -> L
    ensures { L.value result ≤ mask }
{
    number.both(L::cut(mask))
}

// Numbers without the bits above a mask.
fn trim_numbers<L: Lane>(to: &mut [L], mask: u64)
    ensures count { length to.new ≡ length to.old }
    ensures most { (t : ℕ) → t < length to.new → slice_index (map L.value to.new) t ≤ mask }
{
    for t in 0..to.len() {
        to[t] = trimmed(to[t], mask);
    }
}

/// The numbers of a row lose the bits above a mask.
pub fn trim_row<L: Lane>(row: &mut Vec<L>, mask: u64)
    ensures count { length row.new.items ≡ length row.old.items }
    ensures most { (t : ℕ) → t < length row.new.items → slice_index (map L.value row.new.items) t ≤ mask }
{
    trim_numbers(row, mask);
}
