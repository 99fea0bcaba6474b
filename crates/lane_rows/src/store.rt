// Rows that are made, and put in the place of others.

ghost use Rattle.std.specs.Prelude.{◌≡◌, ◌≢◌, ℕ, ◌^◌, ◌<◌, ◌≤◌, [], length, map, replicate, slice_index, slice_index_or, IfOk};
ghost use Rattle.lane_rows.specs.Values.{bits_of, row_bits, row_values, values_of};

use crate::lanes::Lane;
use crate::row::{Row, Size, convert_row};
use std::alloc::{AllocError, Global};

/// The narrowest lane that holds a width.
pub fn size_of_width(width: u8) -> Size
    requires { width ≤ 64 }
    ensures { width ≤ bits_of result }
{
    if width <= 16 {
        Size::Narrow
    } else if width <= 32 {
        Size::Middle
    } else {
        Size::Wide
    }
}

/// A row of zeros for a slot of this width.
pub fn zero_row(alloc: Global, width: u8, count: usize) -> Result<Row, AllocError>
    requires { width ≤ 64 }
    ensures bits { IfOk result (λ r. width ≤ row_bits r) }
    ensures zeros { IfOk result (λ r. row_values r ≡ replicate count 0) }
{
    match size_of_width(width) {
        Size::Narrow => Ok(Row::Narrow(vec![in alloc; 0; count]?)),
        Size::Middle => Ok(Row::Middle(vec![in alloc; 0; count]?)),
        Size::Wide => Ok(Row::Wide(vec![in alloc; 0; count]?)),
    }
}

// Numbers of a lane become those of a row of another one.
fn fill_row<L: Lane>(row: &mut Row, numbers: &[L])
    requires long { length (row_values row.old) ≡ length numbers.now }
    requires fits { (t : ℕ) → t < length numbers.now → slice_index (map L.value numbers.now) t < 2 ^ row_bits row.old }
    ensures bits { row_bits row.new ≡ row_bits row.old }
    ensures count { length (row_values row.new) ≡ length numbers.now }
    ensures each { (t : ℕ) → t < length numbers.now → slice_index (row_values row.new) t ≡ slice_index (map L.value numbers.now) t }
{
    match row {
        Row::Narrow(to) => convert_row(to, numbers),
        Row::Middle(to) => convert_row(to, numbers),
        Row::Wide(to) => convert_row(to, numbers),
    }
}

// A row takes numbers of a lane: as they are if it is in this lane.
fn take_row<L: Lane>(row: &mut Row, numbers: &mut Vec<L>)
    requires long { length (row_values row.old) ≡ length numbers.old.items }
    requires fits { (t : ℕ) → t < length numbers.old.items → slice_index (map L.value numbers.old.items) t < 2 ^ row_bits row.old }
    ensures bits { row_bits row.new ≡ row_bits row.old }
    ensures room { length numbers.new.items ≡ length numbers.old.items }
    ensures count { length (row_values row.new) ≡ length numbers.old.items }
    ensures each { (t : ℕ) → t < length numbers.old.items → slice_index (row_values row.new) t ≡ slice_index (map L.value numbers.old.items) t }
{
    if !L::swap(row, numbers) {
        fill_row(row, numbers);
    }
}

/// Puts a row into a slot; the row that was there becomes the spare one, if it is in this lane.
pub fn put_row<L: Lane>(rows: &mut [Row], slot: usize, numbers: &mut Vec<L>)
    requires slot { slot < length rows.old }
    requires long { length (slice_index_or (values_of rows.old) slot []) ≡ length numbers.old.items }
    requires fits { (t : ℕ) → t < length numbers.old.items → slice_index (map L.value numbers.old.items) t < 2 ^ slice_index (map row_bits rows.old) slot }
    ensures bits { map row_bits rows.new ≡ map row_bits rows.old }
    ensures room { length numbers.new.items ≡ length numbers.old.items }
    ensures count { length rows.new ≡ length rows.old }
    ensures long { length (slice_index_or (values_of rows.new) slot []) ≡ length numbers.old.items }
    ensures each { (t : ℕ) → t < length numbers.old.items
        → slice_index (slice_index_or (values_of rows.new) slot []) t ≡ slice_index (map L.value numbers.old.items) t }
    ensures others { (n : ℕ) → n ≢ slot → slice_index_or (values_of rows.new) n [] ≡ slice_index_or (values_of rows.old) n [] }
{
    take_row(&mut rows[slot], numbers);
}
