// The rows of all slots of a code.

ghost use Rattle.std.specs.Prelude.{◌≡◌, ◌^◌, ◌<◌, ◌≤◌, length, slice_index, IsTrue};
ghost use Rattle.batch_rows.specs.Code.{CanRun, IsStretch};
ghost use Rattle.batch_rows.specs.Uses.{AreFirstUses};
ghost use Rattle.batch_guess.specs.Table.{HaveSpares, CanPut, SlotIsPut, IsTable};

use batch_rows::{Code, Instruction, Rooms, run_code};
use lane_rows::{Lane, Row, Size, lane_in, put_row, trim_row};
use wiring::{Width, limit};

// The rows of all slots, a spare row in each lane, and room for the instructions.
#[derive(Drop)]
pub struct Table {
    pub rows: Vec<Row>,
    pub room: Vec<u64>,
    pub narrow: Vec<u16>,
    pub middle: Vec<u32>,
    pub rooms: Rooms,
}

// The greatest number of a slot.
fn mask_of(widths: &[Width], slot: usize) -> u64
    ensures { result < 2 ^ slice_index widths.now slot }
{
    match widths.get(slot) {
        Some(width) => (limit(width.bits()) - 1) as u64,
        None => 0,
    }
}

// Puts a spare row into a slot, without the bits above its width. What the slot had becomes the spare row.
#[tactic(auto, using(crate::proofs::Tables::trimmed_fits))]
fn put_spare<L: Lane>(widths: &[Width], rows: &mut [Row], slot: usize, spare: &mut Vec<L>)
    requires { CanPut widths.now slot (length spare.old.items) rows.old }
    ensures spare { length spare.new.items ≡ length spare.old.items }
    ensures rows { SlotIsPut widths.now slot rows.old rows.new }
{
    trim_row(spare, mask_of(widths, slot));
    put_row(rows, slot, spare);
}

// Puts the spare row of its lane into a slot that no instruction that is run uses.
fn put_free(widths: &[Width], table: &mut Table, slot: usize)
    requires can { CanPut widths.now slot (length table.old.room.items) table.old.rows.items }
    requires spares { HaveSpares table.old (length table.old.room.items) }
    ensures spares { HaveSpares table.new (length table.old.room.items) }
    ensures rooms { table.new.rooms ≡ table.old.rooms }
    ensures rows { SlotIsPut widths.now slot table.old.rows.items table.new.rows.items }
{
    match lane_in(&table.rows, slot) {
        Size::Narrow => put_spare(widths, &mut table.rows, slot, &mut table.narrow),
        Size::Middle => put_spare(widths, &mut table.rows, slot, &mut table.middle),
        Size::Wide => put_spare(widths, &mut table.rows, slot, &mut table.room),
    }
}

// Whether no one of the first n instructions uses a slot.
fn is_free(uses: &[usize], done: usize, slot: usize) -> bool
    ensures { IsTrue result → done ≤ slice_index uses.now slot }
{
    if slot < uses.len() {
        done <= uses[slot]
    } else {
        false
    }
}

// The spare row becomes that of a slot, cut to its width, if no one of the first n instructions uses this slot.
pub(crate) fn offer(
    widths: &[Width],
    code: &[Instruction],
    uses: &[usize],
    table: &mut Table,
    done: usize,
    slot: usize,
) -> bool
    requires uses { AreFirstUses code.now uses.now }
    requires table { IsTable widths.now code.now (length table.old.room.items) table.old done }
    ensures room { length table.new.room.items ≡ length table.old.room.items }
    ensures table { IsTable widths.now code.now (length table.old.room.items) table.new done }
{
    if slot >= table.rows.len() {
        return false;
    }
    if !is_free(uses, done, slot) {
        return false;
    }
    put_free(widths, table, slot);
    true
}

// The instructions from one place up to another.
fn run_between(code: &Code<'_>, table: &mut Table, done: usize, upto: usize)
    requires code { CanRun code.now.widths.now code.now.instructions.now code.now.sizes.now }
    requires places { IsStretch done upto (length code.now.instructions.now) }
    requires table { IsTable code.now.widths.now code.now.instructions.now (length table.old.room.items) table.old done }
    ensures room { length table.new.room.items ≡ length table.old.room.items }
    ensures table { IsTable code.now.widths.now code.now.instructions.now (length table.old.room.items) table.new upto }
{
    let count = table.room.len();
    run_code(code, &mut table.rows, &mut table.rooms, done, upto, count);
}

// The instructions from this many on up to this place, if there are this many: how many are run then.
pub(crate) fn run_upto(code: &Code<'_>, table: &mut Table, done: usize, upto: usize) -> usize
    requires code { CanRun code.now.widths.now code.now.instructions.now code.now.sizes.now }
    requires table { IsTable code.now.widths.now code.now.instructions.now (length table.old.room.items) table.old done }
    ensures room { length table.new.room.items ≡ length table.old.room.items }
    ensures table { IsTable code.now.widths.now code.now.instructions.now (length table.old.room.items) table.new result }
{
    if done <= upto && upto <= code.instructions.len() {
        run_between(code, table, done, upto);
        upto
    } else {
        done
    }
}
