// All arrays over the clocks of a batch.

ghost use Rattle.std.specs.Prelude.{◌≡◌, ◌<◌, ◌≤◌, length};
ghost use Rattle.cycle_sim.specs.Slots.{words_of};
ghost use Rattle.lane_rows.specs.Values.{values_of, items_of};
ghost use Rattle.batch_sim.specs.Arrays.{words_at, AllTakenBack, CanPassAll, CanUndo, CanUndoAll, HasSpareRows, HaveRowsOf, IsArrayRoom, IsPassRoom, IsUndone, OthersStay, PassesAccess, PassesAll};

use crate::judge::arrays::{
    Accesses, ArrayAccess, ArrayRoom, PassRoom, Undo, pass_first, undo_array,
};
use lane_rows::Row;

// One array in its vector.
fn pass_vec(
    rows: &[Row],
    room: &mut PassRoom,
    access: &ArrayAccess<'_>,
    words: &mut Vec<u64>,
    lost: &mut Vec<u64>,
) -> bool
    requires rows { HaveRowsOf (values_of rows.now) access.now }
    requires room { IsPassRoom room.old access.now.count }
    requires lost { access.now.count ≤ length lost.old.items }
    ensures room { IsPassRoom room.new access.now.count }
    ensures long { length lost.new.items ≡ length lost.old.items }
    ensures passed { PassesAccess (values_of rows.now) access.now result words.old.items
        words.new.items lost.new.items }
{
    pass_first(rows, &mut room.spares, access, words, &mut room.to, lost)
}

// One array among all.
fn pass_at(
    rows: &[Row],
    room: &mut PassRoom,
    access: &ArrayAccess<'_>,
    arrays: &mut [Vec<u64>],
    lost: &mut [Vec<u64>],
    array: usize,
) -> bool
    requires array { array < length arrays.old }
    requires place { array < length lost.old }
    requires rows { HaveRowsOf (values_of rows.now) access.now }
    requires room { HasSpareRows room.old lost.old access.now.count }
    ensures room { HasSpareRows room.new lost.new access.now.count }
    ensures passed { PassesAccess (values_of rows.now) access.now result (words_at arrays.old array)
        (words_at arrays.new array) (words_at lost.new array) }
    ensures others { OthersStay array (words_of arrays.old) (words_of arrays.new) }
    ensures other_lost { OthersStay array (words_of lost.old) (words_of lost.new) }
{
    pass_vec(rows, room, access, &mut arrays[array], &mut lost[array])
}

fn undo_vec(rows: &[Row], room: &mut ArrayRoom, undo: &Undo<'_>, words: &mut Vec<u64>)
    requires { CanUndo (values_of rows.now) room.old undo.now (length words.old.items) }
    ensures { IsUndone (values_of rows.now) room.new undo.now words.old.items words.new.items }
{
    undo_array(rows, room, undo, words);
}

// Takes back one array among all.
fn undo_at(
    rows: &[Row],
    room: &mut ArrayRoom,
    undo: &Undo<'_>,
    arrays: &mut [Vec<u64>],
    array: usize,
)
    requires array { array < length arrays.old }
    requires undo { CanUndo (values_of rows.now) room.old undo.now
        (length (words_at arrays.old array)) }
    ensures undone { IsUndone (values_of rows.now) room.new undo.now (words_at arrays.old array)
        (words_at arrays.new array) }
    ensures others { OthersStay array (words_of arrays.old) (words_of arrays.new) }
{
    undo_vec(rows, room, undo, &mut arrays[array]);
}

// Takes back the first n arrays, the last one first.
fn undo_arrays(
    rows: &[Row],
    room: &mut ArrayRoom,
    all: &Accesses<'_>,
    arrays: &mut [Vec<u64>],
    lost: &[Vec<u64>],
    done: usize,
)
    requires { CanUndoAll (values_of rows.now) room.old all.now lost.now arrays.old done }
    ensures room { IsArrayRoom room.new all.now.count }
    ensures back { AllTakenBack (values_of rows.now) all.now.puts.now all.now.count
        (items_of lost.now) (words_of arrays.old) (words_of arrays.new) done }
{
    let puts = all.puts;
    let count = all.count;
    for back in 0..done {
        let array = done - 1 - back;
        let undo = Undo {
            put: &puts[array],
            lost: &lost[array],
            count,
        };
        undo_at(rows, room, &undo, arrays, array);
    }
}

// All arrays over this many clocks: true if the equations of each are kept, and their words are then those after them; else all
// words are as before.
pub fn pass_arrays(
    rows: &[Row],
    room: &mut PassRoom,
    all: &Accesses<'_>,
    arrays: &mut [Vec<u64>],
    lost: &mut [Vec<u64>],
) -> bool
    requires { CanPassAll (values_of rows.now) all.now room.old lost.old arrays.old }
    ensures room { HasSpareRows room.new lost.new all.now.count }
    ensures passed { PassesAll (values_of rows.now) all.now result arrays.old arrays.new }
{
    let reads = all.reads;
    let puts = all.puts;
    let count = all.count;
    for array in 0..reads.len() {
        let access = ArrayAccess {
            read: &reads[array],
            put: &puts[array],
            count,
        };
        if !pass_at(rows, room, &access, arrays, lost, array) {
            undo_arrays(rows, &mut room.spares, all, arrays, lost, array);
            return false;
        }
    }
    true
}
