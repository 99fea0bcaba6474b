// The arrays over the clocks of a batch.

ghost use Rattle.std.specs.Prelude.{◌≡◌, ℕ, ◌≢◌, ◌<◌, ◌≤◌, List, length, map, slice_index, slice_set, Some, IsTrue, IsFalse};
ghost use Rattle.lane_rows.specs.Values.{numbers_in, values_of};
ghost use Rattle.lane_rows.specs.Words.{AreInside};
ghost use Rattle.batch_sim.specs.Arrays.{AreAccessNumbers, AreNoted, CanPass, CanUndo, HaveClocks, HaveCount, IsArrayRoom, IsPassed, IsUndone, PassesAccess, PassesArray, TriesArray, TriesNumbers};

use crate::judge::registers::follows;
use batch_rows::{WordPut, WordRead, atom_numbers, atom_words, note_words};
use lane_rows::{
    Lane, Numbers, Row, all_inside, change_row, first_of, number_at, take_back, word_row,
};
use wiring::Atom;

// Spare rows for the constants among an array's indexes and values.
#[derive(Drop)]
pub struct ArrayRoom {
    pub read: Vec<u64>,
    pub index: Vec<u64>,
    pub value: Vec<u64>,
    pub target: Vec<u64>,
}

// Room in which arrays are judged one after another: spare rows, and one for what is read.
#[derive(Drop)]
pub struct PassRoom {
    pub spares: ArrayRoom,
    pub to: Vec<u64>,
}

// The accesses of one array: at each of this many clocks it is read, and a word is put.
#[derive(Clone, Copy)]
pub struct ArrayAccess<'a> {
    pub read: &'a WordRead,
    pub put: &'a WordPut,
    pub count: usize,
}

// The accesses of all arrays.
#[derive(Clone, Copy)]
pub struct Accesses<'a> {
    pub reads: &'a [WordRead],
    pub puts: &'a [WordPut],
    pub count: usize,
}

// Whether words are the first numbers of a lane.
pub fn are_same<V: Lane>(a: &[u64], b: &[V]) -> bool
    requires { length a.now ≤ length b.now }
    ensures { IsTrue result → (t : ℕ) → t < length a.now
        → slice_index (map V.value b.now) t ≡ slice_index a.now t }
{
    let mut same = true;
    for t in 0..a.len() {
        if number_at(b, t) != a[t] {
            same = false;
        }
    }
    same
}

// The numbers over which an array is judged, where those of its indexes are in one lane, and those of its value and target.
#[derive(Drop)]
struct LaneNumbers<'a, I, V> {
    read: &'a [I],
    index: &'a [I],
    value: &'a [V],
    target: &'a [V],
}

// Reads and writes an array over the clocks of a batch if all indexes are inside and what is read is the target's row; else the
// words are as before.
fn pass_words<I: Lane, V: Lane>(
    words: &mut [u64],
    to: &mut [u64],
    lost: &mut [u64],
    all: &LaneNumbers<'_, I, V>,
) -> bool
    requires lost { length lost.old ≡ length to.old }
    requires rows { HaveClocks all.now.read.now all.now.index.now all.now.value.now
        all.now.target.now (length to.old) }
    ensures { TriesArray result words.old words.new lost.new (length to.old)
        (map I.value all.now.read.now) (map I.value all.now.index.now)
        (map V.value all.now.value.now) (map V.value all.now.target.now) }
{
    let read = all.read;
    let index = all.index;
    let depth = words.len() as u64;
    if !all_inside(read, depth) {
        return false;
    }
    if !all_inside(index, depth) {
        return false;
    }
    word_row(words, to, lost, read, index, all.value);
    if are_same(to, all.target) {
        true
    } else {
        take_back(words, lost, index);
        false
    }
}

// What the first put of a single word takes away.
fn keep_first(lost: &mut [u64], words: &[u64])
    requires some { 0 < length lost.old }
    requires one { 0 < length words.now }
    ensures count { length lost.new ≡ length lost.old }
    ensures first { slice_index lost.new 0 ≡ slice_index words.now 0 }
{
    lost[0] = words[0];
}

// An array of one word is a register: what is read is what it holds, and then what it is given, a clock later.
fn pass_one<V: Lane>(words: &mut [u64], lost: &mut [u64], value: &[V], target: &[V]) -> bool
    requires one { length words.old ≡ 1 }
    requires value { length value.now ≡ length lost.old }
    requires target { length target.now ≡ length lost.old }
    ensures passed { IsTrue result → (index : List ℕ) → AreInside (length lost.old) index 1
        → IsPassed words.old words.new lost.new index index (map V.value value.now)
        (map V.value target.now) (length lost.old) }
    ensures back { IsFalse result → words.new ≡ words.old }
{
    let count = lost.len();
    if count == 0 {
        return true;
    }
    if !follows(target, first_of(value, count - 1), words[0]) {
        return false;
    }
    keep_first(lost, words);
    words[0] = number_at(value, count - 1);
    true
}

// An array over the clocks of a batch that is read where it is written, as `pass_words`.
fn pass_changes<I: Lane, V: Lane>(
    words: &mut [u64],
    lost: &mut [u64],
    index: &[I],
    value: &[V],
    target: &[V],
) -> bool
    requires { HaveClocks index.now index.now value.now target.now (length lost.old) }
    ensures { TriesArray result words.old words.new lost.new (length lost.old)
        (map I.value index.now) (map I.value index.now)
        (map V.value value.now) (map V.value target.now) }
{
    if !all_inside(index, words.len() as u64) {
        return false;
    }
    if words.len() == 1 {
        return pass_one(words, lost, value, target);
    }
    change_row(words, lost, index, value);
    if are_same(lost, target) {
        true
    } else {
        take_back(words, lost, index);
        false
    }
}

// Whether two atoms are one slot.
fn is_one_slot(a: &Atom<usize>, b: &Atom<usize>) -> bool
    ensures { IsTrue result → a.now ≡ b.now }
{
    match (a, b) {
        (Atom::Net(n), Atom::Net(m)) => n == m,
        _ => false,
    }
}

// The numbers over which an array is judged: those of the indexes of its reads and puts, of what it is given and of what is read.
#[derive(Clone, Copy)]
struct AccessNumbers<'a> {
    read: Numbers<'a>,
    index: Numbers<'a>,
    value: Numbers<'a>,
    target: Numbers<'a>,
}

// Judges an array whose indexes are in one lane. Values and targets in two lanes are refused: `note_access` leaves none.
fn pass_values<I: Lane>(
    words: &mut [u64],
    to: &mut [u64],
    lost: &mut [u64],
    read: &[I],
    index: &[I],
    all: &AccessNumbers<'_>,
) -> bool
    requires lost { length lost.old ≡ length to.old }
    requires rows { HaveClocks read.now index.now (numbers_in all.now.value)
        (numbers_in all.now.target) (length to.old) }
    ensures { TriesArray result words.old words.new lost.new (length to.old) (map I.value read.now)
        (map I.value index.now) (numbers_in all.now.value) (numbers_in all.now.target) }
{
    match (all.value, all.target) {
        (Numbers::Narrow(value), Numbers::Narrow(target)) => {
            let all = LaneNumbers {
                read,
                index,
                value,
                target,
            };
            pass_words(words, to, lost, &all)
        }
        (Numbers::Middle(value), Numbers::Middle(target)) => {
            let all = LaneNumbers {
                read,
                index,
                value,
                target,
            };
            pass_words(words, to, lost, &all)
        }
        (Numbers::Wide(value), Numbers::Wide(target)) => {
            let all = LaneNumbers {
                read,
                index,
                value,
                target,
            };
            pass_words(words, to, lost, &all)
        }
        _ => false,
    }
}

// The same of an array that is read where it is written.
fn pass_changed_values<I: Lane>(
    words: &mut [u64],
    lost: &mut [u64],
    index: &[I],
    all: &AccessNumbers<'_>,
) -> bool
    requires { HaveClocks index.now index.now (numbers_in all.now.value) (numbers_in all.now.target)
        (length lost.old) }
    ensures { TriesArray result words.old words.new lost.new (length lost.old)
        (map I.value index.now) (map I.value index.now)
        (numbers_in all.now.value) (numbers_in all.now.target) }
{
    match (all.value, all.target) {
        (Numbers::Narrow(value), Numbers::Narrow(target)) => {
            pass_changes(words, lost, index, value, target)
        }
        (Numbers::Middle(value), Numbers::Middle(target)) => {
            pass_changes(words, lost, index, value, target)
        }
        (Numbers::Wide(value), Numbers::Wide(target)) => {
            pass_changes(words, lost, index, value, target)
        }
        _ => false,
    }
}

// Judges an array over its numbers. Indexes in two lanes are refused too.
fn pass_numbers(
    words: &mut [u64],
    to: &mut [u64],
    lost: &mut [u64],
    all: &AccessNumbers<'_>,
) -> bool
    requires lost { length lost.old ≡ length to.old }
    requires counts { HaveCount all.now (length to.old) }
    ensures { TriesNumbers result words.old words.new lost.new (length to.old) all.now }
{
    match (all.read, all.index) {
        (Numbers::Narrow(read), Numbers::Narrow(index)) => {
            pass_values(words, to, lost, read, index, all)
        }
        (Numbers::Middle(read), Numbers::Middle(index)) => {
            pass_values(words, to, lost, read, index, all)
        }
        (Numbers::Wide(read), Numbers::Wide(index)) => {
            pass_values(words, to, lost, read, index, all)
        }
        _ => false,
    }
}

// The same of an array that is read where it is written.
fn pass_changed_numbers(words: &mut [u64], lost: &mut [u64], all: &AccessNumbers<'_>) -> bool
    requires { HaveCount all.now (length lost.old) }
    ensures { TriesArray result words.old words.new lost.new (length lost.old)
        (numbers_in all.now.index) (numbers_in all.now.index) (numbers_in all.now.value)
        (numbers_in all.now.target) }
{
    match all.index {
        Numbers::Narrow(index) => pass_changed_values(words, lost, index, all),
        Numbers::Middle(index) => pass_changed_values(words, lost, index, all),
        Numbers::Wide(index) => pass_changed_values(words, lost, index, all),
    }
}

// Whether two rows are in one lane.
fn are_alike(a: &Row, b: &Row) -> bool {
    match (a, b) {
        (Row::Narrow(_), Row::Narrow(_)) => true,
        (Row::Middle(_), Row::Middle(_)) => true,
        (Row::Wide(_), Row::Wide(_)) => true,
        _ => false,
    }
}

// Whether two atoms are slots whose rows are in one lane.
fn are_in_one_lane(rows: &[Row], a: &Atom<usize>, b: &Atom<usize>) -> bool {
    match (a, b) {
        (Atom::Net(n), Atom::Net(m)) => match (rows.get(*n), rows.get(*m)) {
            (Some(a), Some(b)) => are_alike(a, b),
            _ => false,
        },
        _ => false,
    }
}

// The slots whose own rows serve for an array; what has none is in the spare rows.
#[derive(Clone, Copy)]
struct AccessSlots {
    read: Option<usize>,
    index: Option<usize>,
    value: Option<usize>,
    target: Option<usize>,
}

// Notes the rows of an array: where two that are used together are not in one lane, the spare rows become theirs, as words.
fn note_access(
    rows: &[Row],
    room: &mut ArrayRoom,
    read: &WordRead,
    put: &WordPut,
    count: usize,
) -> AccessSlots
    requires { CanPass (values_of rows.now) room.old read.now put.now count }
    ensures room { IsArrayRoom room.new count }
    ensures noted { AreNoted (values_of rows.now) count read.now put.now room.new result }
{
    let target = Atom::Net(read.target);
    let one = are_in_one_lane(rows, &read.index, &put.index);
    let other = are_in_one_lane(rows, &put.value, &target);
    AccessSlots {
        read: note_words(rows, &mut room.read, &read.index, one, count),
        index: note_words(rows, &mut room.index, &put.index, one, count),
        value: note_words(rows, &mut room.value, &put.value, other, count),
        target: note_words(rows, &mut room.target, &target, other, count),
    }
}

// The numbers of an array's rows, after they were noted.
fn numbers_of_access<'a>(
    rows: &'a [Row],
    room: &'a ArrayRoom,
    slots: AccessSlots,
    read: &WordRead,
    put: &WordPut,
    count: usize,
) -> AccessNumbers<'a>
    requires pass { CanPass (values_of rows.now) room.now read.now put.now count }
    requires noted { AreNoted (values_of rows.now) count read.now put.now room.now slots }
    ensures counts { HaveCount result count }
    ensures rows { AreAccessNumbers (values_of rows.now) count read.now put.now result }
{
    let target = Atom::Net(read.target);
    AccessNumbers {
        read: atom_numbers(rows, slots.read, &room.read, &read.index, count),
        index: atom_numbers(rows, slots.index, &room.index, &put.index, count),
        value: atom_numbers(rows, slots.value, &room.value, &put.value, count),
        target: atom_numbers(rows, slots.target, &room.target, &target, count),
    }
}

// One array over this many clocks: true if its equations are kept, and its words are then those after them; else the words are as before.
fn pass_rows(
    rows: &[Row],
    room: &mut ArrayRoom,
    access: &ArrayAccess<'_>,
    words: &mut [u64],
    to: &mut [u64],
    lost: &mut [u64],
) -> bool
    requires pass { CanPass (values_of rows.now) room.old access.now.read.now access.now.put.now
        (length to.old) }
    requires lost { length lost.old ≡ length to.old }
    ensures room { IsArrayRoom room.new (length to.old) }
    ensures passed { PassesArray (values_of rows.now) access.now.read.now access.now.put.now
        (length to.old) result words.old words.new lost.new }
{
    let count = to.len();
    let read = access.read;
    let put = access.put;
    let slots = note_access(rows, room, read, put, count);
    let all = numbers_of_access(rows, room, slots, read, put, count);
    if is_one_slot(&read.index, &put.index) {
        return pass_changed_numbers(words, lost, &all);
    }
    pass_numbers(words, to, lost, &all)
}

// The same over the first places of two rows.
pub fn pass_first(
    rows: &[Row],
    room: &mut ArrayRoom,
    access: &ArrayAccess<'_>,
    words: &mut [u64],
    to: &mut [u64],
    lost: &mut [u64],
) -> bool
    requires pass { CanPass (values_of rows.now) room.old access.now.read.now access.now.put.now
        access.now.count }
    requires to { access.now.count ≤ length to.old }
    requires lost { access.now.count ≤ length lost.old }
    ensures room { IsArrayRoom room.new access.now.count }
    ensures passed { PassesAccess (values_of rows.now) access.now result words.old words.new
        lost.new }
{
    let to = to.split_at_mut(access.count).0;
    let lost = lost.split_at_mut(access.count).0;
    pass_rows(rows, room, access, words, to, lost)
}

// What an array was given: its put over this many clocks, and what each put took away.
#[derive(Clone, Copy)]
pub struct Undo<'a> {
    pub put: &'a WordPut,
    pub lost: &'a [u64],
    pub count: usize,
}

// A single word is again what the first put took away.
fn undo_one(words: &mut [u64], lost: &[u64], count: usize)
    requires one { length words.old ≡ 1 }
    requires lost { count ≤ length lost.now }
    ensures none { count ≡ 0 → words.new ≡ words.old }
    ensures some { 0 < count → words.new ≡ slice_set words.old 0 (slice_index lost.now 0) }
{
    if count > 0 {
        words[0] = lost[0];
    }
}

// Several words are again what they were before these clocks.
#[tactic(auto, using(crate::proofs::OnePass::puts_inside))]
fn undo_words(rows: &[Row], room: &mut ArrayRoom, undo: &Undo<'_>, words: &mut [u64])
    requires several { length words.old ≢ 1 }
    requires undo { CanUndo (values_of rows.now) room.old undo.now (length words.old) }
    ensures { IsUndone (values_of rows.now) room.new undo.now words.old words.new }
{
    let put = undo.put;
    let lost = undo.lost;
    let count = undo.count;
    atom_words(rows, &mut room.index, &put.index, count);
    atom_words(rows, &mut room.value, &put.value, count);
    let indexes = &room.index[..count];
    take_back(words, &lost[..count], indexes);
}

// Takes back what an array was given.
#[tactic(auto, using(crate::proofs::OnePass::single_undone))]
pub fn undo_array(rows: &[Row], room: &mut ArrayRoom, undo: &Undo<'_>, words: &mut [u64])
    requires { CanUndo (values_of rows.now) room.old undo.now (length words.old) }
    ensures { IsUndone (values_of rows.now) room.new undo.now words.old words.new }
{
    if words.len() == 1 {
        undo_one(words, undo.lost, undo.count);
    } else {
        undo_words(rows, room, undo, words);
    }
}
