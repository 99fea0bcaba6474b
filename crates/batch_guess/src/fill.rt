// Rows of a lane, filled with proposals. They claim nothing. Each loop takes its rows as slices: a match on the lane in each clock
// would keep LLVM from making vector code.

use crate::hints::Habit;
use crate::sources::ValueSource;
use batch_plan::WriteForm;
use lane_rows::{Lane, Row};

// Numbers from a first one on, which go on as those of a register do.
#[derive(Clone, Copy)]
pub(crate) struct Line {
    pub(crate) value: u64,
    pub(crate) habit: Habit,
}

// At each clock the same number.
pub(crate) fn fill_same<L: Lane>(to: &mut [L], number: u64) {
    let number = L::cut(number);
    for t in 0..to.len() {
        to[t] = number;
    }
}

// The first numbers of a row of any lane. LLVM makes a plain copy of it where the lanes are the same.
fn fill_numbers<A: Lane, L: Lane>(to: &mut [L], numbers: &[A]) {
    for t in 0..to.len().min(numbers.len()) {
        to[t] = L::cut(numbers[t].word());
    }
}

fn fill_row<L: Lane>(to: &mut [L], row: &Row) {
    match row {
        Row::Narrow(numbers) => fill_numbers(to, numbers),
        Row::Middle(numbers) => fill_numbers(to, numbers),
        Row::Wide(numbers) => fill_numbers(to, numbers),
    }
}

// The values of a source.
fn fill_source<L: Lane>(to: &mut [L], source: ValueSource<'_>) {
    match source {
        ValueSource::Row(row) => fill_row(to, row),
        ValueSource::Number(value) => fill_same(to, value),
    }
}

// The contents of a register, and then the values of a source, one clock later.
pub(crate) fn fill_shift<L: Lane>(to: &mut [L], source: ValueSource<'_>, stored: u64) {
    let (first, later) = to.split_at_mut(to.len().min(1));
    fill_same(first, stored);
    fill_source(later, source);
}

// The word at an index, 0 outside.
fn word_at(words: &[u64], index: u64) -> u64 {
    if index < words.len() as u64 {
        words[index as usize]
    } else {
        0
    }
}

fn put_word(words: &mut [u64], index: u64, value: u64) {
    if index < words.len() as u64 {
        words[index as usize] = value;
    }
}

fn read_at<I: Lane, L: Lane>(to: &mut [L], index: &[I], words: &[u64]) {
    for t in 0..to.len().min(index.len()) {
        to[t] = L::cut(word_at(words, index[t].word()));
    }
}

fn read_row<L: Lane>(to: &mut [L], index: &Row, words: &[u64]) {
    match index {
        Row::Narrow(index) => read_at(to, index, words),
        Row::Middle(index) => read_at(to, index, words),
        Row::Wide(index) => read_at(to, index, words),
    }
}

// What is read of words that stay as they are.
pub(crate) fn fill_read<L: Lane>(to: &mut [L], index: ValueSource<'_>, words: &[u64]) {
    match index {
        ValueSource::Row(index) => read_row(to, index, words),
        ValueSource::Number(index) => fill_same(to, word_at(words, index)),
    }
}

// How an array is read and written: at each clock its word at `read`, and then `value` is put at `index` where `bit` is 1.
#[derive(Clone, Copy)]
pub(crate) struct Writes<'a> {
    pub(crate) written: WriteForm,
    pub(crate) read: ValueSource<'a>,
    pub(crate) index: ValueSource<'a>,
    pub(crate) bit: ValueSource<'a>,
    pub(crate) value: ValueSource<'a>,
    // What a copying register stores before the batch.
    pub(crate) copy: u64,
}

// In the lanes of nearly all designs. `put_of` serves the others.
fn put_in<L: Lane>(to: &mut [L], read: &[u16], index: &[u16], value: &[L], words: &mut [u64]) {
    let count = to.len().min(read.len()).min(index.len()).min(value.len());
    for t in 0..count {
        to[t] = L::cut(word_at(words, read[t].word()));
        put_word(words, index[t].word(), value[t].word());
    }
}

fn put_of<L: Lane>(to: &mut [L], writes: &Writes<'_>, words: &mut [u64]) {
    for t in 0..to.len() {
        to[t] = L::cut(word_at(words, writes.read.at(t)));
        put_word(words, writes.index.at(t), writes.value.at(t));
    }
}

// What is read of words of which one is put at each clock. A single word is a register.
fn fill_put<L: Lane>(to: &mut [L], writes: &Writes<'_>, words: &mut [u64]) {
    if words.len() == 1 {
        return fill_shift(to, writes.value, words[0]);
    }
    match (
        writes.read.numbers(),
        writes.index.numbers(),
        writes.value.numbers(),
    ) {
        (Some(read), Some(index), Some(value)) => put_in(to, read, index, value, words),
        _ => put_of(to, writes, words),
    }
}

fn choice_in<L: Lane>(to: &mut [L], index: &[u16], bit: &[u16], value: &[L], words: &mut [u64]) {
    let count = to.len().min(index.len()).min(bit.len()).min(value.len());
    for t in 0..count {
        let place = index[t].word();
        to[t] = L::cut(word_at(words, place));
        if bit[t] == 1 {
            put_word(words, place, value[t].word());
        }
    }
}

fn choice_of<L: Lane>(to: &mut [L], writes: &Writes<'_>, words: &mut [u64]) {
    for t in 0..to.len() {
        let place = writes.read.at(t);
        to[t] = L::cut(word_at(words, place));
        if writes.bit.at(t) == 1 {
            put_word(words, place, writes.value.at(t));
        }
    }
}

// What is read of words of which one, at the index of the read, takes another value where a bit is 1. A single word is a register.
fn fill_choice<L: Lane>(to: &mut [L], writes: &Writes<'_>, words: &mut [u64]) {
    if words.len() == 1 {
        return fill_load(to, writes.bit, writes.value, words[0]);
    }
    match (
        writes.read.numbers(),
        writes.bit.numbers(),
        writes.value.numbers(),
    ) {
        (Some(index), Some(bit), Some(value)) => choice_in(to, index, bit, value, words),
        _ => choice_of(to, writes, words),
    }
}

// The numbers of an array that is written by a copying register, in the lanes of nearly all designs.
#[derive(Drop)]
struct CopyRows<'a, L> {
    read: &'a [u16],
    index: &'a [u16],
    bit: &'a [u16],
    value: &'a [L],
}

fn copy_in<L: Lane>(to: &mut [L], rows: &CopyRows<'_, L>, words: &mut [u64], copy: u64) {
    let (read, index, bit, value) = (rows.read, rows.index, rows.bit, rows.value);
    let mut copy = copy;
    let count = to.len().min(read.len()).min(index.len()).min(bit.len());
    for t in 0..count.min(value.len()) {
        let word = word_at(words, read[t].word());
        to[t] = L::cut(word);
        if bit[t] == 1 {
            put_word(words, index[t].word(), value[t].word());
            copy = word;
        } else {
            put_word(words, index[t].word(), copy);
        }
    }
}

fn copy_of<L: Lane>(to: &mut [L], writes: &Writes<'_>, words: &mut [u64]) {
    let mut copy = writes.copy;
    for t in 0..to.len() {
        let word = word_at(words, writes.read.at(t));
        to[t] = L::cut(word);
        if writes.bit.at(t) == 1 {
            put_word(words, writes.index.at(t), writes.value.at(t));
            copy = word;
        } else {
            put_word(words, writes.index.at(t), copy);
        }
    }
}

// What is read of words of which one is put at each clock: a value where a bit is 1, else what was read when the bit was 1 last, at
// first the contents of the copying register.
fn fill_copy<L: Lane>(to: &mut [L], writes: &Writes<'_>, words: &mut [u64]) {
    let (Some(read), Some(index), Some(bit), Some(value)) = (
        writes.read.numbers(),
        writes.index.numbers(),
        writes.bit.numbers(),
        writes.value.numbers(),
    ) else {
        copy_of(to, writes, words);
        return;
    };
    let rows = CopyRows {
        read,
        index,
        bit,
        value,
    };
    copy_in(to, &rows, words, writes.copy);
}

// What is read of words that are written clock by clock.
pub(crate) fn fill_written<L: Lane>(to: &mut [L], writes: &Writes<'_>, words: &mut [u64]) {
    match writes.written {
        WriteForm::Put => fill_put(to, writes, words),
        WriteForm::Choice => fill_choice(to, writes, words),
        WriteForm::Copy => fill_copy(to, writes, words),
    }
}

// After each clock in which a bit is not 1, the number before again.
fn keep_where<L: Lane>(to: &mut [L], bit: &[u16]) {
    for t in 0..to.len().saturating_sub(1).min(bit.len()) {
        if bit[t] != 1 {
            to[t + 1] = to[t];
        }
    }
}

// All numbers are copied first, as vectors: most bits are 1.
fn load_in<L: Lane>(to: &mut [L], bit: &[u16], value: &[L], stored: u64) {
    let (first, later) = to.split_at_mut(to.len().min(1));
    fill_same(first, stored);
    fill_numbers(later, value);
    keep_where(to, bit);
}

fn load_of<L: Lane>(to: &mut [L], bit: ValueSource<'_>, value: ValueSource<'_>, stored: u64) {
    let mut number = stored;
    for t in 0..to.len() {
        to[t] = L::cut(number);
        if bit.at(t) == 1 {
            number = value.at(t);
        }
    }
}

// The contents of a register, and then what a source has one clock later where a bit is 1, else the number before.
pub(crate) fn fill_load<L: Lane>(
    to: &mut [L],
    bit: ValueSource<'_>,
    value: ValueSource<'_>,
    stored: u64,
) {
    match (bit.numbers(), value.numbers()) {
        (Some(bit), Some(value)) => load_in(to, bit, value, stored),
        _ => load_of(to, bit, value, stored),
    }
}

// Numbers from a first one on, each 1 more than the one before.
fn line_on<L: Lane>(to: &mut [L], first: u64) {
    let mut next = L::cut(first);
    for t in 0..to.len() {
        to[t] = next;
        next = next.sum(L::bit(true));
    }
}

// Numbers from a first one on, which grow as a row of counts does. No number depends on the one before, so that LLVM makes vector
// code of it.
fn line_where<L: Lane>(to: &mut [L], first: u64, steps: &[u16]) {
    let before = match steps.first() {
        Some(steps) => L::cut(steps.word()),
        None => L::cut(0),
    };
    let first = L::cut(first).difference(before);
    for t in 0..to.len().min(steps.len()) {
        to[t] = first.sum(L::cut(steps[t].word()));
    }
}

// The first place before which this many steps were taken since the first one. There are at least as many places before it.
fn place_after(steps: &[u16], count: usize) -> usize {
    let before = match steps.first() {
        Some(steps) => *steps,
        None => 0,
    };
    for t in count.min(steps.len())..steps.len() {
        if steps[t].saturating_sub(before) as usize >= count {
            return t;
        }
    }
    steps.len()
}

// How many places the first part of a line has: those of one value, or of a counter those up to its last value.
fn places_upto(line: Line, steps: Option<&[u16]>) -> usize {
    if line.habit.stay == 1 && line.value > line.habit.last {
        return usize::MAX;
    }
    let count = if line.habit.stay == 1 {
        ((line.habit.last - line.value) as usize).saturating_add(1)
    } else {
        line.habit.stay
    };
    match steps {
        Some(steps) => place_after(steps, count),
        None => count,
    }
}

// A line from a place on, part by part.
fn parts<L: Lane>(to: &mut [L], first: usize, line: Line, steps: Option<&[u16]>) {
    let mut line = line;
    let mut from = first;
    for _part in 0..to.len() {
        if from >= to.len() {
            return;
        }
        let later = match steps {
            Some(steps) => Some(steps.split_at(from.min(steps.len())).1),
            None => None,
        };
        let upto = from.saturating_add(places_upto(line, later)).min(to.len());
        match later {
            _ if line.habit.stay != 1 => fill_same(&mut to[from..upto], line.value),
            Some(steps) => line_where(&mut to[from..upto], line.value, steps),
            None => line_on(&mut to[from..upto], line.value),
        }
        line.value = if line.habit.stay == 1 || line.value == line.habit.last {
            line.habit.first
        } else {
            line.value.saturating_add(1)
        };
        from = upto;
    }
}

// How often a bit was 1 before each clock.
pub(crate) fn count_steps(to: &mut [u16], bits: &[u16]) {
    let mut steps = u16::cut(0);
    for t in 0..to.len().min(bits.len()) {
        to[t] = steps;
        steps = steps.sum(bits[t]);
    }
}

// The first this many places of a row, and then a line, of which a row counts the steps, if it does not take one in each clock.
pub(crate) fn fill_line<L: Lane>(
    to: &mut [L],
    row: ValueSource<'_>,
    first: usize,
    line: Line,
    steps: Option<&[u16]>,
) {
    let (front, _) = to.split_at_mut(first.min(to.len()));
    fill_source(front, row);
    parts(to, first, line, steps);
}

// The port en in the clocks from a first one on.
pub(crate) fn fill_enable<L: Lane>(to: &mut [L], enables: &[bool], first: usize) {
    let (_, enables) = enables.split_at(first.min(enables.len()));
    for t in 0..to.len().min(enables.len()) {
        to[t] = L::bit(enables[t]);
    }
}

// Each number at a stride, from the first one on.
fn fill_strides<L: Lane>(to: &mut [L], numbers: &[u64], stride: usize) {
    let mut place: usize = 0;
    for t in 0..to.len() {
        to[t] = L::cut(word_at(numbers, place as u64));
        place = place.saturating_add(stride);
    }
}

// Each number at a stride, from a place on.
pub(crate) fn fill_dins<L: Lane>(to: &mut [L], numbers: &[u64], first: usize, stride: usize) {
    let (_, numbers) = numbers.split_at(first.min(numbers.len()));
    if stride == 1 {
        fill_numbers(to, numbers);
    } else {
        fill_strides(to, numbers, stride);
    }
}

// Whether the first numbers of two rows differ anywhere. Without an early return, so that LLVM makes vector code of it.
fn differ<L: Lane>(a: &[L], b: &[L]) -> bool {
    let mut apart = L::cut(0);
    for t in 0..a.len().min(b.len()) {
        apart = apart.either(a[t].apart(b[t]));
    }
    apart.word() != 0
}

// How many numbers `alike` compares as vectors at a time.
const FEW: usize = 32;

// How many of the first numbers of two rows are the same: a multiple of `FEW`.
fn alike<L: Lane>(a: &[L], b: &[L]) -> usize {
    let many = a.len().min(b.len()) / FEW;
    for few in 0..many {
        let first = few * FEW;
        if differ(&a[first..first + FEW], &b[first..first + FEW]) {
            return first;
        }
    }
    many * FEW
}

fn first_unlike<L: Lane>(a: &[L], b: &[L], count: usize) -> usize {
    for t in alike(a, b)..a.len().min(b.len()) {
        if !a[t].is_same(b[t]) {
            return t;
        }
    }
    count
}

// The first of `count` clocks at which a row is not another one of its lane, one clock later.
fn apart_in<L: Lane>(row: &[L], next: &[L], count: usize) -> usize {
    let (_, later) = row.split_at(row.len().min(1));
    let (next, _) = next.split_at(next.len().min(count));
    if differ(later, next) {
        first_unlike(later, next, count)
    } else {
        count
    }
}

fn apart_of(row: ValueSource<'_>, next: ValueSource<'_>, count: usize) -> usize {
    for t in 0..count {
        if row.at(t.saturating_add(1)) != next.at(t) {
            return t;
        }
    }
    count
}

// In the row's own lane where the other one has it too, else number by number.
fn apart_from<L: Lane>(row: &[L], whole: &Row, next: ValueSource<'_>, count: usize) -> usize {
    match next.numbers() {
        Some(next) => apart_in(row, next, count),
        None => apart_of(ValueSource::Row(whole), next, count),
    }
}

// The first of `count` clocks at which a row is not a source, one clock later.
pub(crate) fn first_apart(row: &Row, next: ValueSource<'_>, count: usize) -> usize {
    match row {
        Row::Narrow(numbers) => apart_from(numbers, row, next, count),
        Row::Middle(numbers) => apart_from(numbers, row, next, count),
        Row::Wide(numbers) => apart_from(numbers, row, next, count),
    }
}
