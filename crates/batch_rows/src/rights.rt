// The rows of right sides over slots.

ghost use Rattle.std.specs.Prelude.{◌≡◌, ℕ, ◌+◌, ◌-◌, ◌*◌, ◌/◌, ◌%◌, ◌^◌, ◌<◌, ◌≤◌, [], length, map, IfOk, IfSome, IfNone, slice_index, slice_index_or};
ghost use Rattle.wiring.specs.Rights.{atom_width};
ghost use Rattle.wiring.specs.declared.right.Atom.TheVariants.{Net, Constant as Fixed};
ghost use Rattle.wiring.specs.declared.right.Right.TheVariants.{Copy, Not, Binary, Choose, Join, Repeat, Bit, Slice};
ghost use Rattle.lane_rows.specs.Values.{value_at, numbers_in, row_values, values_of};
ghost use Rattle.batch_rows.specs.Rows.{IsWritten};
ghost use Rattle.batch_rows.specs.Rights.{HasRow, IsOperand, IsAtomRow, HaveRoom, IsWidthOf, IsRowOf, CanRead, IsRowOfOperand, IsFilled, CanReadOperand, CanMake, IsMade, CanChoose, IsChosen};

use crate::choices::{choose_number_row, choose_or_number_row, choose_row};
use crate::pairs::{join_number_row, join_row, operator_number_row, operator_row};
use crate::singles::{
    MaskedBits, Turned, Whole, constant_row, lane_of, mask_of, repeat_row, single_row,
};
use lane_rows::{Lane, Numbers, Row, copy_words, first_numbers, first_of, widen_row};
use std::alloc::{AllocError, Global};
use wiring::{Atom, Constant, Operator, Right, Width};

/// The width and the row of each slot.
#[derive(Clone, Copy)]
pub struct Slots<'a> {
    pub widths: &'a [Width],
    pub rows: &'a [Row],
}

/// An atom over the first clocks of the rows of the slots.
#[derive(Clone, Copy)]
pub struct Operand<'a> {
    pub rows: &'a [Row],
    pub atom: &'a Atom<usize>,
    pub count: usize,
}

/// Room for the rows of the operands of a right side that are in no row of this lane: constants, and slots of other lanes.
#[derive(Drop)]
pub struct Spares<L> {
    pub(crate) first: Vec<L>,
    pub(crate) second: Vec<L>,
    pub(crate) third: Vec<L>,
}

impl<L: Lane> Spares<L> {
    /// Room for rows of this many clocks.
    pub fn new(alloc: Global, count: usize) -> Result<Spares<L>, AllocError>
        ensures { IfOk result (λ s. HaveRoom s count) }
    {
        let first = vec![in alloc; L::cut(0); count]?;
        let second = vec![in alloc; L::cut(0); count]?;
        let third = vec![in alloc; L::cut(0); count]?;
        Ok(Spares {
            first,
            second,
            third,
        })
    }
}

pub(crate) fn slot_width(widths: &[Width], slot: usize) -> u8
    ensures { IsWidthOf (slice_index widths.now slot) result }
{
    match widths.get(slot) {
        Some(width) => width.bits(),
        None => 0,
    }
}

pub(crate) fn width_of(widths: &[Width], a: &Atom<usize>) -> u8
    ensures { IsWidthOf (atom_width (λ n. slice_index widths.now n) a.now) result }
{
    match a {
        Atom::Net(n) => slot_width(widths, *n),
        Atom::Constant(c) => c.width(),
    }
}

fn row_at(rows: &[Row], slot: usize) -> &Row
    requires { slot < length rows.now }
    ensures { row_values result.now ≡ slice_index_or (values_of rows.now) slot [] }
{
    &rows[slot]
}

// The row of an atom, if it is one in this lane.
fn own_row<'a, L: Lane>(rows: &'a [Row], a: &Atom<usize>, count: usize) -> Option<&'a [L]>
    requires { HasRow (values_of rows.now) count a.now }
    ensures { IfSome result (λ r. IsRowOf L.value (values_of rows.now) a.now count r.now) }
{
    match a {
        Atom::Net(n) => match L::of_row(row_at(rows, *n)) {
            Some(row) => Some(first_of(row, count)),
            None => None,
        },
        Atom::Constant(_) => None,
    }
}

// A row becomes that of an atom.
fn fill_atom<L: Lane>(rows: &[Row], to: &mut [L], a: &Atom<usize>)
    requires { IsOperand L.bits (values_of rows.now) (length to.old) a.now }
    ensures { IsRowOf L.value (values_of rows.now) a.now (length to.old) to.new }
{
    match a {
        Atom::Net(n) => widen_row(to, row_at(rows, *n)),
        Atom::Constant(c) => constant_row(to, L::cut(c.value())),
    }
}

// A row of words becomes that of an atom.
fn fill_words(rows: &[Row], to: &mut [u64], a: &Atom<usize>)
    requires a { HasRow (values_of rows.now) (length to.old) a.now }
    ensures count { length to.new ≡ length to.old }
    ensures row { IsAtomRow (values_of rows.now) a.now (length to.old) to.new }
{
    match a {
        Atom::Net(n) => copy_words(to, row_at(rows, *n)),
        Atom::Constant(c) => constant_words(to, c.value()),
    }
}

fn constant_words(to: &mut [u64], number: u64)
    ensures count { length to.new ≡ length to.old }
    ensures each { (t : ℕ) → t < length to.old → slice_index to.new t ≡ number }
{
    for t in 0..to.len() {
        to[t] = number;
    }
}

/// The first words of a row become those of an atom.
pub fn atom_words(rows: &[Row], to: &mut [u64], a: &Atom<usize>, count: usize)
    requires a { HasRow (values_of rows.now) count a.now }
    requires room { count ≤ length to.old }
    ensures count { length to.new ≡ length to.old }
    ensures row { IsAtomRow (values_of rows.now) a.now count to.new }
{
    fill_words(rows, to.split_at_mut(count).0, a);
}

/// The slot whose own row serves as that of an atom, if it is to; where there is none, the first words of a spare row become those
/// of the atom.
pub fn note_words(
    rows: &[Row],
    spare: &mut Vec<u64>,
    a: &Atom<usize>,
    own: bool,
    count: usize,
) -> Option<usize>
    requires a { HasRow (values_of rows.now) count a.now }
    requires room { count ≤ length spare.old.items }
    ensures spare { length spare.new.items ≡ length spare.old.items }
    ensures own { IfSome result (λ n. a.now ≡ Net n) }
    ensures filled { IfNone result (IsAtomRow (values_of rows.now) a.now count spare.new.items) }
{
    if own {
        if let Atom::Net(n) = a {
            return Some(*n);
        }
    }
    atom_words(rows, spare, a, count);
    None
}

/// The numbers of an atom: those of its own row, or a spare row's.
pub fn atom_numbers<'a>(
    rows: &'a [Row],
    own: Option<usize>,
    spare: &'a [u64],
    a: &Atom<usize>,
    count: usize,
) -> Numbers<'a>
    requires a { HasRow (values_of rows.now) count a.now }
    requires room { count ≤ length spare.now }
    requires own { IfSome own (λ n. a.now ≡ Net n) }
    requires filled { IfNone own (IsAtomRow (values_of rows.now) a.now count spare.now) }
    ensures count { length (numbers_in result) ≡ count }
    ensures row { IsAtomRow (values_of rows.now) a.now count (numbers_in result) }
{
    match own {
        Some(_) => match a {
            Atom::Net(slot) => first_numbers(row_at(rows, *slot), count),
            Atom::Constant(_) => unreachable!(),
        },
        None => Numbers::Wide(first_of(spare, count)),
    }
}

/// Where an atom has no row in this lane, a spare row becomes its row.
#[tactic(auto, using(lane_rows::proofs::LaneRows::first_part))]
pub fn note_atom<'a, L: Lane>(operand: &Operand<'a>, spare: &mut [L]) -> Option<&'a [L]>
    requires { CanReadOperand L.bits operand.now (length spare.old) }
    ensures spare { length spare.new ≡ length spare.old }
    ensures own { IfSome result (λ r. IsRowOfOperand L.value operand.now r.now) }
    ensures filled { IfNone result (IsFilled L.value operand.now spare.new) }
{
    if let Some(row) = own_row(operand.rows, operand.atom, operand.count) {
        return Some(row);
    }
    fill_atom(
        operand.rows,
        spare.split_at_mut(operand.count).0,
        operand.atom,
    );
    None
}

/// The row of an atom: its own one, or the spare row.
pub fn atom_row<'a, L: Lane>(operand: &Operand<'_>, own: Option<&'a [L]>, spare: &'a [L]) -> &'a [L]
    requires room { operand.now.count ≤ length spare.now }
    requires own { IfSome own (λ r. IsRowOfOperand L.value operand.now r.now) }
    requires filled { IfNone own (IsFilled L.value operand.now spare.now) }
    ensures { IsRowOfOperand L.value operand.now result.now }
{
    match own {
        Some(row) => row,
        None => first_of(spare, operand.count),
    }
}

// The atom itself.
fn copy_row<L: Lane>(slots: &Slots<'_>, spares: &mut Spares<L>, a: &Atom<usize>, to: &mut [L])
    requires { CanMake L.bits slots.now spares.old to.old (Copy a.now) }
    ensures { IsMade L.value slots.now (Copy a.now) spares.old spares.new to.old to.new }
{
    let operand = Operand {
        rows: slots.rows,
        atom: a,
        count: to.len(),
    };
    let own = note_atom(&operand, &mut spares.first);
    let row = atom_row(&operand, own, &spares.first);
    single_row(&Whole, to, row);
}

// All bits of an atom turned.
fn not_row<L: Lane>(slots: &Slots<'_>, spares: &mut Spares<L>, a: &Atom<usize>, to: &mut [L])
    requires { CanMake L.bits slots.now spares.old to.old (Not a.now) }
    ensures { IsMade L.value slots.now (Not a.now) spares.old spares.new to.old to.new }
{
    let mask = mask_of(width_of(slots.widths, a));
    let operand = Operand {
        rows: slots.rows,
        atom: a,
        count: to.len(),
    };
    let own = note_atom(&operand, &mut spares.first);
    let row = atom_row(&operand, own, &spares.first);
    single_row(&Turned { mask }, to, row);
}

// An atom under an operator with a number.
fn binary_number_row<L: Lane>(
    slots: &Slots<'_>,
    spares: &mut Spares<L>,
    op: Operator,
    a: &Atom<usize>,
    number: Constant,
    to: &mut [L],
)
    requires { CanMake L.bits slots.now spares.old to.old (Binary op a.now (Fixed number)) }
    ensures { IsMade L.value slots.now (Binary op a.now (Fixed number)) spares.old spares.new to.old to.new }
{
    let width = width_of(slots.widths, a);
    let operand = Operand {
        rows: slots.rows,
        atom: a,
        count: to.len(),
    };
    let own = note_atom(&operand, &mut spares.first);
    let row = atom_row(&operand, own, &spares.first);
    operator_number_row(op, width, to, row, lane_of(number.value()));
}

// Two atoms under an operator. A constant that is second needs no row.
fn binary_row<L: Lane>(
    slots: &Slots<'_>,
    spares: &mut Spares<L>,
    op: Operator,
    a: &Atom<usize>,
    b: &Atom<usize>,
    to: &mut [L],
)
    requires { CanMake L.bits slots.now spares.old to.old (Binary op a.now b.now) }
    ensures { IsMade L.value slots.now (Binary op a.now b.now) spares.old spares.new to.old to.new }
{
    if let Atom::Constant(number) = b {
        return binary_number_row(slots, spares, op, a, *number, to);
    }
    let count = to.len();
    let width = width_of(slots.widths, a);
    let first = Operand {
        rows: slots.rows,
        atom: a,
        count,
    };
    let second = Operand {
        rows: slots.rows,
        atom: b,
        count,
    };
    let own_a = note_atom(&first, &mut spares.first);
    let own_b = note_atom(&second, &mut spares.second);
    let left = atom_row(&first, own_a, &spares.first);
    let right = atom_row(&second, own_b, &spares.second);
    operator_row(op, width, to, left, right);
}

// At each clock a number, or else an atom, by a row of bits.
fn number_or_row<L: Lane, B: Lane>(
    rows: &[Row],
    spare: &mut [L],
    bit: &[B],
    number: Constant,
    b: &Atom<usize>,
    to: &mut [L],
)
    requires choice { CanChoose L.bits (values_of rows.now) to.old bit.now (Fixed number) b.now }
    requires room { length to.old ≤ length spare.old }
    ensures spare { length spare.new ≡ length spare.old }
    ensures row { IsChosen L.value B.value (values_of rows.now) bit.now (Fixed number) b.now to.old to.new }
{
    let operand = Operand {
        rows,
        atom: b,
        count: to.len(),
    };
    let own = note_atom(&operand, spare);
    let off = atom_row(&operand, own, spare);
    choose_number_row(to, bit, lane_of(number.value()), off);
}

// At each clock an atom, or else a number, by a row of bits.
fn row_or_number<L: Lane, B: Lane>(
    rows: &[Row],
    spare: &mut [L],
    bit: &[B],
    a: &Atom<usize>,
    number: Constant,
    to: &mut [L],
)
    requires choice { CanChoose L.bits (values_of rows.now) to.old bit.now a.now (Fixed number) }
    requires room { length to.old ≤ length spare.old }
    ensures spare { length spare.new ≡ length spare.old }
    ensures row { IsChosen L.value B.value (values_of rows.now) bit.now a.now (Fixed number) to.old to.new }
{
    let operand = Operand {
        rows,
        atom: a,
        count: to.len(),
    };
    let own = note_atom(&operand, spare);
    let on = atom_row(&operand, own, spare);
    choose_or_number_row(to, bit, on, lane_of(number.value()));
}

// The two atoms of a choice: that where its bit is 1, and that where it is not.
#[derive(Clone, Copy)]
struct Branches<'a> {
    on: &'a Atom<usize>,
    off: &'a Atom<usize>,
}

// At each clock one of two atoms, by a row of bits. A constant among the two needs no row.
fn chosen_by<L: Lane, B: Lane>(
    rows: &[Row],
    first: &mut [L],
    second: &mut [L],
    bit: &[B],
    branches: &Branches<'_>,
    to: &mut [L],
)
    requires choice { CanChoose L.bits (values_of rows.now) to.old bit.now branches.now.on.now branches.now.off.now }
    requires first { length to.old ≤ length first.old }
    requires second { length to.old ≤ length second.old }
    ensures first { length first.new ≡ length first.old }
    ensures second { length second.new ≡ length second.old }
    ensures row { IsChosen L.value B.value (values_of rows.now) bit.now branches.now.on.now branches.now.off.now to.old to.new }
{
    let a = branches.on;
    let b = branches.off;
    if let Atom::Constant(number) = a {
        return number_or_row(rows, second, bit, *number, b, to);
    }
    if let Atom::Constant(number) = b {
        return row_or_number(rows, first, bit, a, *number, to);
    }
    let count = to.len();
    let one = Operand {
        rows,
        atom: a,
        count,
    };
    let other = Operand {
        rows,
        atom: b,
        count,
    };
    let own_a = note_atom(&one, first);
    let own_b = note_atom(&other, second);
    let on = atom_row(&one, own_a, first);
    let off = atom_row(&other, own_b, second);
    choose_row(to, bit, on, off);
}

// The row of an atom in the narrow lane, where nearly all bits are.
fn narrow_row<'a>(rows: &'a [Row], a: &Atom<usize>, count: usize) -> Option<&'a [u16]>
    requires { HasRow (values_of rows.now) count a.now }
    ensures { IfSome result (λ r. IsRowOf (λ n. n) (values_of rows.now) a.now count r.now) }
{
    own_row(rows, a, count)
}

// At each clock one of two atoms, by a third, whose row is read in its own lane where that is the narrow one.
fn chosen_row<L: Lane>(
    slots: &Slots<'_>,
    spares: &mut Spares<L>,
    c: &Atom<usize>,
    a: &Atom<usize>,
    b: &Atom<usize>,
    to: &mut [L],
)
    requires { CanMake L.bits slots.now spares.old to.old (Choose c.now a.now b.now) }
    ensures { IsMade L.value slots.now (Choose c.now a.now b.now) spares.old spares.new to.old to.new }
{
    let rows = slots.rows;
    let count = to.len();
    let branches = Branches { on: a, off: b };
    if let Some(bit) = narrow_row(rows, c, count) {
        return chosen_by(
            rows,
            &mut spares.first,
            &mut spares.second,
            bit,
            &branches,
            to,
        );
    }
    let operand = Operand {
        rows,
        atom: c,
        count,
    };
    let own = note_atom(&operand, &mut spares.third);
    let bit = atom_row(&operand, own, &spares.third);
    chosen_by(
        rows,
        &mut spares.first,
        &mut spares.second,
        bit,
        &branches,
        to,
    );
}

// This many bits of a slot, from a place on.
#[tactic(auto, using(crate::proofs::Masks::part_is))]
fn part_row<L: Lane>(rows: &[Row], spare: &mut [L], slot: usize, from: u8, width: u8, to: &mut [L])
    requires slot { CanRead L.bits (values_of rows.now) (length to.old) (length spare.old) (Net slot) }
    requires from { from < L.bits }
    requires narrow { width ≤ L.bits }
    ensures spare { length spare.new ≡ length spare.old }
    ensures row { IsWritten L.value to.old to.new (λ t. value_at (values_of rows.now) t slot / 2 ^ from % 2 ^ width) }
{
    let mask = mask_of(width);
    let net = Atom::Net(slot);
    let operand = Operand {
        rows,
        atom: &net,
        count: to.len(),
    };
    let own = note_atom(&operand, spare);
    let row = atom_row(&operand, own, spare);
    single_row(&MaskedBits { from, mask }, to, row);
}

// A number above an atom.
fn number_above_row<L: Lane>(
    slots: &Slots<'_>,
    spares: &mut Spares<L>,
    number: Constant,
    b: &Atom<usize>,
    to: &mut [L],
)
    requires { CanMake L.bits slots.now spares.old to.old (Join (Fixed number) b.now) }
    ensures { IsMade L.value slots.now (Join (Fixed number) b.now) spares.old spares.new to.old to.new }
{
    let width = width_of(slots.widths, b);
    let operand = Operand {
        rows: slots.rows,
        atom: b,
        count: to.len(),
    };
    let own = note_atom(&operand, &mut spares.second);
    let below = atom_row(&operand, own, &spares.second);
    join_number_row(width, to, lane_of(number.value()), below);
}

// An atom above another one. A constant that is above needs no row.
fn joined_row<L: Lane>(
    slots: &Slots<'_>,
    spares: &mut Spares<L>,
    a: &Atom<usize>,
    b: &Atom<usize>,
    to: &mut [L],
)
    requires { CanMake L.bits slots.now spares.old to.old (Join a.now b.now) }
    ensures { IsMade L.value slots.now (Join a.now b.now) spares.old spares.new to.old to.new }
{
    if let Atom::Constant(number) = a {
        return number_above_row(slots, spares, *number, b, to);
    }
    let count = to.len();
    let width = width_of(slots.widths, b);
    let first = Operand {
        rows: slots.rows,
        atom: a,
        count,
    };
    let second = Operand {
        rows: slots.rows,
        atom: b,
        count,
    };
    let own_a = note_atom(&first, &mut spares.first);
    let own_b = note_atom(&second, &mut spares.second);
    let above = atom_row(&first, own_a, &spares.first);
    let below = atom_row(&second, own_b, &spares.second);
    join_row(width, to, above, below);
}

// Copies of an atom, one above the other.
fn repeated_row<L: Lane>(
    slots: &Slots<'_>,
    spares: &mut Spares<L>,
    copies: u8,
    a: &Atom<usize>,
    to: &mut [L],
)
    requires { CanMake L.bits slots.now spares.old to.old (Repeat copies a.now) }
    ensures { IsMade L.value slots.now (Repeat copies a.now) spares.old spares.new to.old to.new }
{
    let width = width_of(slots.widths, a);
    let operand = Operand {
        rows: slots.rows,
        atom: a,
        count: to.len(),
    };
    let own = note_atom(&operand, &mut spares.first);
    let row = atom_row(&operand, own, &spares.first);
    repeat_row(copies, width, to, row);
}

// A bit of a slot.
fn bit_row<L: Lane>(
    slots: &Slots<'_>,
    spares: &mut Spares<L>,
    slot: usize,
    place: u64,
    to: &mut [L],
)
    requires { CanMake L.bits slots.now spares.old to.old (Bit slot place) }
    ensures { IsMade L.value slots.now (Bit slot place) spares.old spares.new to.old to.new }
{
    let _most = slot_width(slots.widths, slot);
    part_row(slots.rows, &mut spares.first, slot, place as u8, 1, to);
}

// Bits of a slot, from a place up to a higher one.
fn slice_row<L: Lane>(
    slots: &Slots<'_>,
    spares: &mut Spares<L>,
    slot: usize,
    high: u64,
    low: u64,
    to: &mut [L],
)
    requires { CanMake L.bits slots.now spares.old to.old (Slice slot high low) }
    ensures { IsMade L.value slots.now (Slice slot high low) spares.old spares.new to.old to.new }
{
    let _most = slot_width(slots.widths, slot);
    part_row(
        slots.rows,
        &mut spares.first,
        slot,
        low as u8,
        (high - low + 1) as u8,
        to,
    );
}

/// The row of a right side that reads no array, from the rows of its slots.
pub fn right_row<L: Lane>(
    slots: &Slots<'_>,
    spares: &mut Spares<L>,
    right: &Right<usize, usize>,
    to: &mut [L],
)
    requires { CanMake L.bits slots.now spares.old to.old right.now }
    ensures { IsMade L.value slots.now right.now spares.old spares.new to.old to.new }
{
    match right {
        Right::Copy(a) => copy_row(slots, spares, a, to),
        Right::Not(a) => not_row(slots, spares, a, to),
        Right::Binary(op, a, b) => binary_row(slots, spares, *op, a, b, to),
        Right::Choose(c, a, b) => chosen_row(slots, spares, c, a, b, to),
        Right::Join(a, b) => joined_row(slots, spares, a, b, to),
        Right::Repeat(copies, a) => repeated_row(slots, spares, *copies, a, to),
        Right::Bit(v, k) => bit_row(slots, spares, *v, *k, to),
        Right::Slice(v, m, l) => slice_row(slots, spares, *v, *m, *l, to),
        Right::Word(_, _) => unreachable!(),
    }
}
