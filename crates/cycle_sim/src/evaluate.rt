// What a right side over slots is worth.
ghost use Rattle.std.specs.Prelude.{◌≡◌, ◌+◌, ◌-◌, ◌*◌, ◌/◌, ◌%◌, ◌^◌, ◌<◌, ◌≤◌, slice_index};
ghost use Rattle.wiring.specs.Rights.{atom_value, atom_width, operator_value, repeated};
ghost use Rattle.cycle_sim.specs.Slots.{word_at, words_of};
ghost use Rattle.cycle_sim.specs.Code.{slots_value, CanEvaluate};

use netlist::{Atom, Right, Width};
use wiring::{join_value, limit, low_bits, operator_value};

// The value of an atom over slots.
pub fn atom(values: &[u64], a: &Atom<usize>) -> u64
    ensures { result ≡ atom_value (λ n. slice_index values.now n) a.now }
{
    match a {
        Atom::Net(n) => values.get(*n).copied().unwrap_or(0),
        Atom::Constant(c) => c.value(),
    }
}

fn slot_width(widths: &[Width], slot: usize) -> u8
    ensures { result ≡ slice_index widths.now slot }
{
    match widths.get(slot) {
        Some(width) => width.bits(),
        None => 0,
    }
}

fn width_of(widths: &[Width], a: &Atom<usize>) -> u8
    ensures { result ≡ atom_width (λ n. slice_index widths.now n) a.now }
{
    match a {
        Atom::Net(n) => slot_width(widths, *n),
        Atom::Constant(c) => c.width(),
    }
}

// Copies of a number of some bits, one above the other.
fn copies(count: u8, width: u8, a: u64) -> u64
    requires narrow { width ≤ 64 }
    requires fits { repeated count width a < 2 ^ 64 }
    ensures { result ≡ repeated count width a }
{
    let mut all: u64 = 0;
    for _i in 0..count {
        all = (all as u128 * limit(width) + a as u128) as u64;
    }
    all
}

fn bit(value: u64, at: u64) -> u64
    requires { at < 64 }
    ensures { result ≡ value / 2 ^ at % 2 }
{
    (value >> at) % 2
}

fn slice(value: u64, high: u64, from: u64) -> u64
    requires order { from ≤ high }
    requires narrow { high < 64 }
    ensures { result ≡ value / 2 ^ from % 2 ^ (high - from + 1) }
{
    low_bits((value >> from) as u128, (high - from + 1) as u8)
}

fn word(arrays: &[Vec<u64>], array: usize, index: u64) -> u64
    ensures { result ≡ word_at (words_of arrays.now) array index }
{
    match arrays.get(array) {
        Some(words) => words.get(index as usize).copied().unwrap_or(0),
        None => 0,
    }
}

// What a right side over slots is worth.
pub fn evaluate(
    widths: &[Width],
    arrays: &[Vec<u64>],
    values: &[u64],
    right: &Right<usize, usize>,
) -> u64
    requires { CanEvaluate widths.now (words_of arrays.now) values.now right.now }
    ensures { result ≡ slots_value widths.now (words_of arrays.now) values.now right.now }
{
    match right {
        Right::Copy(a) => atom(values, a),
        Right::Not(a) => {
            (limit(width_of(widths, a)) - 1).saturating_sub(atom(values, a) as u128) as u64
        }
        Right::Binary(op, a, b) => {
            operator_value(*op, width_of(widths, a), atom(values, a), atom(values, b))
        }
        Right::Choose(c, a, b) => {
            if atom(values, c) == 1 {
                atom(values, a)
            } else {
                atom(values, b)
            }
        }
        Right::Join(a, b) => join_value(atom(values, a), width_of(widths, b), atom(values, b)),
        Right::Repeat(count, a) => copies(*count, width_of(widths, a), atom(values, a)),
        Right::Bit(v, k) => bit(values.get(*v).copied().unwrap_or(0), *k),
        Right::Slice(v, m, l) => slice(values.get(*v).copied().unwrap_or(0), *m, *l),
        Right::Word(array, i) => word(arrays, *array, atom(values, i)),
    }
}
