// Accesses to arrays, and the clock edge.
ghost use Rattle.std.specs.Prelude.{◌≡◌, ◌+◌, ◌<◌, ◌≤◌, ◌++◌, length, take, drop, All, MatchOption};
ghost use Rattle.cycle_sim.specs.Slots.{words_of, depth_at, put_at};
ghost use Rattle.cycle_sim.specs.OneClock.{port_values, with_inputs, Exchanges};
ghost use Rattle.cycle_sim.specs.Edge.{IsAccessInside, IsFirstOutside, run_sets, run_puts, EdgesAreSafe};

use crate::evaluate::atom;
use netlist::Atom;

// An array, and where it is read or written.
#[derive(Clone, Copy, Debug)]
pub struct Access {
    pub array: usize,
    pub index: Atom<usize>,
}

// What a register or a word takes at the clock edge.
#[derive(Clone, Copy, Debug)]
pub enum Edge {
    Set(usize, Atom<usize>),
    Put(usize, Atom<usize>, Atom<usize>),
}

/// An index that is not below the depth of its array.
#[derive(Clone, Copy, Debug, PartialEq, Eq)]
pub struct IndexRange {
    pub array: usize,
    pub index: u64,
}

fn depth_of(arrays: &[Vec<u64>], array: usize) -> u64
    ensures { result ≡ depth_at (words_of arrays.now) array }
{
    match arrays.get(array) {
        Some(words) => words.len() as u64,
        None => 0,
    }
}

// The first access outside its array.
pub fn first_outside(accesses: &[Access], arrays: &[Vec<u64>], values: &[u64]) -> Option<IndexRange>
    ensures { MatchOption result
        (All (IsAccessInside (words_of arrays.now) values.now) accesses.now)
        (IsFirstOutside (words_of arrays.now) values.now accesses.now) }
{
    for access in accesses {
        let index = atom(values, &access.index);
        if index >= depth_of(arrays, access.array) {
            let array = access.array;
            return Some(IndexRange { array, index });
        }
    }
    None
}

// Puts numbers into the slots from this one on.
pub fn put_from(values: &mut [u64], first: usize, numbers: &[u64])
    requires { first + length numbers.now ≤ length values.old }
    ensures { values.new ≡ take first values.old ++ numbers.now ++ drop (first + length numbers.now)
        values.old }
{
    let end = first + numbers.len();
    values[first..end].copy_from_slice(numbers);
}

// Exchanges the numbers in the slots from this one on for others.
pub fn exchange_from(values: &mut [u64], first: usize, numbers: &mut [u64])
    requires { first + length numbers.old ≡ length values.old }
    ensures { Exchanges first values.old values.new numbers.old numbers.new }
{
    values.split_at_mut(first).1.swap_with_slice(numbers);
}

// Puts what the ports are given into the first slots. Without the port `en` it is not looked at.
pub fn put_ports(values: &mut [u64], has_enable: bool, reset: bool, enable: bool, dins: &[u64])
    requires { length (port_values has_enable reset enable dins.now) ≤ length values.old }
    ensures { values.new ≡ with_inputs (port_values has_enable reset enable dins.now) values.old }
{
    values[0] = u64::from(reset);
    if has_enable {
        values[1] = u64::from(enable);
        put_from(values, 2, dins);
    } else {
        put_from(values, 1, dins);
    }
}

fn put_word(arrays: &mut [Vec<u64>], array: usize, index: u64, value: u64)
    requires { index < depth_at (words_of arrays.old) array }
    ensures { words_of arrays.new ≡ put_at (words_of arrays.old) array index value }
{
    let words = &mut arrays[array];
    words[index as usize] = value;
}

// Gives each register and each array what it takes, by the values before the edge.
pub fn clock_edge(edges: &[Edge], values: &[u64], staged: &mut [u64], arrays: &mut [Vec<u64>])
    requires { EdgesAreSafe values.now edges.now (length staged.old) (words_of arrays.old) }
    ensures regs { staged.new ≡ run_sets values.now edges.now staged.old }
    ensures words { words_of arrays.new ≡ run_puts values.now edges.now (words_of arrays.old) }
{
    for edge in edges {
        match edge {
            Edge::Set(r, a) => staged[*r] = atom(values, a),
            Edge::Put(m, i, a) => put_word(arrays, *m, atom(values, i), atom(values, a)),
        }
    }
}
