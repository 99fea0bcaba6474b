// A module as code over the slots of its nets.

use crate::code::Instruction;
use wiring::{Atom, Width};

/// The one assign that reads an array: the slot of its target, and the index.
#[derive(Clone, Copy)]
pub struct WordRead {
    pub target: usize,
    pub index: Atom<usize>,
}

/// What is put into an array at each clock edge.
#[derive(Clone, Copy)]
pub struct WordPut {
    pub index: Atom<usize>,
    pub value: Atom<usize>,
}

/// A module over slots: its inputs, its outputs, its wires and its registers, one after another.
#[derive(Drop)]
pub struct BatchCode {
    pub widths: Vec<Width>,
    pub first_output: usize,
    pub first_reg: usize,
    /// The assigns that read no array, in the order in which they are run.
    pub instructions: Vec<Instruction>,
    /// The read of each array.
    pub reads: Vec<WordRead>,
    /// The put of each array.
    pub puts: Vec<WordPut>,
    /// The next value of each register.
    pub nexts: Vec<Atom<usize>>,
}
