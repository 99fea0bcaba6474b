// Netlists without names.

use crate::right::{Atom, Right};
use crate::size::{Depth, Width};

/// A net, by its number among those of its sort.
#[derive(Clone, Copy, Debug, PartialEq, Eq, Hash)]
pub enum Net {
    /// `rst`, then `en` in a module that has it, then each `din`.
    Input(usize),
    /// The first `valid`, the first `dout`, the second `valid` and so on.
    Output(usize),
    Wire(usize),
    Reg(usize),
}

/// What holds values: a net, or the words of an array.
#[derive(Clone, Copy, Debug, PartialEq, Eq)]
pub enum Holder {
    OfNet(Net),
    OfArray(usize),
}

/// An array of words.
#[derive(Clone, Copy, Debug, PartialEq, Eq)]
pub struct Shape {
    pub width: Width,
    pub depth: Depth,
}

/// A net that takes the value of a right side at all times.
#[derive(Clone, Copy, Debug, PartialEq, Eq)]
pub struct Assign {
    pub target: Net,
    pub right: Right<Net, usize>,
}

/// What a register or a word takes at the clock edge.
#[derive(Clone, Copy, Debug, PartialEq, Eq, Drop)]
pub enum Update {
    /// The register of this number takes this value.
    Set(usize, Atom<Net>),
    /// In the array of this number the word at this index takes this value.
    Put(usize, Atom<Net>, Atom<Net>),
}

/// Nets by their widths, arrays by their shapes, and what drives them.
#[derive(Debug, Drop)]
pub struct Netlist {
    /// Whether there is the port `en`.
    pub enable: bool,
    pub inputs: Vec<Width>,
    pub outputs: Vec<Width>,
    pub wires: Vec<Width>,
    pub regs: Vec<Width>,
    pub arrays: Vec<Shape>,
    pub assigns: Vec<Assign>,
    pub updates: Vec<Update>,
}
