// What is written in a text: the parts of the grammar. A name is the span that it is at.

use dk_base::Span;
use netlist::Direction;
use wiring::{Atom, Operator};

/// A plain number, and where it is.
#[derive(Clone, Copy, Debug, PartialEq, Eq)]
pub struct Count {
    pub value: u64,
    pub span: Span,
}

/// `[first:second]`
#[derive(Clone, Copy, Debug, PartialEq, Eq)]
pub struct Range {
    pub first: Count,
    pub second: Count,
}

/// A port. Without a range it has one bit.
#[derive(Clone, Copy, Debug, PartialEq, Eq)]
pub struct WrittenPort {
    pub direction: Direction,
    pub bits: Option<Range>,
    pub name: Span,
}

/// What is declared. An array has the range of its words.
#[derive(Clone, Copy, Debug, PartialEq, Eq)]
pub enum WrittenSort {
    Wire,
    Reg,
    Array(Range),
}

/// A declaration after the ports. Without a range of bits it has one bit.
#[derive(Clone, Copy, Debug, PartialEq, Eq)]
pub struct WrittenDeclaration {
    pub sort: WrittenSort,
    pub bits: Option<Range>,
    pub name: Span,
}

/// A right side, its numbers as they are written.
#[derive(Clone, Copy, Drop)]
pub enum WrittenRight {
    /// `a`
    Copy(Atom<Span>),
    /// `~a`
    Not(Atom<Span>),
    /// `a op b`
    Binary(Operator, Atom<Span>, Atom<Span>),
    /// `c ? a : b`
    Choose(Atom<Span>, Atom<Span>, Atom<Span>),
    /// `{a, b}`
    Join(Atom<Span>, Atom<Span>),
    /// `{n{a}}`
    Repeat(Count, Atom<Span>),
    /// `v[k]`
    Bit(Span, u64),
    /// `v[m:l]`
    Slice(Span, u64, u64),
    /// `m[i]`
    Word(Span, Atom<Span>),
}

/// `assign target = right;`
#[derive(Clone, Copy, Drop)]
pub struct WrittenAssign {
    pub target: Span,
    pub right: WrittenRight,
}

/// What takes a value at the clock edge.
#[derive(Clone, Copy, Drop)]
pub enum WrittenUpdate {
    /// `target <= value;`
    Set(Span, Atom<Span>),
    /// `target[index] <= value;`
    Put(Span, Atom<Span>, Atom<Span>),
}

/// A module as it is written.
#[derive(Drop)]
pub struct Written {
    pub name: Span,
    pub ports: Vec<WrittenPort>,
    pub declarations: Vec<WrittenDeclaration>,
    pub assigns: Vec<WrittenAssign>,
    pub updates: Vec<WrittenUpdate>,
}
