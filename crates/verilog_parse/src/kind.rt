// Which way the grammar goes on.

use dk_base::Span;
use verilog_text::{Count, Range};
use wiring::{Atom, Operator};

// What a right side begins with.
#[derive(Clone, Copy, Drop)]
pub(crate) enum RightStart {
    Tilde,
    Brace,
    Atom(Atom<Span>),
}

// What comes first in brackets.
#[derive(Clone, Copy, Drop)]
pub(crate) enum Item {
    Count(Count),
    Atom(Atom<Span>),
}

// What follows an atom at the start of a right side. Square brackets follow a name only.
#[derive(Clone, Copy, Drop)]
pub(crate) enum Follow {
    End,
    Operator(Operator),
    Question,
    Square(Span),
}

// What a name with its range begins with.
#[derive(Clone, Copy, Drop)]
pub(crate) enum Head {
    Square,
    Name(Span),
}

// What follows the direction of a port.
#[derive(Clone, Copy, Drop)]
pub(crate) enum PortLead {
    Wire,
    Head(Head),
}

// A name with its range, where one is written.
#[derive(Clone, Copy, Drop)]
pub(crate) struct RangedName {
    pub bits: Option<Range>,
    pub name: Span,
}

// What follows the name of a register or an array.
#[derive(Clone, Copy, Drop)]
pub(crate) enum Tail {
    End,
    Words,
}

// What follows the name of what is updated.
#[derive(Clone, Copy, Drop)]
pub(crate) enum Arrow {
    Takes,
    Index,
}

// What an update begins with, or the end of the block.
#[derive(Clone, Copy, Drop)]
pub(crate) enum Target {
    Name(Span),
    End,
}

// A section of a module after its ports, by its first word.
#[derive(Clone, Copy, Drop)]
pub(crate) enum Section {
    Wire,
    Reg,
    Assign,
    Always,
    End,
}
