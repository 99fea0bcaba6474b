// A module as a text describes it.

use net_names::Name;
use wiring::{Atom, Right, Shape, Width};

/// Whether a port takes values or gives them.
#[derive(Clone, Copy, Debug, PartialEq, Eq)]
pub enum Direction {
    Input,
    Output,
}

/// A port.
#[derive(Debug, Drop)]
pub struct Port {
    pub direction: Direction,
    pub width: Width,
    pub name: Name,
}

/// What a name is declared to be.
#[derive(Clone, Copy, Debug, PartialEq, Eq)]
pub enum Sort {
    Wire(Width),
    Reg(Width),
    Array(Shape),
}

/// A declaration after the ports.
#[derive(Debug, Drop)]
pub struct Declaration {
    pub name: Name,
    pub sort: Sort,
}

/// `assign target = right;`
#[derive(Debug, Drop)]
pub struct NamedAssign {
    pub target: Name,
    pub right: Right<Name, Name>,
}

/// What takes a value at the clock edge.
#[derive(Debug, Drop)]
pub enum NamedUpdate {
    /// `target <= value;`
    Set(Name, Atom<Name>),
    /// `target[index] <= value;`
    Put(Name, Atom<Name>, Atom<Name>),
}

/// A module as a text describes it: the name, the ports, the declarations, the assigns and the updates, each in the order of the text.
#[derive(Debug, Drop)]
pub struct Parts {
    pub name: Name,
    pub ports: Vec<Port>,
    pub declarations: Vec<Declaration>,
    pub assigns: Vec<NamedAssign>,
    pub updates: Vec<NamedUpdate>,
}
