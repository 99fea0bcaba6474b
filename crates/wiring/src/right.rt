// Right sides, over nets and arrays of any kind.

use crate::size::Constant;

/// What is where one value is expected.
#[derive(Clone, Copy, Debug, PartialEq, Eq, Hash, Drop)]
pub enum Atom<N> {
    Net(N),
    Constant(Constant),
}

/// The operators of two operands.
#[derive(Clone, Copy, Debug, PartialEq, Eq, Hash)]
pub enum Operator {
    Add,
    Subtract,
    Multiply,
    Divide,
    Less,
    Equal,
    And,
    Or,
    Xor,
}

/// The right side of an assign, over nets N and arrays A.
#[derive(Clone, Copy, Debug, PartialEq, Eq, Hash, Drop)]
pub enum Right<N, A> {
    /// `a`
    Copy(Atom<N>),
    /// `~a`
    Not(Atom<N>),
    /// `a op b`
    Binary(Operator, Atom<N>, Atom<N>),
    /// `c ? a : b`
    Choose(Atom<N>, Atom<N>, Atom<N>),
    /// `{a, b}`, a above b
    Join(Atom<N>, Atom<N>),
    /// `{n{a}}`
    Repeat(u8, Atom<N>),
    /// `v[k]`, bit 0 being the least
    Bit(N, u64),
    /// `v[m:l]`, bits l to m
    Slice(N, u64, u64),
    /// `m[i]`
    Word(A, Atom<N>),
}
