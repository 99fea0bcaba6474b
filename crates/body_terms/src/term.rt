// Bodies as they are cut: those of a program, which may test whether a point is in the frame.

use dk_base::{Binary, Conversion, OutOfMemory, Scaling, Ty, Unary};
use std::alloc::Global;

/// A read of an image, by its number, at an offset. A clamped one brings the point to the frame's edge; any other is 0 outside the frame.
#[derive(Clone, Copy)]
pub struct PixelRead {
    pub image: u32,
    pub dx: i32,
    pub dy: i32,
    pub clamped: bool,
}

/// An expression and its type.
#[derive(Drop)]
#[cycle(term)]
pub struct Term {
    pub ty: Ty,
    pub node: TermNode,
}

/// The forms of an expression.
#[derive(Drop)]
#[cycle(term)]
pub enum TermNode {
    Number(u64),
    Read(PixelRead),
    /// 1 where the point that is moved by these columns and rows is in the frame, else 0.
    InFrame(i32, i32),
    Unary(Unary, Box<Term>),
    Binary(Binary, Box<Term>, Box<Term>),
    Scale(Scaling, Box<Term>, u64),
    Convert(Conversion, Box<Term>),
    Select(Box<Term>, Box<Term>, Box<Term>),
}

/// How many forms an expression has.
pub fn node_count(e: &Term) -> usize {
    let operands = match &e.node {
        TermNode::Number(_) | TermNode::Read(_) | TermNode::InFrame(_, _) => 0,
        TermNode::Unary(_, a) => node_count(a),
        TermNode::Binary(_, a, b) => node_count(a).saturating_add(node_count(b)),
        TermNode::Scale(_, a, _) => node_count(a),
        TermNode::Convert(_, a) => node_count(a),
        TermNode::Select(c, a, b) => node_count(c)
            .saturating_add(node_count(a))
            .saturating_add(node_count(b)),
    };
    operands.saturating_add(1)
}

/// Whether an expression has one value at all points.
pub fn is_constant(e: &Term) -> bool {
    match &e.node {
        TermNode::Number(_) => true,
        TermNode::Read(_) | TermNode::InFrame(_, _) => false,
        TermNode::Unary(_, a) => is_constant(a),
        TermNode::Binary(_, a, b) => is_constant(a) && is_constant(b),
        TermNode::Scale(_, a, _) => is_constant(a),
        TermNode::Convert(_, a) => is_constant(a),
        TermNode::Select(c, a, b) => is_constant(c) && is_constant(a) && is_constant(b),
    }
}

/// The expression in memory of its own.
pub fn boxed(alloc: Global, e: Term) -> Result<Box<Term>, OutOfMemory> {
    Ok(Box::new(alloc, e)?)
}
