// Parts of expressions, by their spans.

use dk_base::{MAX_SOURCE_DEPTH, Span};
use dk_parser::{Expr, Node};

// One or two expressions.
#[derive(Drop)]
pub(crate) enum Parts {
    One(Expr),
    Two(Expr, Expr),
}

pub(crate) fn is_within(inner: Span, outer: Span) -> bool {
    outer.start <= inner.start && inner.stop <= outer.stop
}

fn one_within(a: Box<Expr>, span: Span) -> Option<Expr> {
    let a = Box::into_inner(a);
    if is_within(span, a.span) {
        Some(a)
    } else {
        None
    }
}

fn two_within(a: Box<Expr>, b: Box<Expr>, span: Span) -> Option<Expr> {
    match one_within(a, span) {
        Some(a) => Some(a),
        None => one_within(b, span),
    }
}

// The operand that has the span within it.
fn operand_around(e: Expr, span: Span) -> Option<Expr> {
    match e.node {
        Node::Number(_) | Node::Read(_) => None,
        Node::Unary(_, a) | Node::Scale(_, a, _) | Node::Cast(a, _) | Node::Sat(a, _) => {
            one_within(a, span)
        }
        Node::Binary(_, a, b) => two_within(a, b, span),
        Node::Select(c, a, b) => match one_within(c, span) {
            Some(c) => Some(c),
            None => two_within(a, b, span),
        },
    }
}

// The part of an expression with this span.
pub(crate) fn part_at(e: Expr, span: Span) -> Option<Expr> {
    let mut part = e;
    for _ in 0..MAX_SOURCE_DEPTH {
        if part.span == span {
            return Some(part);
        }
        part = operand_around(part, span)?;
    }
    None
}

// The operands of an operator, or the choices of a `select`.
pub(crate) fn operands_of(e: Expr) -> Option<Parts> {
    match e.node {
        Node::Number(_) | Node::Read(_) => None,
        Node::Unary(_, a) | Node::Scale(_, a, _) | Node::Cast(a, _) | Node::Sat(a, _) => {
            Some(Parts::One(Box::into_inner(a)))
        }
        Node::Binary(_, a, b) => Some(Parts::Two(Box::into_inner(a), Box::into_inner(b))),
        Node::Select(_condition, a, b) => {
            Some(Parts::Two(Box::into_inner(a), Box::into_inner(b)))
        }
    }
}
