// Trees as they are built.

ghost use Rattle.std.specs.Prelude.{◌≡◌, ◌≤◌, IfOk, MatchResult, Some};
ghost use Rattle.dk_parser.specs.Tree as T;
ghost use Rattle.dk_parser.specs.Tree.{Tree, tree_of, span_of, at_span};
ghost use Rattle.dk_parser.specs.Words.{over};
ghost use Rattle.dk_parser.specs.Depth.{depth, too_deep};
ghost use Rattle.dk_parser.specs.Grown.{Builds, Stands};

use crate::tree::{Expr, ImageRead, Literal, Node, TypeWord};
use dk_base::{Binary, MAX_SOURCE_DEPTH, Scaling, Span, Unary};
use std::alloc::{AllocError, Global};

// A tree and its depth, or where it first got too deep.
#[derive(Drop)]
pub(crate) enum Built {
    // A tree that is too deep itself is kept, since brackets may yet widen its span.
    Whole(Expr, usize),
    Deep(Span),
}

// A tree that becomes an operand, or where it is too deep.
fn operand(built: Built) -> Result<(Expr, usize), Span>
    ensures stands { (e : Tree) → Stands built e
        → MatchResult result (λ x. (tree_of x.0 ≡ e) × (depth e ≡ x.1)) (λ s. too_deep e ≡ Some s) }
    ensures shallow { IfOk result (λ x. x.1 ≤ MAX_SOURCE_DEPTH) }
{
    match built {
        Built::Whole(tree, depth) => {
            if depth <= MAX_SOURCE_DEPTH {
                Ok((tree, depth))
            } else {
                Err(tree.span)
            }
        }
        Built::Deep(span) => Err(span),
    }
}

pub(crate) fn binary(
    alloc: Global,
    operator: Binary,
    left: Built,
    right: Built,
) -> Result<Built, AllocError>
    ensures { (l r : Tree) → Stands left l → Stands right r
        → Builds result (T.binary (over (span_of l) (span_of r)) operator l r) }
{
    let (left, left_depth) = match operand(left) {
        Ok(found) => found,
        Err(span) => return Ok(Built::Deep(span)),
    };
    let (right, right_depth) = match operand(right) {
        Ok(found) => found,
        Err(span) => return Ok(Built::Deep(span)),
    };
    let span = Span {
        start: left.span.start,
        stop: right.span.stop,
    };
    let node = Node::Binary(operator, Box::new(alloc, left)?, Box::new(alloc, right)?);
    Ok(Built::Whole(Expr { span, node }, 1 + left_depth.max(right_depth)))
}

// A function of two operands, with its own span.
pub(crate) fn pair(
    alloc: Global,
    operator: Binary,
    span: Span,
    left: Built,
    right: Built,
) -> Result<Built, AllocError>
    ensures { (l r : Tree) → Stands left l → Stands right r
        → Builds result (T.binary span operator l r) }
{
    let (left, left_depth) = match operand(left) {
        Ok(found) => found,
        Err(span) => return Ok(Built::Deep(span)),
    };
    let (right, right_depth) = match operand(right) {
        Ok(found) => found,
        Err(span) => return Ok(Built::Deep(span)),
    };
    let node = Node::Binary(operator, Box::new(alloc, left)?, Box::new(alloc, right)?);
    Ok(Built::Whole(Expr { span, node }, 1 + left_depth.max(right_depth)))
}

pub(crate) fn unary(
    alloc: Global,
    operator: Unary,
    at: Span,
    body: Built,
) -> Result<Built, AllocError>
    ensures { (e : Tree) → Stands body e
        → Builds result (T.unary (over at (span_of e)) operator e) }
{
    let (body, depth) = match operand(body) {
        Ok(found) => found,
        Err(span) => return Ok(Built::Deep(span)),
    };
    let span = Span {
        start: at.start,
        stop: body.span.stop,
    };
    Ok(Built::Whole(
        Expr {
            span,
            node: Node::Unary(operator, Box::new(alloc, body)?),
        },
        1 + depth,
    ))
}

pub(crate) fn absolute(alloc: Global, span: Span, body: Built) -> Result<Built, AllocError>
    ensures { (e : Tree) → Stands body e → Builds result (T.unary span Unary.Abs e) }
{
    let (body, depth) = match operand(body) {
        Ok(found) => found,
        Err(span) => return Ok(Built::Deep(span)),
    };
    Ok(Built::Whole(
        Expr {
            span,
            node: Node::Unary(Unary::Abs, Box::new(alloc, body)?),
        },
        1 + depth,
    ))
}

pub(crate) fn scaled(
    alloc: Global,
    operator: Scaling,
    left: Built,
    amount: Literal,
) -> Result<Built, AllocError>
    ensures { (e : Tree) → Stands left e
        → Builds result (T.scale (over (span_of e) amount.span) operator e amount) }
{
    let (left, depth) = match operand(left) {
        Ok(found) => found,
        Err(span) => return Ok(Built::Deep(span)),
    };
    let span = Span {
        start: left.span.start,
        stop: amount.span.stop,
    };
    Ok(Built::Whole(
        Expr {
            span,
            node: Node::Scale(operator, Box::new(alloc, left)?, amount),
        },
        1 + depth,
    ))
}

pub(crate) fn converted(alloc: Global, left: Built, to: TypeWord) -> Result<Built, AllocError>
    ensures { (e : Tree) → Stands left e → Builds result (T.cast (over (span_of e) to.span) e to) }
{
    let (left, depth) = match operand(left) {
        Ok(found) => found,
        Err(span) => return Ok(Built::Deep(span)),
    };
    let span = Span {
        start: left.span.start,
        stop: to.span.stop,
    };
    Ok(Built::Whole(
        Expr {
            span,
            node: Node::Cast(Box::new(alloc, left)?, to),
        },
        1 + depth,
    ))
}

pub(crate) fn saturated(
    alloc: Global,
    span: Span,
    body: Built,
    to: TypeWord,
) -> Result<Built, AllocError>
    ensures { (e : Tree) → Stands body e → Builds result (T.sat span e to) }
{
    let (body, depth) = match operand(body) {
        Ok(found) => found,
        Err(span) => return Ok(Built::Deep(span)),
    };
    Ok(Built::Whole(
        Expr {
            span,
            node: Node::Sat(Box::new(alloc, body)?, to),
        },
        1 + depth,
    ))
}

// A choice between two operands, with its own span.
pub(crate) fn selected(
    alloc: Global,
    span: Span,
    test: Built,
    left: Built,
    right: Built,
) -> Result<Built, AllocError>
    ensures { (c l r : Tree) → Stands test c → Stands left l → Stands right r
        → Builds result (T.select span c l r) }
{
    let (test, test_depth) = match operand(test) {
        Ok(found) => found,
        Err(span) => return Ok(Built::Deep(span)),
    };
    let (left, left_depth) = match operand(left) {
        Ok(found) => found,
        Err(span) => return Ok(Built::Deep(span)),
    };
    let (right, right_depth) = match operand(right) {
        Ok(found) => found,
        Err(span) => return Ok(Built::Deep(span)),
    };
    let most = left_depth.max(right_depth);
    let test = Box::new(alloc, test)?;
    let left = Box::new(alloc, left)?;
    let right = Box::new(alloc, right)?;
    let node = Node::Select(test, left, right);
    Ok(Built::Whole(Expr { span, node }, 1 + test_depth.max(most)))
}

// A tree in brackets.
pub(crate) fn bracketed(span: Span, built: Built) -> Built
    ensures { (e : Tree) → Stands built e → Stands result (at_span span e) }
{
    match built {
        Built::Whole(tree, depth) => Built::Whole(
            Expr {
                span,
                node: tree.node,
            },
            depth,
        ),
        Built::Deep(inner) => Built::Deep(inner),
    }
}

// The tree of a program, or where it is too deep.
pub(crate) fn finished(built: Built) -> Result<Expr, Span>
    ensures { (e : Tree) → Stands built e
        → MatchResult result (λ x. (tree_of x ≡ e) × (depth e ≤ MAX_SOURCE_DEPTH))
        (λ s. too_deep e ≡ Some s) }
{
    match operand(built) {
        Ok((tree, _)) => Ok(tree),
        Err(span) => Err(span),
    }
}

pub(crate) fn number(span: Span, value: u64) -> Built
    ensures { Stands result (T.number span value) }
{
    Built::Whole(
        Expr {
            span,
            node: Node::Number(value),
        },
        1,
    )
}

pub(crate) fn read(span: Span, read: ImageRead) -> Built
    ensures { Stands result (T.read span read) }
{
    Built::Whole(
        Expr {
            span,
            node: Node::Read(read),
        },
        1,
    )
}
