// Bodies of a program as terms.

use crate::expanded::Expander;
use body_terms::{PixelRead, Term, TermNode, boxed};
use dk_base::OutOfMemory;
use dk_types::{TypedExpr, TypedNode, TypedRead};
use std::alloc::Global;

// The read of a program, for a term.
fn read_of(read: TypedRead) -> PixelRead {
    PixelRead {
        image: read.image,
        dx: read.dx,
        dy: read.dy,
        clamped: read.clamped,
    }
}

// Whether the expanded expression has different values.
fn varies(reads: &Expander<'_>, e: &TypedExpr) -> bool {
    match &e.node {
        TypedNode::Number(_) => false,
        TypedNode::Read(read) => !reads.gives_constant(read_of(*read)),
        TypedNode::Unary(_, a) => varies(reads, a),
        TypedNode::Binary(_, a, b) => varies(reads, a) || varies(reads, b),
        TypedNode::Scale(_, a, _) => varies(reads, a),
        TypedNode::Convert(_, a) => varies(reads, a),
        TypedNode::Select(c, a, b) => varies(reads, c) || varies(reads, a) || varies(reads, b),
    }
}

// The expression as a term. Its reads of inline images are replaced, unless it `stays`. An operator whose operands would all be constants stays: the check of the text compares operators, and an operator on numbers is one number to it.
pub(crate) fn term_of(
    alloc: Global,
    reads: &mut Expander<'_>,
    e: &TypedExpr,
    stays: bool,
) -> Result<Box<Term>, OutOfMemory> {
    let as_written = stays || !varies(reads, e);
    let node = match &e.node {
        TypedNode::Number(value) => TermNode::Number(*value),
        TypedNode::Read(read) if stays => TermNode::Read(read_of(*read)),
        TypedNode::Read(read) => {
            return boxed(alloc, reads.replaced(alloc, read_of(*read), e.ty)?);
        }
        TypedNode::Unary(operator, a) => {
            TermNode::Unary(*operator, term_of(alloc, reads, a, as_written)?)
        }
        TypedNode::Binary(operator, a, b) => {
            let a = term_of(alloc, reads, a, as_written)?;
            let b = term_of(alloc, reads, b, as_written)?;
            TermNode::Binary(*operator, a, b)
        }
        TypedNode::Scale(operator, a, by) => {
            TermNode::Scale(*operator, term_of(alloc, reads, a, as_written)?, *by)
        }
        TypedNode::Convert(how, a) => {
            TermNode::Convert(*how, term_of(alloc, reads, a, as_written)?)
        }
        TypedNode::Select(c, a, b) => {
            let c = term_of(alloc, reads, c, as_written)?;
            let a = term_of(alloc, reads, a, as_written)?;
            let b = term_of(alloc, reads, b, as_written)?;
            TermNode::Select(c, a, b)
        }
    };
    boxed(alloc, Term { ty: e.ty, node })
}
