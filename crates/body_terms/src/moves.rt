// The body of an image as a read sees it.

use crate::term::{PixelRead, Term, TermNode, boxed};
use dk_base::{MAX_OFFSET, OutOfMemory, Ty};
use std::alloc::{AllocError, Global};

/// Why there is no body.
#[derive(Debug, Drop)]
pub enum MoveFault {
    // Nothing can replace some read.
    NoRead,
    OutOfMemory,
}

impl From<AllocError> for MoveFault {
    fn from(_fault: OutOfMemory) -> MoveFault {
        MoveFault::OutOfMemory
    }
}

// The sum of two offsets. None if it passes the limit.
fn sum(outer: i32, inner: i32) -> Option<i32> {
    let offset = outer.checked_add(inner)?;
    if u64::from(offset.unsigned_abs()) <= MAX_OFFSET {
        Some(offset)
    } else {
        None
    }
}

// The offset of two clamped steps as one. None if they have opposite signs: two clamped steps there and back do not cancel at the edge.
fn clamped_sum(outer: i32, inner: i32) -> Option<i32> {
    if (outer < 0 && 0 < inner) || (inner < 0 && 0 < outer) {
        return None;
    }
    sum(outer, inner)
}

fn is_still(read: PixelRead) -> bool {
    read.dx == 0 && read.dy == 0
}

/// Whether the read is 0 where its point is outside the frame.
pub fn is_cut_off(read: PixelRead) -> bool {
    !read.clamped && !is_still(read)
}

// The read that shows what `inner` shows at the clamped point of `outer`.
fn clamped_read(outer: PixelRead, inner: PixelRead) -> Option<PixelRead> {
    if is_cut_off(inner) {
        return None;
    }
    Some(PixelRead {
        image: inner.image,
        dx: clamped_sum(outer.dx, inner.dx)?,
        dy: clamped_sum(outer.dy, inner.dy)?,
        clamped: true,
    })
}

// The read that shows what `inner` shows at the point of `outer`, where that is in the frame.
fn inside_read(outer: PixelRead, inner: PixelRead) -> Option<PixelRead> {
    Some(PixelRead {
        image: inner.image,
        dx: sum(outer.dx, inner.dx)?,
        dy: sum(outer.dy, inner.dy)?,
        clamped: inner.clamped && !is_still(inner),
    })
}

// The read that shows what `inner` shows at the point that `outer` reads. None if there is none.
fn moved_read(outer: PixelRead, inner: PixelRead) -> Option<PixelRead> {
    if is_still(outer) {
        Some(inner)
    } else if outer.clamped {
        clamped_read(outer, inner)
    } else {
        inside_read(outer, inner)
    }
}

// The frame test at the point that `outer` reads. A clamped point has none.
fn test_node(outer: PixelRead, dx: i32, dy: i32) -> Result<TermNode, MoveFault> {
    if is_still(outer) {
        return Ok(TermNode::InFrame(dx, dy));
    }
    match (outer.clamped, sum(outer.dx, dx), sum(outer.dy, dy)) {
        (false, Some(dx), Some(dy)) => Ok(TermNode::InFrame(dx, dy)),
        _ => Err(MoveFault::NoRead),
    }
}

/// An image's body at the point that the read sees, if that is in the frame.
pub fn moved(alloc: Global, read: PixelRead, body: &Term) -> Result<Term, MoveFault> {
    let node = match &body.node {
        TermNode::Number(value) => TermNode::Number(*value),
        TermNode::Read(inner) => match moved_read(read, *inner) {
            Some(seen) => TermNode::Read(seen),
            None => return Err(MoveFault::NoRead),
        },
        TermNode::InFrame(dx, dy) => test_node(read, *dx, *dy)?,
        TermNode::Unary(operator, a) => {
            let a = moved(alloc, read, a)?;
            TermNode::Unary(*operator, boxed(alloc, a)?)
        }
        TermNode::Binary(operator, a, b) => {
            let a = moved(alloc, read, a)?;
            let b = moved(alloc, read, b)?;
            TermNode::Binary(*operator, boxed(alloc, a)?, boxed(alloc, b)?)
        }
        TermNode::Scale(operator, a, by) => {
            let a = moved(alloc, read, a)?;
            TermNode::Scale(*operator, boxed(alloc, a)?, *by)
        }
        TermNode::Convert(how, a) => {
            let a = moved(alloc, read, a)?;
            TermNode::Convert(*how, boxed(alloc, a)?)
        }
        TermNode::Select(c, a, b) => {
            let c = moved(alloc, read, c)?;
            let a = moved(alloc, read, a)?;
            let b = moved(alloc, read, b)?;
            TermNode::Select(boxed(alloc, c)?, boxed(alloc, a)?, boxed(alloc, b)?)
        }
    };
    Ok(Term { ty: body.ty, node })
}

// A term of one bit.
fn bit(node: TermNode) -> Term {
    Term {
        ty: Ty::Unsigned(1),
        node,
    }
}

/// The body at the point that the read sees, and 0 where that is outside the frame and not clamped.
pub fn framed(alloc: Global, read: PixelRead, body: Term) -> Result<Term, OutOfMemory> {
    if !is_cut_off(read) {
        return Ok(body);
    }
    let ty = body.ty;
    let test = boxed(alloc, bit(TermNode::InFrame(read.dx, read.dy)))?;
    let body = boxed(alloc, body)?;
    let zero = boxed(alloc, bit(TermNode::Number(0)))?;
    Ok(Term {
        ty,
        node: TermNode::Select(test, body, zero),
    })
}
