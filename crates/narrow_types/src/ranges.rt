// The intervals of the values of typed expressions.

use dk_base::{MAX_WIDTH, Ty};
use dk_types::{TypedExpr, TypedNode, TypedRead};
use value_ranges::{Interval, binary_range, conversion_range, scaling_range, unary_range};

// The values of a type.
pub(crate) fn type_range(ty: Ty) -> Option<Interval> {
    let width = ty.width();
    if width < 1 || MAX_WIDTH < width {
        return None;
    }
    Some(Interval::of_type(ty))
}

// The values, and 0.
pub(crate) fn with_zero(range: Interval) -> Interval {
    range.join(Interval::of_value(0))
}

// The interval of an image, if it is one of these and has one.
fn known_range(known: &[Option<Interval>], image: u32) -> Option<Interval> {
    match known.get(image as usize) {
        Some(found) => *found,
        None => None,
    }
}

// The values of a read: if it is not clamped, also 0.
fn read_range(known: &[Option<Interval>], read: TypedRead) -> Option<Interval> {
    let picture = known_range(known, read.image)?;
    if read.clamped {
        Some(picture)
    } else {
        Some(with_zero(picture))
    }
}

// The values of an expression, from those of the images. None if an end is beyond i128.
pub(crate) fn range_of(known: &[Option<Interval>], e: &TypedExpr) -> Option<Interval> {
    match &e.node {
        TypedNode::Number(value) => Some(Interval::of_value(i128::from(*value))),
        TypedNode::Read(read) => read_range(known, *read),
        TypedNode::Unary(op, a) => {
            let a = range_of(known, a)?;
            unary_range(*op, a)
        }
        TypedNode::Binary(op, a, b) => {
            let a = range_of(known, a)?;
            let b = range_of(known, b)?;
            binary_range(*op, a, b)
        }
        TypedNode::Scale(op, a, by) => {
            let a = range_of(known, a)?;
            scaling_range(*op, a, *by)
        }
        TypedNode::Convert(how, a) => {
            let a = range_of(known, a)?;
            conversion_range(*how, a, e.ty)
        }
        TypedNode::Select(_, a, b) => {
            let a = range_of(known, a)?;
            let b = range_of(known, b)?;
            Some(a.join(b))
        }
    }
}
