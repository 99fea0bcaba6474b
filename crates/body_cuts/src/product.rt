// Products of wide factors, as sums of products of their halves.

use crate::levels::raised;
use crate::pieces::{Above, Pieces, cut};
use body_terms::{Part, Term, TermNode, binary, converted, is_constant, scaled};
use dk_base::{Binary, Conversion, OutOfMemory, Scaling, Ty};
use std::alloc::Global;

// The most bits of a factor that one multiplier of an FPGA takes.
const WIDEST_FACTOR: u8 = 18;

// The most bits of a factor beside which a wide one stays whole: such a product is a few adders.
const NARROW_FACTOR: u8 = 9;

// The most levels of bodies for which products are divided. A divided product has three levels, so in a body of more it would gain nothing.
const MOST_LEVELS: u32 = 2;

// A sum of halves is one bit wider than the product, and no type has more than 64 bits.
const MOST_BITS: u8 = 63;

// A factor and its type.
#[derive(Drop)]
pub(crate) struct Factor {
    part: Part,
    ty: Ty,
}

impl Factor {
    pub(crate) fn new(part: Part, ty: Ty) -> Factor {
        Factor { part, ty }
    }
}

// Whether a factor of a product of these factors is too wide for one multiplier.
fn is_wide(a: &Term, b: &Term) -> bool {
    if is_constant(a) || is_constant(b) {
        return false;
    }
    let (one, other) = (a.ty.width(), b.ty.width());
    WIDEST_FACTOR < one.max(other) && NARROW_FACTOR < one.min(other)
}

// Whether the expression is a product that is divided where bodies have at most `limit` levels.
pub(crate) fn is_divided(limit: u32, e: &Term) -> bool {
    match &e.node {
        TermNode::Binary(Binary::Multiply, a, b) => {
            limit <= MOST_LEVELS && e.ty.width() <= MOST_BITS && is_wide(a, b)
        }
        _ => false,
    }
}

// Whether the expression has a product that is divided.
pub(crate) fn has_divided(limit: u32, e: &Term) -> bool {
    match &e.node {
        TermNode::Number(_) | TermNode::Read(_) | TermNode::InFrame(_, _) => false,
        TermNode::Unary(_, a) => has_divided(limit, a),
        TermNode::Binary(_, a, b) => {
            is_divided(limit, e) || has_divided(limit, a) || has_divided(limit, b)
        }
        TermNode::Scale(_, a, _) => has_divided(limit, a),
        TermNode::Convert(_, a) => has_divided(limit, a),
        TermNode::Select(c, a, b) => {
            has_divided(limit, c) || has_divided(limit, a) || has_divided(limit, b)
        }
    }
}

// The part once more.
fn copied(alloc: Global, part: &Part) -> Result<Part, OutOfMemory> {
    Ok(Part {
        text: Vec::from_slice(alloc, &part.text)?,
        binding: part.binding,
        levels: part.levels,
    })
}

// A type of this width, signed as the other.
fn resized(ty: Ty, width: u8) -> Ty {
    match ty {
        Ty::Unsigned(_) => Ty::Unsigned(width),
        Ty::Signed(_) => Ty::Signed(width),
    }
}

// The low bits of a factor, as a number that is not below 0.
fn low_half(alloc: Global, factor: &Factor, bits: u8) -> Result<Factor, OutOfMemory> {
    let ty = Ty::Unsigned(bits);
    let part = copied(alloc, &factor.part)?;
    let part = converted(alloc, Conversion::Cast, part, ty)?;
    Ok(Factor { part, ty })
}

// The bits of a factor above the low ones, with its sign.
fn high_half(alloc: Global, factor: &Factor, bits: u8) -> Result<Factor, OutOfMemory> {
    let ty = resized(factor.ty, factor.ty.width().saturating_sub(bits));
    let part = copied(alloc, &factor.part)?;
    let part = scaled(alloc, Scaling::ShiftRight, part, u64::from(bits))?;
    let part = converted(alloc, Conversion::Cast, part, ty)?;
    Ok(Factor { part, ty })
}

// The type of a product.
fn product_type(a: Ty, b: Ty) -> Ty {
    let width = a.width().saturating_add(b.width());
    if a.is_signed() || b.is_signed() {
        Ty::Signed(width)
    } else {
        Ty::Unsigned(width)
    }
}

fn multiplied(alloc: Global, a: &Factor, b: &Factor) -> Result<Part, OutOfMemory> {
    let one = copied(alloc, &a.part)?;
    let other = copied(alloc, &b.part)?;
    let part = binary(alloc, Binary::Multiply, one, other)?;
    Ok(raised(part, 1))
}

// The products of the low and of the high half, added, in the type of the whole product.
fn joined(
    alloc: Global,
    pieces: &mut Pieces<'_>,
    (low, high): (Part, Part),
    bits: u8,
    ty: Ty,
) -> Result<Part, OutOfMemory> {
    let low = cut(alloc, pieces, Above::Operator(1), low)?;
    let high = cut(alloc, pieces, Above::Operator(1), high)?;
    let high = scaled(alloc, Scaling::ShiftLeft, high, u64::from(bits))?;
    let sum = binary(alloc, Binary::Add, low, high)?;
    converted(alloc, Conversion::Cast, raised(sum, 1), ty)
}

// The product with the second factor divided if it is wide.
fn divided_right(
    alloc: Global,
    pieces: &mut Pieces<'_>,
    a: &Factor,
    b: &Factor,
) -> Result<Part, OutOfMemory> {
    if b.ty.width() <= WIDEST_FACTOR {
        return multiplied(alloc, a, b);
    }
    let bits = b.ty.width() / 2;
    let low = multiplied(alloc, a, &low_half(alloc, b, bits)?)?;
    let high = multiplied(alloc, a, &high_half(alloc, b, bits)?)?;
    joined(alloc, pieces, (low, high), bits, product_type(a.ty, b.ty))
}

// The product, with each wide factor divided into halves. The factors are reads of pieces or have no levels.
pub(crate) fn divided(
    alloc: Global,
    pieces: &mut Pieces<'_>,
    a: &Factor,
    b: &Factor,
) -> Result<Part, OutOfMemory> {
    if a.ty.width() <= WIDEST_FACTOR {
        return divided_right(alloc, pieces, a, b);
    }
    let bits = a.ty.width() / 2;
    let low = divided_right(alloc, pieces, &low_half(alloc, a, bits)?, b)?;
    let high = divided_right(alloc, pieces, &high_half(alloc, a, bits)?, b)?;
    joined(alloc, pieces, (low, high), bits, product_type(a.ty, b.ty))
}
