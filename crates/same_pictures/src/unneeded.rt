// Expressions without what changes nothing: reads of definitions at the point itself, and conversions to types that hold each value of their operand.

ghost use Rattle.std.specs.Prelude.{IsTrue, IfSome};
ghost use Rattle.dk_base.specs.Types.{IsType};
ghost use Rattle.pointwise_ir.specs.Trees.{tree_of};
ghost use Rattle.value_ranges.specs.Images.{AreRangesOf};
ghost use Rattle.same_pictures.specs.Matching.{StandsFor, HoldsValues, ChangesNothing};

use crate::matching::unfolded;
use crate::operands::converted_operand;
use dk_base::{Conversion, MAX_INLINED_DEPTH, MAX_WIDTH, Ty};
use pointwise_ir::{Expr, Program};
use value_ranges::{Interval, range_of};

// A program, and for each of its images the interval that its values are in.
#[derive(Clone, Copy)]
pub struct Ranged<'a> {
    pub program: &'a Program,
    pub ranges: &'a [Interval],
}

// Whether values can have this type.
fn is_type(ty: Ty) -> bool
    ensures { IsTrue result → IsType ty }
{
    let width = ty.width();
    1 <= width && width <= MAX_WIDTH
}

// Whether the type holds each value of the expression.
fn is_held(on: &Ranged<'_>, e: &Expr, ty: Ty) -> bool
    requires typed { IsType ty }
    requires ranges { AreRangesOf on.now.program.now on.now.ranges.now }
    ensures { IsTrue result → HoldsValues on.now.program.now ty (tree_of e.now) }
{
    match range_of(e, on.ranges) {
        Some(range) => range.is_within(ty),
        None => false,
    }
}

// Whether a conversion of the expression changes no value.
pub fn is_unneeded(on: &Ranged<'_>, how: Conversion, e: &Expr, ty: Ty) -> bool
    requires ranges { AreRangesOf on.now.program.now on.now.ranges.now }
    ensures { IsTrue result → ChangesNothing on.now.program.now how (tree_of e.now) ty }
{
    if !is_type(ty) {
        return false;
    }
    is_held(on, e, ty)
}

// The operand of a conversion that changes no value.
pub fn unneeded<'a>(on: &Ranged<'_>, e: &'a Expr) -> Option<&'a Expr>
    requires ranges { AreRangesOf on.now.program.now on.now.ranges.now }
    ensures { IfSome result (λ a. StandsFor on.now.program.now (tree_of e.now) (tree_of a.now)) }
{
    match e {
        Expr::Convert(_, operand, ty) => {
            if !is_type(*ty) {
                return None;
            }
            if is_held(on, operand, *ty) {
                Some(operand)
            } else {
                None
            }
        }
        _ => None,
    }
}

// Whether both are conversions, and the same.
fn are_same_conversions(a: &Expr, e: &Expr) -> bool {
    match a {
        Expr::Convert(how, _, ty) => converted_operand(e, *how, *ty).is_some(),
        _ => false,
    }
}

// An expression of the same value, without reads of definitions at the point itself and without conversions that change nothing. A conversion that `a` begins with too is kept.
pub fn aligned<'a>(on: &Ranged<'a>, a: &Expr, e: &'a Expr) -> &'a Expr
    requires ranges { AreRangesOf on.now.program.now on.now.ranges.now }
    ensures { StandsFor on.now.program.now (tree_of e.now) (tree_of result.now) }
{
    let mut now = unfolded(on.program, e);
    for _ in 0..MAX_INLINED_DEPTH {
        if are_same_conversions(a, now) {
            return now;
        }
        match unneeded(on, now) {
            Some(operand) => now = unfolded(on.program, operand),
            None => return now,
        }
    }
    now
}

// An expression of the same value, without reads of definitions at the point itself and without conversions that change nothing.
pub fn bare<'a>(on: &Ranged<'a>, e: &'a Expr) -> &'a Expr
    requires ranges { AreRangesOf on.now.program.now on.now.ranges.now }
    ensures { StandsFor on.now.program.now (tree_of e.now) (tree_of result.now) }
{
    let mut now = unfolded(on.program, e);
    for _ in 0..MAX_INLINED_DEPTH {
        match unneeded(on, now) {
            Some(operand) => now = unfolded(on.program, operand),
            None => return now,
        }
    }
    now
}
