// Products that are sums of products of halves.

ghost use Rattle.std.specs.Prelude.{◌≡◌, IsTrue, IfSome};
ghost use Rattle.dk_base.specs.declared.operator.Binary.TheVariants.{Multiply, Add};
ghost use Rattle.dk_base.specs.declared.operator.Scaling.TheVariants.{ShiftLeft};
ghost use Rattle.pointwise_ir.specs.Trees.{tree_of, binary, scale};
ghost use Rattle.value_ranges.specs.Images.{AreRangesOf};
ghost use Rattle.same_pictures.specs.Matching.{StandsFor, AreHalves};

use crate::operands::{binary_operands, converted_operand, is_same, scaled_operand, shift_of};
use crate::unneeded::{Ranged, bare};
use dk_base::{Binary, Conversion, Scaling, Ty};
use pointwise_ir::Expr;

// The factors of a product.
#[derive(Clone, Copy)]
pub struct Factors<'a> {
    pub left: &'a Expr,
    pub right: &'a Expr,
}

// A sum of a value and of one that is shifted to the left.
#[derive(Clone, Copy)]
struct Summands<'a> {
    low: &'a Expr,
    high: &'a Expr,
    by: u64,
}

// The factors of a product as it is written.
fn written_factors<'a>(on: &Ranged<'a>, e: &'a Expr) -> Option<Factors<'a>>
    requires ranges { AreRangesOf on.now.program.now on.now.ranges.now }
    ensures { IfSome result (λ f. StandsFor on.now.program.now (tree_of e.now) (binary Multiply (tree_of f.left.now) (tree_of f.right.now))) }
{
    let (left, right) = binary_operands(bare(on, e), Binary::Multiply)?;
    Some(Factors { left, right })
}

// The summands, where the second is shifted to the left.
fn sum_of<'a>(on: &Ranged<'a>, e: &'a Expr) -> Option<Summands<'a>>
    requires ranges { AreRangesOf on.now.program.now on.now.ranges.now }
    ensures { IfSome result (λ h. StandsFor on.now.program.now (tree_of e.now) (binary Add (tree_of h.low.now) (scale ShiftLeft (tree_of h.high.now) h.by))) }
{
    let (low, shifted) = binary_operands(bare(on, e), Binary::Add)?;
    let by = shift_of(shifted)?;
    let high = scaled_operand(shifted, Scaling::ShiftLeft, by)?;
    Some(Summands { low, high, by })
}

// The bits of a type without a sign.
fn unsigned(by: u64) -> Option<Ty>
    ensures { IfSome result (λ t. t ≡ Ty.Unsigned by) }
{
    let width = u8::try_from(by).ok()?;
    Some(Ty::Unsigned(width))
}

// The number of which these are the low bits and the bits above.
fn whole_of<'a>(on: &Ranged<'a>, low: &'a Expr, high: &'a Expr, by: u64) -> Option<&'a Expr>
    requires ranges { AreRangesOf on.now.program.now on.now.ranges.now }
    ensures { IfSome result (λ w. AreHalves on.now.program.now by (tree_of low.now) (tree_of high.now) (tree_of w.now)) }
{
    let ty = unsigned(by)?;
    let whole = converted_operand(low, Conversion::Cast, ty)?;
    let other = scaled_operand(bare(on, high), Scaling::ShiftRight, by)?;
    if is_same(other, whole) {
        Some(whole)
    } else {
        None
    }
}

// The factors of a product whose second factor may be divided.
fn right_factors<'a>(on: &Ranged<'a>, e: &'a Expr) -> Option<Factors<'a>>
    requires ranges { AreRangesOf on.now.program.now on.now.ranges.now }
    ensures { IfSome result (λ f. StandsFor on.now.program.now (tree_of e.now) (binary Multiply (tree_of f.left.now) (tree_of f.right.now))) }
{
    if let Some(factors) = written_factors(on, e) {
        return Some(factors);
    }
    let sum = sum_of(on, e)?;
    let low = written_factors(on, sum.low)?;
    let high = written_factors(on, sum.high)?;
    let right = whole_of(on, low.right, high.right, sum.by)?;
    if is_same(high.left, low.left) {
        Some(Factors {
            left: low.left,
            right,
        })
    } else {
        None
    }
}

// The factors of a product whose factors may both be divided: first the one on the left, and in each half the one on the right.
pub fn divided_factors<'a>(on: &Ranged<'a>, e: &'a Expr) -> Option<Factors<'a>>
    requires ranges { AreRangesOf on.now.program.now on.now.ranges.now }
    ensures { IfSome result (λ f. StandsFor on.now.program.now (tree_of e.now) (binary Multiply (tree_of f.left.now) (tree_of f.right.now))) }
{
    if let Some(factors) = right_factors(on, e) {
        return Some(factors);
    }
    let sum = sum_of(on, e)?;
    let low = right_factors(on, sum.low)?;
    let high = right_factors(on, sum.high)?;
    let left = whole_of(on, low.left, high.left, sum.by)?;
    if is_same(high.right, low.right) {
        Some(Factors {
            left,
            right: low.right,
        })
    } else {
        None
    }
}
