// The intervals of expressions.

ghost use Rattle.std.specs.Prelude.{◌≡◌, ℤ, pos, Some, None, IfSome, MatchOption, slice_get};
ghost use Rattle.dk_base.specs.Frames.{Size, Picture};
ghost use Rattle.pointwise_ir.specs.Trees.{tree_of};
ghost use Rattle.pointwise_ir.specs.Meaning.{edged};
ghost use Rattle.value_ranges.specs.Intervals.{IsBetween};
ghost use Rattle.value_ranges.specs.Ranges.{edged_interval, interval_of};
ghost use Rattle.value_ranges.specs.Parts.{IsRangeOf, IsRangeOfParts};

use crate::arithmetic::{binary_range, conversion_range, scaling_range, unary_range};
use crate::interval::Interval;
use pointwise_ir::{Edge, Expr};

/// The interval of an expression's values, and one that also has the values of its parts and of the images that it reads.
#[derive(Clone, Copy, Debug, PartialEq, Eq)]
pub struct Bounds {
    pub whole: Interval,
    pub parts: Interval,
}

// The values of a picture that is read: where the edge is `Zero` also 0.
fn edged_range(edge: Edge, range: Interval) -> Interval
    ensures exact { result ≡ edged_interval edge range }
    ensures within { (v : ℤ) → IsBetween range v → IsBetween result v }
    ensures edged { (size : Size) (picture : Picture) → ((x y : ℤ) → IsBetween range (picture x y)) → (x y : ℤ) → IsBetween result (edged size edge picture x y) }
{
    match edge {
        Edge::Zero => range.join(Interval::of_value(0)),
        Edge::Clamp => range,
    }
}

// The interval of an image, where it is one of these.
pub(crate) fn range_at(ranges: &[Interval], image: u32) -> Option<Interval>
    ensures { result ≡ slice_get ranges.now image }
{
    let image = image as usize;
    if image < ranges.len() {
        Some(ranges[image])
    } else {
        None
    }
}

// The bounds of an expression of these values, whose parts have these.
fn with_parts(whole: Interval, parts: Interval) -> Bounds
    ensures whole { result.whole ≡ whole }
    ensures own { (v : ℤ) → IsBetween whole v → IsBetween result.parts v }
    ensures parts { (v : ℤ) → IsBetween parts v → IsBetween result.parts v }
{
    Bounds {
        whole,
        parts: whole.join(parts),
    }
}

/// The bounds of an expression, from the intervals of the images. None where it reads another image, or where an end is beyond i128.
pub fn bounds_of(e: &Expr, ranges: &[Interval]) -> Option<Bounds>
    ensures exact { MatchOption result (interval_of ranges.now (tree_of e.now) ≡ None) (λ b. interval_of ranges.now (tree_of e.now) ≡ Some b.whole) }
    ensures whole { IfSome result (λ b. IsRangeOf ranges.now (tree_of e.now) b.whole) }
    ensures parts { IfSome result (λ b. IsRangeOfParts ranges.now (tree_of e.now) b.parts) }
{
    match e {
        Expr::Constant(value, _) => {
            let whole = Interval::of_value(*value);
            Some(with_parts(whole, whole))
        }
        Expr::Read(edge, image, _, _) => {
            let picture = range_at(ranges, *image)?;
            Some(with_parts(edged_range(*edge, picture), picture))
        }
        Expr::Shifted(edge, _, _, body) => {
            let body = bounds_of(body, ranges)?;
            Some(with_parts(edged_range(*edge, body.whole), body.parts))
        }
        Expr::Unary(op, body) => {
            let operand = bounds_of(body, ranges)?;
            let whole = unary_range(*op, operand.whole)?;
            Some(with_parts(whole, operand.parts))
        }
        Expr::Binary(op, left, right) => {
            let left = bounds_of(left, ranges)?;
            let right = bounds_of(right, ranges)?;
            let whole = binary_range(*op, left.whole, right.whole)?;
            Some(with_parts(whole, left.parts.join(right.parts)))
        }
        Expr::Select(condition, left, right) => {
            let condition = bounds_of(condition, ranges)?;
            let left = bounds_of(left, ranges)?;
            let right = bounds_of(right, ranges)?;
            let parts = condition.parts.join(left.parts.join(right.parts));
            Some(with_parts(left.whole.join(right.whole), parts))
        }
        Expr::Convert(how, body, ty) => {
            let operand = bounds_of(body, ranges)?;
            let whole = conversion_range(*how, operand.whole, *ty)?;
            Some(with_parts(whole, operand.parts))
        }
        Expr::Scale(op, body, by) => {
            let operand = bounds_of(body, ranges)?;
            let whole = scaling_range(*op, operand.whole, *by)?;
            Some(with_parts(whole, operand.parts))
        }
    }
}

/// The interval of an expression's values, from the intervals of the images. None where it reads another image, or where an end is beyond i128.
pub fn range_of(e: &Expr, ranges: &[Interval]) -> Option<Interval>
    ensures exact { result ≡ interval_of ranges.now (tree_of e.now) }
    ensures within { IfSome result (λ r. IsRangeOf ranges.now (tree_of e.now) r) }
{
    let bounds = bounds_of(e, ranges)?;
    Some(bounds.whole)
}
