// The lane that an expression is computed in.

ghost use Rattle.pointwise_ir.specs.Trees.{tree_of};
ghost use Rattle.pointwise_eval.specs.Lanes.{HoldsParts};

use dk_base::Ty;
use pointwise_ir::Expr;
use value_ranges::{Interval, bounds_of};

// The bits of each value of a row.
#[derive(Clone, Copy)]
pub enum Lane {
    Bits16,
    Bits32,
    Bits64,
}

// The lane of fewest bits that holds the values of an expression, of its parts and of the images that it reads, where 64 bits hold them.
pub fn lane_of(e: &Expr, ranges: &[Interval]) -> Lane
    ensures { HoldsParts result ranges.now (tree_of e.now) }
{
    let Some(bounds) = bounds_of(e, ranges) else {
        return Lane::Bits64;
    };
    if bounds.parts.is_within(Ty::Signed(16)) {
        return Lane::Bits16;
    }
    if bounds.parts.is_within(Ty::Signed(32)) {
        return Lane::Bits32;
    }
    Lane::Bits64
}
