// Folds that are worked out by hand.

ghost use Rattle.std.specs.Prelude.{pos, neg_ℤ};
ghost use Rattle.dk_base.specs.declared.ty.Ty.TheVariants.{Unsigned, Signed};
ghost use Rattle.dk_base.specs.declared.operator.Unary.TheVariants.{Negate};
ghost use Rattle.dk_base.specs.declared.operator.Binary.TheVariants.{Add, Multiply};
ghost use Rattle.dk_base.specs.declared.operator.Conversion.TheVariants.{Cast, Saturate};
ghost use Rattle.dk_base.specs.declared.operator.Scaling.TheVariants.{Divide, ShiftLeft, ShiftRight};
ghost use Rattle.pointwise_ir.specs.declared.expr.Edge.TheVariants.{Zero};
ghost use Rattle.pointwise_ir.specs.Trees.{constant, shifted, unary, binary, select, convert, scale};
ghost use Rattle.dk_inline.specs.Folded.{IsFoldOf};
ghost use Rattle.dk_inline.specs.Worked.{number, pixel};

/// A law: what some expressions fold to. A constant has the type of the operator's value, which may be wider than the value needs.
pub fn worked_folds()
    ensures sum { IsFoldOf (binary Multiply pixel (binary Add (number 2 2) (number 3 2)))
        (binary Multiply pixel (number 5 3)) }
    ensures product_with_zero { IsFoldOf (binary Multiply pixel (number 0 1))
        (binary Multiply pixel (number 0 1)) }
    ensures moved_sum { IsFoldOf
        (shifted Zero (pos 0) (neg_ℤ (pos 1)) (binary Add (number 2 2) (number 3 2)))
        (shifted Zero (pos 0) (neg_ℤ (pos 1)) (number 5 3)) }
    ensures chosen_first { IsFoldOf (select (number 1 1) (number 2 2) (number 3 2)) (number 2 2) }
    ensures chosen_second { IsFoldOf (select (number 0 1) (number 7 3) (number 3 2)) (number 3 3) }
    ensures choice_of_a_pixel { IsFoldOf (select (number 0 1) (number 3 2) pixel)
        (select (number 0 1) (number 3 2) pixel) }
    ensures saturated { IsFoldOf (convert Saturate (number 7 3) (Unsigned 2)) (number 3 2) }
    ensures cast { IsFoldOf (convert Cast (number 6 3) (Signed 2))
        (constant (neg_ℤ (pos 2)) (Signed 2)) }
    ensures divided { IsFoldOf (scale Divide (number 7 3) 2) (number 3 3) }
    ensures shifted_left { IsFoldOf (scale ShiftLeft (number 7 3) 4) (number 112 7) }
    ensures shifted_right { IsFoldOf (scale ShiftRight (unary Negate (number 7 3)) 1)
        (constant (neg_ℤ (pos 4)) (Signed 4)) }
{}
