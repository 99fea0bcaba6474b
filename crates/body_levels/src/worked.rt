// Levels that are worked out by hand.

ghost use Rattle.std.specs.Prelude.{◌≡◌, pos, Some, None, [], ◌∷◌};
ghost use Rattle.dk_base.specs.declared.ty.Ty.TheVariants.{Unsigned};
ghost use Rattle.dk_base.specs.declared.operator.Unary.TheVariants.{Abs};
ghost use Rattle.dk_base.specs.declared.operator.Binary.TheVariants.{Add, Subtract, Multiply, Less, Min};
ghost use Rattle.dk_base.specs.declared.operator.Conversion.TheVariants.{Cast, Saturate};
ghost use Rattle.dk_base.specs.declared.operator.Scaling.TheVariants.{Divide, ShiftRight};
ghost use Rattle.pointwise_ir.specs.declared.expr.Edge.TheVariants.{Clamp};
ghost use Rattle.pointwise_ir.specs.Trees.{shifted, unary, binary, select, convert, scale};
ghost use Rattle.body_levels.specs.Levels.{level, greatest_level};
ghost use Rattle.body_levels.specs.Worked.{number, left, clamped_left};

/// A law: the levels of expressions with an operator.
pub fn worked_operator_levels()
    ensures sum { level (binary Add left (binary Add left (number 1))) ≡ Some 2 }
    ensures double { level (binary Multiply (number 2) left) ≡ Some 0 }
    ensures triple { level (binary Multiply (number 3) left) ≡ Some 1 }
    ensures smaller { level (binary Min left left) ≡ Some 2 }
    ensures size_of_difference { level (unary Abs (binary Subtract left clamped_left)) ≡ Some 4 }
    ensures mean { level (scale Divide (binary Add left left) 3) ≡ Some 3 }
    ensures half { level (scale Divide (binary Add left left) 2) ≡ Some 1 }
    ensures shift { level (scale ShiftRight left 3) ≡ Some 0 }
    ensures choice { level (select (binary Less left (number 9)) left clamped_left) ≡ Some 2 }
    ensures cast { level (convert Cast (binary Add left left) (Unsigned 8)) ≡ Some 1 }
    ensures saturation { level (convert Saturate (binary Add left left) (Unsigned 8)) ≡ Some 2 }
{}

/// A law: the levels of constants, of reads and of moved expressions, and the most levels of some bodies.
pub fn worked_levels()
    ensures constant { level (binary Add (number 2) (number 3)) ≡ None }
    ensures read { level left ≡ Some 0 }
    ensures clamped_read { level clamped_left ≡ Some 1 }
    ensures moved { level (shifted Clamp (pos 0) (pos 1) (binary Add left left)) ≡ Some 2 }
    ensures moved_constant { level (shifted Clamp (pos 0) (pos 1) (number 7)) ≡ Some 1 }
    ensures greatest { greatest_level (left ∷ binary Add left left ∷ number 7 ∷ []) ≡ 1 }
{}
