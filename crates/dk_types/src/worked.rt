// The types of operators, worked out by hand.

ghost use Rattle.std.specs.Prelude.{◌≡◌, true, false, Some, None};
ghost use Rattle.dk_base.specs.declared.ty.Ty.TheVariants.{Unsigned, Signed};
ghost use Rattle.dk_base.specs.declared.operator.Unary.TheVariants.{Negate, Not, Abs};
ghost use Rattle.dk_base.specs.declared.operator.Binary.TheVariants.{Add, Subtract, Multiply, Less, NotEqual, And, Or, Min};
ghost use Rattle.dk_base.specs.declared.operator.Scaling.TheVariants.{Divide, ShiftLeft, ShiftRight};
ghost use Rattle.dk_base.specs.Types.{converts};
ghost use Rattle.dk_base.specs.Operators.{literal_type, unary_type, binary_type, scaling_type, select_type};

/// A law: the types that operators of one and of two operands give, at the ends of what they take.
pub fn worked_types()
    ensures literals { (literal_type 0 ≡ Unsigned 1) × (literal_type 5 ≡ Unsigned 3)
        × (literal_type 18446744073709551615 ≡ Unsigned 64) }
    ensures sums { (binary_type Add (Unsigned 1) (Unsigned 1) ≡ Some (Unsigned 2))
        × (binary_type Add (Signed 1) (Signed 1) ≡ Some (Signed 2)) }
    ensures sums_too_wide { (binary_type Add (Unsigned 64) (Unsigned 1) ≡ None)
        × (binary_type Add (Signed 64) (Unsigned 1) ≡ None) }
    ensures differences { (binary_type Subtract (Unsigned 1) (Unsigned 1) ≡ Some (Signed 2))
        × (binary_type Subtract (Unsigned 64) (Unsigned 1) ≡ None) }
    ensures products { (binary_type Multiply (Unsigned 1) (Unsigned 1) ≡ Some (Unsigned 2))
        × (binary_type Multiply (Unsigned 32) (Signed 32) ≡ Some (Signed 64)) }
    ensures product_too_wide { binary_type Multiply (Unsigned 33) (Signed 32) ≡ None }
    ensures negations { (unary_type Negate (Unsigned 63) ≡ Some (Signed 64))
        × (unary_type Negate (Unsigned 64) ≡ None) }
    ensures bit_negations { (unary_type Not (Unsigned 1) ≡ Some (Unsigned 1))
        × (unary_type Not (Unsigned 2) ≡ None) × (unary_type Not (Signed 1) ≡ None) }
    ensures magnitude { unary_type Abs (Signed 64) ≡ Some (Unsigned 64) }
    ensures comparisons { (binary_type Less (Unsigned 63) (Signed 1) ≡ Some (Unsigned 1))
        × (binary_type NotEqual (Unsigned 8) (Unsigned 8) ≡ Some (Unsigned 1)) }
    ensures comparison_too_wide { binary_type Less (Unsigned 64) (Signed 1) ≡ None }
    ensures bits { binary_type And (Unsigned 3) (Unsigned 1) ≡ Some (Unsigned 3) }
    ensures signed_bits { (binary_type And (Signed 8) (Unsigned 1) ≡ None)
        × (binary_type Or (Unsigned 1) (Signed 8) ≡ None)
        × (binary_type And (Unsigned 64) (Signed 64) ≡ None) }
    ensures extremes { (binary_type Min (Unsigned 8) (Signed 8) ≡ Some (Signed 9))
        × (binary_type Min (Unsigned 64) (Signed 1) ≡ None) }
{}

/// A law: the types of choices, quotients and shifts, at the ends of what they take, and which types convert to which.
pub fn worked_choices_and_shifts()
    ensures choices { (select_type (Unsigned 1) (Unsigned 2) (Signed 2) ≡ Some (Signed 3))
        × (select_type (Unsigned 1) (Unsigned 64) (Signed 1) ≡ None)
        × (select_type (Unsigned 2) (Unsigned 1) (Unsigned 1) ≡ None) }
    ensures quotients { (scaling_type Divide (Unsigned 8) 300 ≡ Some (Unsigned 8))
        × (scaling_type Divide (Unsigned 8) 0 ≡ None) }
    ensures shifts_left { (scaling_type ShiftLeft (Unsigned 8) 56 ≡ Some (Unsigned 64))
        × (scaling_type ShiftLeft (Unsigned 3) 3 ≡ Some (Unsigned 6)) }
    ensures shifts_too_wide { (scaling_type ShiftLeft (Unsigned 8) 57 ≡ None)
        × (scaling_type ShiftLeft (Unsigned 1) 64 ≡ None) }
    ensures shifts_right { (scaling_type ShiftRight (Signed 64) 63 ≡ Some (Signed 64))
        × (scaling_type ShiftRight (Unsigned 8) 64 ≡ None) }
    ensures conversions_to_unsigned { (converts (Unsigned 8) (Unsigned 8) ≡ true)
        × (converts (Unsigned 8) (Unsigned 7) ≡ false)
        × (converts (Signed 9) (Unsigned 9) ≡ false) }
    ensures conversions_to_signed { (converts (Unsigned 8) (Signed 9) ≡ true)
        × (converts (Unsigned 8) (Signed 8) ≡ false)
        × (converts (Signed 9) (Signed 9) ≡ true) × (converts (Signed 9) (Signed 8) ≡ false) }
{}
