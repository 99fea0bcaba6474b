//! The values and the types that the rules of the language were written with, by the definitions of dk_base.

ghost use Rattle.std.specs.Prelude.{◌≡◌, pos, neg_ℤ, [], ◌∷◌, Some, None, map, true, false};
ghost use Rattle.dk_base.specs.declared.ty.Ty.TheVariants.{Unsigned, Signed};
ghost use Rattle.dk_base.specs.declared.operator.Unary.TheVariants.{Negate, Not, Abs};
ghost use Rattle.dk_base.specs.declared.operator.Binary.TheVariants.{Add, Subtract, Multiply, Less, Xor, Min};
ghost use Rattle.dk_base.specs.declared.operator.Scaling.TheVariants.{Divide, ShiftLeft, ShiftRight};
ghost use Rattle.dk_base.specs.Types.{least_of, greatest_of, converts};
ghost use Rattle.dk_base.specs.Numbers.{wrap, saturate, bit_count};
ghost use Rattle.dk_base.specs.Operators.{unary_type, binary_type, scaling_type, select_type};

/// A law: numbers as s8 and as u4, wrapped and saturated, and how many bits numbers have.
pub fn worked_numbers()
    ensures wrapped { map (wrap (Signed 8)) (pos 200 ∷ neg_ℤ (pos 129) ∷ pos 511 ∷ neg_ℤ (pos 200) ∷ pos 127 ∷ [])
        ≡ neg_ℤ (pos 56) ∷ pos 127 ∷ neg_ℤ (pos 1) ∷ pos 56 ∷ pos 127 ∷ [] }
    ensures saturated { map (saturate (Signed 8)) (pos 200 ∷ neg_ℤ (pos 129) ∷ pos 511 ∷ neg_ℤ (pos 200) ∷ pos 127 ∷ [])
        ≡ pos 127 ∷ neg_ℤ (pos 128) ∷ pos 127 ∷ neg_ℤ (pos 128) ∷ pos 127 ∷ [] }
    ensures wrapped_unsigned { wrap (Unsigned 4) (neg_ℤ (pos 1)) ≡ pos 15 }
    ensures saturated_unsigned { map (saturate (Unsigned 4)) (neg_ℤ (pos 1) ∷ pos 16 ∷ []) ≡ pos 0 ∷ pos 15 ∷ [] }
    ensures bits { map bit_count (0 ∷ 1 ∷ 2 ∷ 255 ∷ 256 ∷ 18446744073709551615 ∷ []) ≡ 1 ∷ 1 ∷ 2 ∷ 8 ∷ 9 ∷ 64 ∷ [] }
{}

/// A law: the ends of the ranges at 1, 63 and 64 bits.
pub fn worked_ranges()
    ensures least { map least_of (Unsigned 1 ∷ Unsigned 63 ∷ Unsigned 64 ∷ []) ≡ pos 0 ∷ pos 0 ∷ pos 0 ∷ [] }
    ensures greatest { map greatest_of (Unsigned 1 ∷ Unsigned 63 ∷ Unsigned 64 ∷ []) ≡ pos 1 ∷ pos 9223372036854775807 ∷ pos 18446744073709551615 ∷ [] }
    ensures least_signed { map least_of (Signed 1 ∷ Signed 63 ∷ Signed 64 ∷ [])
        ≡ neg_ℤ (pos 1) ∷ neg_ℤ (pos 4611686018427387904) ∷ neg_ℤ (pos 9223372036854775808) ∷ [] }
    ensures greatest_signed { map greatest_of (Signed 1 ∷ Signed 63 ∷ Signed 64 ∷ []) ≡ pos 0 ∷ pos 4611686018427387903 ∷ pos 9223372036854775807 ∷ [] }
    ensures over { wrap (Signed 64) (pos 9223372036854775808) ≡ neg_ℤ (pos 9223372036854775808) }
    ensures under { wrap (Signed 64) (neg_ℤ (pos 9223372036854775809)) ≡ pos 9223372036854775807 }
    ensures over_unsigned { wrap (Unsigned 64) (pos 18446744073709551616) ≡ pos 0 }
    ensures under_unsigned { wrap (Unsigned 64) (neg_ℤ (pos 1)) ≡ pos 18446744073709551615 }
{}

/// A law: the types of what operators give, and None where they do not take the operands or the result is too wide.
pub fn worked_types()
    ensures difference { binary_type Subtract (Unsigned 8) (Unsigned 8) ≡ Some (Signed 9) }
    ensures lesser { binary_type Min (Unsigned 8) (Signed 8) ≡ Some (Signed 9) }
    ensures product { map (λ t. binary_type Multiply t t) (Signed 4 ∷ Unsigned 1 ∷ []) ≡ Some (Signed 8) ∷ Some (Unsigned 2) ∷ [] }
    ensures sum { map (binary_type Add (Unsigned 8)) (Unsigned 1 ∷ Signed 8 ∷ []) ≡ Some (Unsigned 9) ∷ Some (Signed 10) ∷ [] }
    ensures wide_sum { binary_type Add (Unsigned 64) (Unsigned 1) ≡ None }
    ensures comparison { binary_type Less (Unsigned 8) (Signed 8) ≡ Some (Unsigned 1) }
    ensures wide_comparison { binary_type Less (Unsigned 64) (Signed 4) ≡ None }
    ensures by_bits { map (binary_type Xor (Unsigned 8)) (Unsigned 1 ∷ Signed 8 ∷ []) ≡ Some (Unsigned 8) ∷ None ∷ [] }
    ensures minus { map (unary_type Negate) (Unsigned 8 ∷ Unsigned 64 ∷ []) ≡ Some (Signed 9) ∷ None ∷ [] }
    ensures turned { map (unary_type Not) (Unsigned 1 ∷ Unsigned 8 ∷ []) ≡ Some (Unsigned 1) ∷ None ∷ [] }
    ensures size { unary_type Abs (Signed 8) ≡ Some (Unsigned 8) }
    ensures quotient { map (scaling_type Divide (Signed 4)) (2 ∷ 0 ∷ []) ≡ Some (Signed 4) ∷ None ∷ [] }
    ensures shifted_right { map (scaling_type ShiftRight (Signed 4)) (63 ∷ 64 ∷ []) ≡ Some (Signed 4) ∷ None ∷ [] }
    ensures shifted_left { scaling_type ShiftLeft (Unsigned 3) 3 ≡ Some (Unsigned 6) }
    ensures shifted_too_far { scaling_type ShiftLeft (Unsigned 8) 57 ≡ None }
    ensures choice { map (λ t. select_type t (Unsigned 8) (Signed 8)) (Unsigned 1 ∷ Unsigned 8 ∷ []) ≡ Some (Signed 9) ∷ None ∷ [] }
{}

/// A law: which bodies images of declared types take.
pub fn worked_conversions()
    ensures unsigned { map (converts (Unsigned 8)) (Unsigned 8 ∷ Signed 9 ∷ Signed 8 ∷ []) ≡ true ∷ true ∷ false ∷ [] }
    ensures signed { map (converts (Signed 8)) (Signed 9 ∷ Unsigned 8 ∷ []) ≡ true ∷ false ∷ [] }
    ensures wider { converts (Signed 9) (Signed 8) ≡ false }
{}
