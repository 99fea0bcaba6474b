// Whole numbers brought into the range of a type, and their bits counted.

ghost use Rattle.std.specs.Prelude.{◌≡◌, ℤ};
ghost use Rattle.dk_base.specs.Types.{IsType, IsIn};
ghost use Rattle.dk_base.specs.Numbers.{bit_count, IsBitCount, wrap as wrapped, saturate as saturated, IsWrapped, IsNearest};

use crate::ty::{Ty, power};

/// The least number of bits, at least 1, that hold `value`.
pub fn bits_for(value: u64) -> u8
    ensures value { result ≡ bit_count value }
    ensures least { IsBitCount value result }
{
    if value == 0 {
        return 1;
    }
    (64 - value.leading_zeros()) as u8
}

/// The number of the range of `ty` that is equal to `value` modulo 2 to the power of its width: `value` in two's complement, cut to that many bits.
pub fn wrap(value: i128, ty: Ty) -> i128
    requires { IsType ty }
    ensures { result ≡ wrapped ty value }
{
    let modulus = power(ty.width());
    let bits = value.rem_euclid(modulus);
    if bits <= ty.greatest() {
        bits
    } else {
        bits - modulus
    }
}

/// The number of the range of `ty` that is nearest to `value`.
pub fn saturate(value: i128, ty: Ty) -> i128
    requires { IsType ty }
    ensures { result ≡ saturated ty value }
{
    let least = ty.least();
    let greatest = ty.greatest();
    if value < least {
        least
    } else if greatest < value {
        greatest
    } else {
        value
    }
}

/// A law: for each whole number there is exactly one number of the range that is equal to it modulo 2 to the power of the width, and it is the wrapped one. A number of the range is its own.
pub fn wrap_law(ty: Ty)
    requires { IsType ty }
    ensures wraps { (v : ℤ) → IsWrapped ty v (wrapped ty v) }
    ensures only { (v w : ℤ) → IsWrapped ty v w → w ≡ wrapped ty v }
    ensures kept { (v : ℤ) → IsIn ty v → wrapped ty v ≡ v }
{}

/// A law: the saturated number is in the range, and no number of the range is nearer. A number of the range is its own.
pub fn saturate_law(ty: Ty)
    requires { IsType ty }
    ensures nearest { (v : ℤ) → IsNearest ty v (saturated ty v) }
    ensures only { (v w : ℤ) → IsNearest ty v w → w ≡ saturated ty v }
    ensures kept { (v : ℤ) → IsIn ty v → saturated ty v ≡ v }
{}
