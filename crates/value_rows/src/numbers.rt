// Values in 64 bits: low bits, quotients by powers of two, ends of ranges.

ghost use Rattle.std.specs.Prelude.{◌≡◌, ℕ, ◌^◌, ◌≤◌, ◌<◌, ◌<ℤ◌, ◌≤ℤ◌, ◌+ℤ◌, ◌-ℤ◌, ◌*ℤ◌, ◌+◌, ◌-◌, pos, IfSome, bit_and, if◌then◌else◌};
ghost use Rattle.dk_base.specs.declared.ty.Ty.TheVariants.{Unsigned, Signed};
ghost use Rattle.dk_base.specs.Numbers.{code, wrap as wrapped_worth};
ghost use Rattle.dk_base.specs.Operators.{select_value as select_worth};
ghost use Rattle.value_rows.specs.Rows.{IsNarrow};

// The value in 64 bits.
pub fn narrow(value: i128) -> i64
    requires { IsNarrow value }
    ensures { result ≡ value }
{
    value as i64
}

// 2 to the power `exponent`.
#[tactic(auto, using(std::proofs::lemmas::Nat::one_shl, std::proofs::lemmas::Nat::pow_below))]
pub fn power(exponent: u8) -> i64
    requires { exponent ≤ 62 }
    ensures { result ≡ pos (2 ^ exponent) }
{
    let bits: u64 = 1 << exponent;
    bits as i64
}

// This many bits, all of them 1.
#[tactic(auto, using(std::proofs::lemmas::Nat::one_shl, std::proofs::lemmas::Nat::pow_below))]
pub fn mask(width: u8) -> i64
    requires { width ≤ 63 }
    ensures { result ≡ pos (2 ^ width - 1) }
{
    let above: u64 = 1 << width;
    (above - 1) as i64
}

// The product of two values.
pub fn product(left: i64, right: i64) -> i128
    ensures { result ≡ left *ℤ right }
{
    i128::from(left) * i128::from(right)
}

// A number from 0 on as bits.
fn bits_of(number: i64) -> u64
    requires { pos 0 ≤ℤ number }
    ensures value { pos result ≡ number }
    ensures below { result < 9223372036854775808 }
{
    number as u64
}

// Fewer than 64 bits as a number.
fn number_of(bits: u64) -> i64
    requires { bits < 9223372036854775808 }
    ensures { result ≡ pos bits }
{
    bits as i64
}

// The bits of a mask in a value in two's complement.
#[tactic(auto, using(crate::proofs::Bits::masked_is, crate::proofs::Bits::masked_below))]
fn low_bits(value: i64, mask: u64) -> u64
    requires { mask < 9223372036854775808 }
    ensures low { (w : ℕ) → w ≤ 63 → mask ≡ 2 ^ w - 1 → result ≡ code w value }
    ensures below { result < 9223372036854775808 }
{
    value.cast_unsigned() & mask
}

// A value cut to an unsigned type of fewer than 64 bits, by its mask.
pub fn cut_unsigned(value: i64, mask: i64) -> i64
    requires { pos 0 ≤ℤ mask }
    ensures { (w : ℕ) → w ≤ 63 → mask ≡ pos (2 ^ w - 1)
        → result ≡ wrapped_worth (Unsigned w) value }
{
    number_of(low_bits(value, bits_of(mask)))
}

// Low bits, turned by half of their range and back: they are worth what the signed type says, and no branch is needed.
#[tactic(auto, using(crate::proofs::Bits::masked_below))]
fn turned(low: u64, mask: u64, half: u64) -> i64
    requires low { low < 9223372036854775808 }
    requires mask { mask < 9223372036854775808 }
    requires half { half < 9223372036854775808 }
    ensures { result ≡ pos (bit_and (low + half) mask) -ℤ pos half }
{
    let bits = (low + half) & mask;
    number_of(bits) - number_of(half)
}

// A value cut to a signed type of fewer than 64 bits, by its mask and half its range.
pub fn cut_signed(value: i64, mask: i64, half: i64) -> i64
    requires mask { pos 0 ≤ℤ mask }
    requires half { pos 0 ≤ℤ half }
    ensures { (w : ℕ) → 1 ≤ w → w ≤ 63 → mask ≡ pos (2 ^ w - 1) → half ≡ pos (2 ^ (w - 1))
        → result ≡ wrapped_worth (Signed w) value }
{
    let mask = bits_of(mask);
    let low = low_bits(value, mask);
    turned(low, mask, bits_of(half))
}

// The exponent of a power of two below 2 ^ 63, where the number is one.
pub fn exponent_of(number: u64) -> Option<u8>
    ensures { IfSome result (λ k. (k ≤ 62) × (number ≡ 2 ^ k)) }
{
    for exponent in 0..63u8 {
        if number == 1 << exponent {
            return Some(exponent);
        }
    }
    None
}

// A value that is rounded down as it should be rounded toward 0: below 0 the mask is added.
pub fn raised(value: i64, mask: i64) -> i64
    requires { pos 0 ≤ℤ mask }
    ensures below { value <ℤ pos 0 → result ≡ value +ℤ mask }
    ensures above { pos 0 ≤ℤ value → result ≡ value }
{
    if value < 0 { value + mask } else { value }
}

// All bits, or none.
fn all_bits(is: bool) -> u64
    ensures { result ≡ (if is then 2 ^ 64 - 1 else 0) }
{
    if is { u64::MAX } else { 0 }
}

// One of two words. By masks, of which vector code is made, as it is not of two branches.
#[tactic(auto, using(crate::proofs::Bits::one_of_two))]
fn chosen_bits(is: bool, left: u64, right: u64) -> u64
    ensures { result ≡ (if is then left else right) }
{
    (left & all_bits(is)) | (right & all_bits(!is))
}

// One of two values: the left one where the condition is above 0.
pub fn chosen(condition: i64, left: i64, right: i64) -> i64
    ensures { result ≡ select_worth condition left right }
{
    let is = condition > 0;
    let bits = chosen_bits(is, left.cast_unsigned(), right.cast_unsigned());
    bits.cast_signed()
}
