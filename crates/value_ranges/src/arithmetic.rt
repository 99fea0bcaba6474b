// The intervals of the operators' values.

ghost use Rattle.std.specs.Prelude.{◌≡◌, ℤ, ◌+ℤ◌, ◌-ℤ◌, ◌*ℤ◌, ◌<◌, ◌≤◌, ◌^◌, pos, IfSome, Bool, unsigned_abs, bit_and, bit_or, bit_xor, int_div};
ghost use Rattle.std.specs.Int.{int_min, int_max, int_div_euclid};
ghost use Rattle.dk_base.specs.Types.{IsType};
ghost use Rattle.dk_base.specs.Numbers.{saturate as saturated, wrap as cut};
ghost use Rattle.dk_base.specs.Operators.{unary_value, binary_value, scaling_value, conversion_value, truth};
ghost use Rattle.value_ranges.specs.Intervals.{IsBetween};
ghost use Rattle.value_ranges.specs.Ranges.{spanning, multiples_by, products, truth_values, common_bits_of, all_bits_of, binary_interval, differences_from, magnitudes, unary_interval, scaling_interval, converted_interval, has_all, type_range, conversion_interval, join};

use crate::interval::Interval;
use dk_base::{Binary, Conversion, MAX_SHIFT, MAX_WIDTH, Scaling, Ty, Unary, bits_for, saturate};

#[tactic(auto, using(crate::proofs::Spans::span_some, crate::proofs::Spans::span_low, crate::proofs::Spans::span_high))]
fn sum(left: Interval, right: Interval) -> Option<Interval>
    ensures exact { result ≡ spanning (left.least +ℤ right.least) (left.greatest +ℤ right.greatest) }
    ensures within { IfSome result (λ r. (v u : ℤ) → IsBetween left v → IsBetween right u → IsBetween r (v +ℤ u)) }
{
    let least = left.least.checked_add(right.least)?;
    let greatest = left.greatest.checked_add(right.greatest)?;
    Some(Interval { least, greatest })
}

#[tactic(auto, using(crate::proofs::Spans::span_some, crate::proofs::Spans::span_low, crate::proofs::Spans::span_high))]
fn difference(left: Interval, right: Interval) -> Option<Interval>
    ensures exact { result ≡ spanning (left.least -ℤ right.greatest) (left.greatest -ℤ right.least) }
    ensures within { IfSome result (λ r. (v u : ℤ) → IsBetween left v → IsBetween right u → IsBetween r (v -ℤ u)) }
{
    let least = left.least.checked_sub(right.greatest)?;
    let greatest = left.greatest.checked_sub(right.least)?;
    Some(Interval { least, greatest })
}

// The products with one factor.
#[tactic(auto, using(crate::proofs::Spans::pair_none_first, crate::proofs::Spans::pair_none_last))]
fn multiples(factor: i128, range: Interval) -> Option<Interval>
    ensures exact { result ≡ multiples_by factor range }
    ensures within { IfSome result (λ r. (v : ℤ) → IsBetween range v → IsBetween r (factor *ℤ v)) }
{
    let one = factor.checked_mul(range.least)?;
    let other = factor.checked_mul(range.greatest)?;
    Some(Interval::of_value(one).join(Interval::of_value(other)))
}

// The products: the least and the greatest are among those of the ends.
fn product(left: Interval, right: Interval) -> Option<Interval>
    ensures exact { result ≡ products left right }
    ensures within { IfSome result (λ r. (v u : ℤ) → IsBetween left v → IsBetween right u → IsBetween r (v *ℤ u)) }
{
    let one = multiples(left.least, right)?;
    let other = multiples(left.greatest, right)?;
    Some(one.join(other))
}

fn minimum(left: Interval, right: Interval) -> Interval
    ensures exact { result ≡ record { least = int_min left.least right.least; greatest = int_min left.greatest right.greatest } }
    ensures within { (v u : ℤ) → IsBetween left v → IsBetween right u → IsBetween result (int_min v u) }
{
    Interval {
        least: left.least.min(right.least),
        greatest: left.greatest.min(right.greatest),
    }
}

fn maximum(left: Interval, right: Interval) -> Interval
    ensures exact { result ≡ record { least = int_max left.least right.least; greatest = int_max left.greatest right.greatest } }
    ensures within { (v u : ℤ) → IsBetween left v → IsBetween right u → IsBetween result (int_max v u) }
{
    Interval {
        least: left.least.max(right.least),
        greatest: left.greatest.max(right.greatest),
    }
}

// The results of comparisons.
#[tactic(auto, using(crate::proofs::Ends::truth_between))]
fn truths() -> Interval
    ensures exact { result ≡ truth_values }
    ensures within { (is : Bool) → IsBetween result (truth is) }
{
    Interval {
        least: 0,
        greatest: 1,
    }
}

// The common bits of numbers that are not below 0: at most the lesser one.
fn common_bits(left: Interval, right: Interval) -> Option<Interval>
    ensures exact { result ≡ common_bits_of left right }
    ensures within { IfSome result (λ r. (v u : ℤ) → IsBetween left v → IsBetween right u → IsBetween r (pos (bit_and (unsigned_abs v) (unsigned_abs u)))) }
{
    if left.least < 0 || right.least < 0 {
        return None;
    }
    Some(Interval {
        least: 0,
        greatest: left.greatest.min(right.greatest),
    })
}

// The bits of either one of numbers that are not below 0: those of the greater one.
fn either_bits(left: Interval, right: Interval) -> Option<Interval>
    ensures exact { result ≡ all_bits_of (join left right) }
    ensures or { IfSome result (λ r. (v u : ℤ) → IsBetween left v → IsBetween right u → IsBetween r (pos (bit_or (unsigned_abs v) (unsigned_abs u)))) }
    ensures xor { IfSome result (λ r. (v u : ℤ) → IsBetween left v → IsBetween right u → IsBetween r (pos (bit_xor (unsigned_abs v) (unsigned_abs u)))) }
{
    let both = left.join(right);
    if both.least < 0 || both.greatest < 0 || i128::from(u64::MAX) < both.greatest {
        return None;
    }
    let width = bits_for(both.greatest as u64);
    Some(Interval::of_type(Ty::Unsigned(width)))
}

/// The values of an operator of two operands, from those of the operands. None where an end is beyond i128, or an operand of what works bit by bit may be below 0.
pub fn binary_range(op: Binary, left: Interval, right: Interval) -> Option<Interval>
    ensures exact { result ≡ binary_interval op left right }
    ensures within { IfSome result (λ r. (v u : ℤ) → IsBetween left v → IsBetween right u → IsBetween r (binary_value op v u)) }
{
    match op {
        Binary::Add => sum(left, right),
        Binary::Subtract => difference(left, right),
        Binary::Multiply => product(left, right),
        Binary::Less => Some(truths()),
        Binary::LessOrEqual => Some(truths()),
        Binary::Greater => Some(truths()),
        Binary::GreaterOrEqual => Some(truths()),
        Binary::Equal => Some(truths()),
        Binary::NotEqual => Some(truths()),
        Binary::And => common_bits(left, right),
        Binary::Or => either_bits(left, right),
        Binary::Xor => either_bits(left, right),
        Binary::Min => Some(minimum(left, right)),
        Binary::Max => Some(maximum(left, right)),
    }
}

// The differences of a number and the values.
#[tactic(auto, using(crate::proofs::Spans::span_some, crate::proofs::Spans::span_low, crate::proofs::Spans::span_high))]
fn taken_from(value: i128, range: Interval) -> Option<Interval>
    ensures exact { result ≡ differences_from value range }
    ensures within { IfSome result (λ r. (v : ℤ) → IsBetween range v → IsBetween r (value -ℤ v)) }
{
    let least = value.checked_sub(range.greatest)?;
    let greatest = value.checked_sub(range.least)?;
    Some(Interval { least, greatest })
}

// The absolute values.
#[tactic(auto, using(crate::proofs::Spans::magnitudes_none))]
fn magnitude(range: Interval) -> Option<Interval>
    ensures exact { result ≡ magnitudes range }
    ensures within { IfSome result (λ r. (v : ℤ) → IsBetween range v → IsBetween r (pos (unsigned_abs v))) }
{
    if 0 <= range.least {
        return Some(range);
    }
    let negated = taken_from(0, range)?;
    if range.greatest <= 0 {
        return Some(negated);
    }
    Some(Interval {
        least: 0,
        greatest: range.greatest.max(negated.greatest),
    })
}

/// The values of an operator of one operand, from those of the operand. None where an end is beyond i128.
pub fn unary_range(op: Unary, operand: Interval) -> Option<Interval>
    ensures exact { result ≡ unary_interval op operand }
    ensures within { IfSome result (λ r. (v : ℤ) → IsBetween operand v → IsBetween r (unary_value op v)) }
{
    match op {
        Unary::Negate => taken_from(0, operand),
        Unary::Not => taken_from(1, operand),
        Unary::Abs => magnitude(operand),
    }
}

// A quotient, rounded to zero.
fn quotient(value: i128, by: u64) -> i128
    requires { 0 < by }
    ensures { result ≡ int_div value (pos by) }
{
    value / by as i128
}

// 2 to the power `exponent`.
#[tactic(auto, using(std::proofs::lemmas::Nat::one_shl, std::proofs::lemmas::Nat::pow_below))]
fn power(exponent: u64) -> i128
    requires { exponent ≤ 63 }
    ensures { result ≡ pos (2 ^ exponent) }
{
    let bits: u128 = 1 << exponent;
    bits as i128
}

// A quotient by a power of two, rounded down.
fn halved(value: i128, times: u64) -> i128
    requires { times ≤ 63 }
    ensures { result ≡ int_div_euclid value (pos (2 ^ times)) }
{
    value.div_euclid(power(times))
}

/// The values of an operator of an operand and a number that the program writes, from those of the operand. None where the operator does not take the number, or an end is beyond i128.
pub fn scaling_range(op: Scaling, operand: Interval, by: u64) -> Option<Interval>
    ensures exact { result ≡ scaling_interval op operand by }
    ensures within { IfSome result (λ r. (v : ℤ) → IsBetween operand v → IsBetween r (scaling_value op v by)) }
{
    match op {
        Scaling::Divide => quotients(operand, by),
        Scaling::ShiftLeft => raised(operand, by),
        Scaling::ShiftRight => lowered(operand, by),
    }
}

fn quotients(range: Interval, by: u64) -> Option<Interval>
    ensures exact { result ≡ scaling_interval Scaling.Divide range by }
    ensures within { IfSome result (λ r. (v : ℤ) → IsBetween range v → IsBetween r (int_div v (pos by))) }
{
    if by == 0 {
        return None;
    }
    Some(Interval {
        least: quotient(range.least, by),
        greatest: quotient(range.greatest, by),
    })
}

fn raised(range: Interval, by: u64) -> Option<Interval>
    ensures exact { result ≡ scaling_interval Scaling.ShiftLeft range by }
    ensures within { IfSome result (λ r. (v : ℤ) → IsBetween range v → IsBetween r (v *ℤ pos (2 ^ by))) }
{
    if MAX_SHIFT < by {
        return None;
    }
    let products = multiples(power(by), range)?;
    Some(products)
}

fn lowered(range: Interval, by: u64) -> Option<Interval>
    ensures exact { result ≡ scaling_interval Scaling.ShiftRight range by }
    ensures within { IfSome result (λ r. (v : ℤ) → IsBetween range v → IsBetween r (int_div_euclid v (pos (2 ^ by)))) }
{
    if MAX_SHIFT < by {
        return None;
    }
    Some(Interval {
        least: halved(range.least, by),
        greatest: halved(range.greatest, by),
    })
}

// The values, cut to those of a type by the nearest one.
fn clamped(range: Interval, ty: Ty) -> Interval
    requires { IsType ty }
    ensures exact { result ≡ converted_interval Conversion.Saturate range ty }
    ensures within { (v : ℤ) → IsBetween range v → IsBetween result (saturated ty v) }
{
    Interval {
        least: saturate(range.least, ty),
        greatest: saturate(range.greatest, ty),
    }
}

// The values, where the type has all of them, else all values of the type.
fn wrapped(range: Interval, ty: Ty) -> Interval
    requires { IsType ty }
    ensures exact { result ≡ converted_interval Conversion.Cast range ty }
    ensures within { (v : ℤ) → IsBetween range v → IsBetween result (cut ty v) }
{
    if range.is_within(ty) {
        range
    } else {
        Interval::of_type(ty)
    }
}

/// Values brought into the range of a type. None where it is no type of values.
pub fn conversion_range(how: Conversion, operand: Interval, ty: Ty) -> Option<Interval>
    ensures exact { result ≡ conversion_interval how operand ty }
    ensures within { IfSome result (λ r. (v : ℤ) → IsBetween operand v → IsBetween r (conversion_value how ty v)) }
{
    let width = ty.width();
    if width < 1 || MAX_WIDTH < width {
        return None;
    }
    match how {
        Conversion::Cast => Some(wrapped(operand, ty)),
        Conversion::Saturate => Some(clamped(operand, ty)),
    }
}
