// Constants, and what operators make of them.

ghost use Rattle.std.specs.Prelude.{◌≡◌, ◌+◌, ◌-◌, ◌*◌, ◌/◌, ◌%◌, ◌^◌, ◌<◌, [], ◌∷◌, Some, MatchOption};
ghost use Rattle.wiring.specs.Rights.{repeated, operator_width, operator_value};
ghost use Rattle.wiring.specs.Sizes.{IsWidth};
ghost use Rattle.datapath.specs.Nets.{AreJoined, AreOperandsOf, HasPart, HasWidth, IsConstantOf, IsFolded, IsKnown, IsSized, bits_of, known_value};

use crate::ends::all_ones;
use crate::operand::Signal;
use net_build::Builder;
use wiring::{Operator, join_value, low_bits, operator_value};

// The constant of `width` bits of this value.
pub(crate) fn constant(width: u8, value: u64) -> Signal
    requires width { IsWidth width }
    requires fits { value < 2 ^ width }
    ensures { IsConstantOf width value result }
{
    Signal::Constant(width, value)
}

// The number of `width` bits of which only the highest bit is 1.
#[tactic(auto, using(std::proofs::lemmas::Nat::one_shl, std::proofs::lemmas::Nat::pow_below))]
fn half(width: u8) -> u64
    requires { IsWidth width }
    ensures value { result ≡ 2 ^ (width - 1) }
    ensures fits { result < 2 ^ width }
{
    1 << (width - 1)
}

// The constant of `width` bits of which only the highest bit is 1.
pub(crate) fn top_bit(width: u8) -> Signal
    requires { IsWidth width }
    ensures { IsConstantOf width (2 ^ (width - 1)) result }
{
    constant(width, half(width))
}

// The value of a constant, or None of a net.
pub(crate) fn known(x: Signal) -> Option<u64>
    ensures { MatchOption result (IsKnown x → ⊥) (λ v. known_value x ≡ Some v) }
{
    match x {
        Signal::Net(_) => None,
        Signal::Constant(_, value) => Some(value),
    }
}

// The width of what an operator gives.
fn evaluated_width(operator: Operator, width: u8) -> u8
    ensures { result ≡ operator_width operator width }
{
    match operator {
        Operator::Less | Operator::Equal => 1,
        Operator::Add | Operator::Subtract | Operator::Multiply | Operator::Divide => width,
        Operator::And | Operator::Or | Operator::Xor => width,
    }
}

// This many copies of a bit.
fn copies(count: u8, bit: u64) -> u64
    requires count { IsWidth count }
    requires bit { bit < 2 ^ 1 }
    ensures { result ≡ repeated count 1 bit }
{
    if bit == 0 {
        return 0;
    }
    all_ones(count)
}

// An operator of two constants, or None where one is a net.
pub(crate) fn folded(
    b: &Builder,
    operator: Operator,
    width: u8,
    x: Signal,
    y: Signal,
) -> Option<Signal>
    requires { AreOperandsOf b.now operator width x y }
    ensures { IsFolded b.now result (x ∷ (y ∷ [])) (operator_width operator width) (λ s. operator_value operator width (bits_of s x) (bits_of s y)) }
{
    let left = known(x)?;
    let right = known(y)?;
    let value = operator_value(operator, width, left, right);
    Some(constant(evaluated_width(operator, width), value))
}

// A constant above another, or None where one is a net.
pub(crate) fn folded_join(b: &Builder, high: u8, x: Signal, low: u8, y: Signal) -> Option<Signal>
    requires { AreJoined b.now high x low y }
    ensures { IsFolded b.now result (x ∷ (y ∷ [])) (high + low) (λ s. bits_of s x * 2 ^ low + bits_of s y) }
{
    let left = known(x)?;
    let right = known(y)?;
    let value = join_value(left, low, right);
    Some(constant(high + low, value))
}

// This many copies of a constant bit, or None of a net.
pub(crate) fn folded_repeat(b: &Builder, count: u8, x: Signal) -> Option<Signal>
    requires width { IsWidth count }
    requires x { HasWidth b.now x 1 }
    ensures { IsFolded b.now result (x ∷ []) count (λ s. repeated count 1 (bits_of s x)) }
{
    let bit = known(x)?;
    let value = copies(count, bit);
    Some(constant(count, value))
}

// The other bits of a constant, or None of a net.
pub(crate) fn folded_not(b: &Builder, width: u8, x: Signal) -> Option<Signal>
    requires { IsSized b.now width x }
    ensures { IsFolded b.now result (x ∷ []) width (λ s. 2 ^ width - 1 - bits_of s x) }
{
    let bits = known(x)?;
    let value = all_ones(width) - bits;
    Some(constant(width, value))
}

// The `count` bits of a constant from bit `low` on, or None of a net.
pub(crate) fn folded_part(b: &Builder, width: u8, x: Signal, low: u8, count: u8) -> Option<Signal>
    requires { HasPart b.now width x low count }
    ensures { IsFolded b.now result (x ∷ []) count (λ s. bits_of s x / 2 ^ low % 2 ^ count) }
{
    let bits = known(x)?;
    let value = low_bits((bits >> low) as u128, count);
    Some(constant(count, value))
}
