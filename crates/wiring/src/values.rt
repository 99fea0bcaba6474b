// What operators make of numbers.

ghost use Rattle.std.specs.Prelude.{◌≡◌, ◌+◌, ◌-◌, ◌*◌, ◌%◌, ◌^◌, ◌<◌, ◌≤◌};
ghost use Rattle.wiring.specs.Rights.{operator_value};

use crate::right::Operator;

/// The first number that does not fit this many bits.
pub fn limit(width: u8) -> u128
    requires { width ≤ 64 }
    ensures { result ≡ 2 ^ width }
{
    1 << width
}

// Half of the first number that does not fit this many bits.
#[tactic(auto, using(std::proofs::lemmas::Nat::one_shl, std::proofs::lemmas::Nat::pow_below))]
fn half(width: u8) -> u64
    requires some { 1 ≤ width }
    requires narrow { width ≤ 64 }
    ensures { result ≡ 2 ^ (width - 1) }
{
    1 << (width - 1)
}

// This many bits that are all 1, made in 64 bits, since most assigns of a step need it.
fn mask(width: u8) -> u64
    requires { width ≤ 64 }
    ensures { result ≡ 2 ^ width - 1 }
{
    if width == 0 {
        return 0;
    }
    let half = half(width);
    half - 1 + half
}

/// The low bits of a number.
#[tactic(auto, using(std::proofs::lemmas::Nat::and_mask))]
pub fn low_bits(x: u128, width: u8) -> u64
    requires { width ≤ 64 }
    ensures { result ≡ x % 2 ^ width }
{
    let bits = mask(width);
    (x & bits as u128) as u64
}

/// Two numbers of some bits under an operator.
pub fn operator_value(op: Operator, width: u8, a: u64, b: u64) -> u64
    requires narrow { width ≤ 64 }
    requires divisor { op ≡ Operator.Divide → 0 < b }
    ensures { result ≡ operator_value op width a b }
{
    match op {
        Operator::Add => low_bits(a as u128 + b as u128, width),
        Operator::Subtract => low_bits((a as u128 + limit(width)).saturating_sub(b as u128), width),
        Operator::Multiply => low_bits(a as u128 * b as u128, width),
        Operator::Divide => a / b,
        Operator::Less => u64::from(a < b),
        Operator::Equal => u64::from(a == b),
        Operator::And => a & b,
        Operator::Or => a | b,
        Operator::Xor => a ^ b,
    }
}

/// A number above another one of some bits.
pub fn join_value(a: u64, width: u8, b: u64) -> u64
    requires narrow { width ≤ 64 }
    requires fits { a * 2 ^ width + b < 2 ^ 64 }
    ensures { result ≡ a * 2 ^ width + b }
{
    (a as u128 * limit(width) + b as u128) as u64
}
