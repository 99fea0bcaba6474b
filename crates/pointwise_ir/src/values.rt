// The values of the operators.

ghost use Rattle.std.specs.Prelude.{◌≡◌, ◌≤◌, ◌<◌, ◌^◌, pos, unsigned_abs};
ghost use Rattle.dk_base.specs.Types.{IsType};
ghost use Rattle.dk_base.specs.Operators.{unary_value as unary_worth, binary_value as binary_worth, scaling_value as scaling_worth, conversion_value as conversion_worth, select_value as select_worth};
ghost use Rattle.pointwise_ir.specs.Operands.{TakesOne, TakesTwo, TakesScaled};

use dk_base::{Binary, Conversion, Scaling, Ty, Unary, saturate, wrap};

// 2 to the power `exponent`.
#[tactic(auto, using(std::proofs::lemmas::Nat::one_shl, std::proofs::lemmas::Nat::pow_below))]
fn power(exponent: u64) -> i128
    requires { exponent ≤ 63 }
    ensures { result ≡ pos (2 ^ exponent) }
{
    let bits: u128 = 1 << exponent;
    bits as i128
}

/// The value of an operator of one operand.
pub fn unary_value(op: Unary, value: i128) -> i128
    requires { TakesOne op value }
    ensures { result ≡ unary_worth op value }
{
    match op {
        Unary::Negate => -value,
        Unary::Not => 1 - value,
        Unary::Abs => value.abs(),
    }
}

// The bits of a number that is not below 0.
fn bits(value: i128) -> u128
    ensures { result ≡ unsigned_abs value }
{
    value.unsigned_abs()
}

/// The value of an operator of two operands.
pub fn binary_value(op: Binary, left: i128, right: i128) -> i128
    requires { TakesTwo op left right }
    ensures { result ≡ binary_worth op left right }
{
    match op {
        Binary::Add => left + right,
        Binary::Subtract => left - right,
        Binary::Multiply => left * right,
        Binary::Less => i128::from(left < right),
        Binary::LessOrEqual => i128::from(left <= right),
        Binary::Greater => i128::from(left > right),
        Binary::GreaterOrEqual => i128::from(left >= right),
        Binary::Equal => i128::from(left == right),
        Binary::NotEqual => i128::from(left != right),
        Binary::And => (bits(left) & bits(right)) as i128,
        Binary::Or => (bits(left) | bits(right)) as i128,
        Binary::Xor => (bits(left) ^ bits(right)) as i128,
        Binary::Min => left.min(right),
        Binary::Max => left.max(right),
    }
}

/// The value of an operator of an operand and a number that the program writes.
pub fn scaling_value(op: Scaling, value: i128, by: u64) -> i128
    requires { TakesScaled op value by }
    ensures { result ≡ scaling_worth op value by }
{
    match op {
        Scaling::Divide => value / by as i128,
        Scaling::ShiftLeft => value * power(by),
        Scaling::ShiftRight => value.div_euclid(power(by)),
    }
}

/// A value brought into the range of a type.
pub fn conversion_value(how: Conversion, ty: Ty, value: i128) -> i128
    requires { IsType ty }
    ensures { result ≡ conversion_worth how ty value }
{
    match how {
        Conversion::Cast => wrap(value, ty),
        Conversion::Saturate => saturate(value, ty),
    }
}

/// The value of a choice: `left` where the condition is above 0, else `right`.
pub fn select_value(condition: i128, left: i128, right: i128) -> i128
    ensures { result ≡ select_worth condition left right }
{
    if condition > 0 { left } else { right }
}
