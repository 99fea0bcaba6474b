// The levels that each operator adds.

ghost use Rattle.std.specs.Prelude.{◌≡◌, ◌≤◌};
ghost use Rattle.body_levels.specs.Operators as levels;

use dk_base::{Binary, Conversion, Scaling, Unary};

/// The levels that an operator of one operand adds.
pub fn unary_levels(op: Unary) -> u32
    ensures value { result ≡ levels.unary_levels op }
    ensures most { result ≤ 2 }
{
    match op {
        Unary::Negate | Unary::Not => 1,
        Unary::Abs => 2,
    }
}

/// The levels that an operator of two operands adds. `has_power` says that an operand is a power of two that the program writes.
pub fn binary_levels(op: Binary, has_power: bool) -> u32
    ensures value { result ≡ levels.binary_levels op has_power }
    ensures most { result ≤ 2 }
{
    match op {
        Binary::Multiply => { if has_power { 0 } else { 1 } }
        Binary::Add | Binary::Subtract => 1,
        Binary::Less | Binary::LessOrEqual => 1,
        Binary::Greater | Binary::GreaterOrEqual => 1,
        Binary::Equal | Binary::NotEqual => 1,
        Binary::And | Binary::Or | Binary::Xor => 1,
        Binary::Min | Binary::Max => 2,
    }
}

/// The levels that an operator with the number `by` adds.
pub fn scaling_levels(op: Scaling, by: u64) -> u32
    ensures value { result ≡ levels.scaling_levels op by }
    ensures most { result ≤ 2 }
{
    match op {
        Scaling::Divide => { if by.is_power_of_two() { 0 } else { 2 } }
        Scaling::ShiftLeft | Scaling::ShiftRight => 0,
    }
}

/// The levels that a conversion adds.
pub fn conversion_levels(how: Conversion) -> u32
    ensures value { result ≡ levels.conversion_levels how }
    ensures most { result ≤ 2 }
{
    match how {
        Conversion::Cast => 0,
        Conversion::Saturate => 1,
    }
}

/// The levels that a choice adds.
pub fn select_levels() -> u32
    ensures value { result ≡ levels.select_levels }
    ensures most { result ≤ 2 }
{
    1
}
