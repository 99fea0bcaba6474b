// The operators of the language, and the types of what they give.

ghost use Rattle.std.specs.Prelude.{◌≡◌, IfSome};
ghost use Rattle.dk_base.specs.Types.{IsType};
ghost use Rattle.dk_base.specs.Operators.{unary_type, is_bitwise, binary_result, binary_type, scaling_type, select_type as selected_type, limited};

use crate::ty::Ty;
use crate::{MAX_SHIFT, MAX_WIDTH};

/// An operator of one operand.
#[derive(Clone, Copy, Debug, PartialEq, Eq)]
pub enum Unary {
    Negate,
    Not,
    Abs,
}

/// An operator of two operands.
#[derive(Clone, Copy, Debug, PartialEq, Eq)]
pub enum Binary {
    Add,
    Subtract,
    Multiply,
    Less,
    LessOrEqual,
    Greater,
    GreaterOrEqual,
    Equal,
    NotEqual,
    And,
    Or,
    Xor,
    Min,
    Max,
}

/// An operator whose right operand is a number that the program writes.
#[derive(Clone, Copy, Debug, PartialEq, Eq)]
pub enum Scaling {
    Divide,
    ShiftLeft,
    ShiftRight,
}

/// What brings a value into the range of a type that the program writes: `Cast` wraps, `Saturate` takes the nearest.
#[derive(Clone, Copy, Debug, PartialEq, Eq)]
pub enum Conversion {
    Cast,
    Saturate,
}

// The type, where it is not too wide.
fn limited(ty: Ty) -> Option<Ty>
    ensures { result ≡ limited ty }
{
    if ty.width() <= MAX_WIDTH {
        Some(ty)
    } else {
        None
    }
}

impl Unary {
    /// The type of what the operator gives. None where the operand's type is none that it takes, or the type would be too wide.
    pub fn result_type(self, operand: Ty) -> Option<Ty>
        requires { IsType operand }
        ensures value { result ≡ unary_type self operand }
        ensures typed { IfSome result (λ t. IsType t) }
    {
        match self {
            Unary::Negate => limited(operand.negation()),
            Unary::Not => {
                if operand.is_bit() {
                    Some(operand)
                } else {
                    None
                }
            }
            Unary::Abs => Some(operand.magnitude()),
        }
    }
}

impl Binary {
    /// Whether it works bit by bit, and so on unsigned operands only.
    pub fn is_bitwise(self) -> bool
        ensures { result ≡ is_bitwise self }
    {
        match self {
            Binary::Add | Binary::Subtract | Binary::Multiply => false,
            Binary::Less | Binary::LessOrEqual => false,
            Binary::Greater | Binary::GreaterOrEqual => false,
            Binary::Equal | Binary::NotEqual => false,
            Binary::And | Binary::Or | Binary::Xor => true,
            Binary::Min | Binary::Max => false,
        }
    }

    // The type of what the operator gives, which may be too wide.
    fn unlimited(self, left: Ty, right: Ty) -> Ty
        requires left { IsType left }
        requires right { IsType right }
        ensures { result ≡ binary_result self left right }
    {
        match self {
            Binary::Add => left.sum(right),
            Binary::Subtract => left.difference(right),
            Binary::Multiply => left.product(right),
            Binary::Less | Binary::LessOrEqual => Ty::Unsigned(1),
            Binary::Greater | Binary::GreaterOrEqual => Ty::Unsigned(1),
            Binary::Equal | Binary::NotEqual => Ty::Unsigned(1),
            Binary::And | Binary::Or | Binary::Xor => left.common(right),
            Binary::Min | Binary::Max => left.common(right),
        }
    }

    /// The type of what the operator gives. None where it works bit by bit and an operand is signed, or where the common type or the result's would be too wide.
    pub fn result_type(self, left: Ty, right: Ty) -> Option<Ty>
        requires left { IsType left }
        requires right { IsType right }
        ensures value { result ≡ binary_type self left right }
        ensures typed { IfSome result (λ t. IsType t) }
    {
        if self.is_bitwise() && (left.is_signed() || right.is_signed()) {
            return None;
        }
        if MAX_WIDTH < left.common(right).width() {
            return None;
        }
        limited(self.unlimited(left, right))
    }
}

impl Scaling {
    /// The type of what the operator gives with the number `by`. None where `by` is no divisor or no shift, or where the type would be too wide.
    pub fn result_type(self, operand: Ty, by: u64) -> Option<Ty>
        requires { IsType operand }
        ensures value { result ≡ scaling_type self operand by }
        ensures typed { IfSome result (λ t. IsType t) }
    {
        match self {
            Scaling::Divide if by == 0 => None,
            Scaling::Divide => Some(operand),
            Scaling::ShiftLeft | Scaling::ShiftRight if MAX_SHIFT < by => None,
            Scaling::ShiftLeft => limited(operand.shifted(by as u8)),
            Scaling::ShiftRight => Some(operand),
        }
    }
}

/// The type of `select` with a condition and two values. None where the condition is not of one bit, or the common type would be too wide.
pub fn select_type(condition: Ty, left: Ty, right: Ty) -> Option<Ty>
    requires left { IsType left }
    requires right { IsType right }
    ensures value { result ≡ selected_type condition left right }
    ensures typed { IfSome result (λ t. IsType t) }
{
    if condition.is_bit() {
        limited(left.common(right))
    } else {
        None
    }
}
