// How many levels of operators a form adds to those of its operands.

use crate::term::{Term, TermNode};
use body_levels::{binary_levels, conversion_levels, scaling_levels, select_levels, unary_levels};
use dk_base::{Binary, Conversion, Scaling};

// Whether the expression is a number that is a power of two.
fn is_power(e: &Term) -> bool {
    match &e.node {
        TermNode::Number(value) => value.is_power_of_two(),
        _ => false,
    }
}

// Whether an operand is a number that is a power of two.
fn has_power(left: &Term, right: &Term) -> bool {
    is_power(left) || is_power(right)
}

/// The levels that the outermost form of the expression adds.
pub fn own_levels(e: &Term) -> u32 {
    match &e.node {
        TermNode::Number(_) | TermNode::Read(_) | TermNode::InFrame(_, _) => 0,
        TermNode::Unary(operator, _) => unary_levels(*operator),
        TermNode::Binary(operator, a, b) => binary_levels(*operator, has_power(a, b)),
        TermNode::Scale(operator, _, by) => scaling_levels(*operator, *by),
        TermNode::Convert(how, _) => conversion_levels(*how),
        TermNode::Select(_, _, _) => select_levels(),
    }
}

// Whether the operator adds no level, and no operand has more bits than what it gives.
fn binary_widens(operator: Binary, has_power: bool) -> bool {
    match operator {
        Binary::Multiply => has_power,
        Binary::Add | Binary::Subtract => false,
        Binary::Less | Binary::LessOrEqual => false,
        Binary::Greater | Binary::GreaterOrEqual => false,
        Binary::Equal | Binary::NotEqual => false,
        Binary::And | Binary::Or | Binary::Xor => false,
        Binary::Min | Binary::Max => false,
    }
}

fn scaling_widens(operator: Scaling) -> bool {
    match operator {
        Scaling::ShiftLeft => true,
        Scaling::Divide | Scaling::ShiftRight => false,
    }
}

// The same of a conversion, by the widths of its operand and of what it gives.
fn conversion_widens(how: Conversion, from: u8, to: u8) -> bool {
    match how {
        Conversion::Cast => from <= to,
        Conversion::Saturate => false,
    }
}

/// Whether the outermost form adds no level, and its type has no fewer bits than that of its operand.
pub fn only_widens(e: &Term) -> bool {
    match &e.node {
        TermNode::Binary(operator, a, b) => binary_widens(*operator, has_power(a, b)),
        TermNode::Scale(operator, _, _) => scaling_widens(*operator),
        TermNode::Convert(how, a) => conversion_widens(*how, a.ty.width(), e.ty.width()),
        TermNode::Number(_) | TermNode::Read(_) | TermNode::InFrame(_, _) => false,
        TermNode::Unary(_, _) | TermNode::Select(_, _, _) => false,
    }
}
