// Parts of a body as text, put together by operators.

use crate::words::{push_number, push_read, push_type};
use dk_base::{Binary, Conversion, OutOfMemory, Scaling, Ty, Unary};
use source_words::Keyword;
use std::alloc::Global;

/// The levels of precedence, from the highest.
#[derive(Clone, Copy, PartialEq, Eq, PartialOrd, Ord)]
pub enum Precedence {
    Primary,
    Prefix,
    Cast,
    Product,
    Sum,
    Shift,
    And,
    Xor,
    Or,
    Comparison,
}

/// A part of a body as text.
#[derive(Drop)]
pub struct Part {
    pub text: Vec<u8>,
    pub binding: Precedence,
    /// The levels of operators. None if it has no read.
    pub levels: Option<u32>,
}

// An operator of two operands that is written between them.
#[derive(Clone, Copy)]
struct Infix {
    word: &'static str,
    binding: Precedence,
    left: Precedence,
    right: Precedence,
}

// How an operator of two operands is written.
#[derive(Clone, Copy)]
enum Spelling {
    Function(Keyword),
    Between(Infix),
}

/// The most of two levels.
pub fn most_levels(one: Option<u32>, other: Option<u32>) -> Option<u32> {
    match (one, other) {
        (Some(one), Some(other)) => Some(one.max(other)),
        (Some(one), None) => Some(one),
        (None, other) => other,
    }
}

// The text of an operand, in brackets if it binds less tightly than `loosest`.
fn operand(alloc: Global, part: Part, loosest: Precedence) -> Result<Vec<u8>, OutOfMemory> {
    if part.binding <= loosest {
        return Ok(part.text);
    }
    let mut text = Vec::new(alloc);
    text.push(b'(')?;
    text.extend_from_slice(&part.text)?;
    text.push(b')')?;
    Ok(text)
}

/// A number.
pub fn number(alloc: Global, value: u64) -> Result<Part, OutOfMemory> {
    let mut text = Vec::new(alloc);
    push_number(&mut text, value)?;
    Ok(primary(text, None))
}

/// The read of a piece of the body.
pub fn piece_read(alloc: Global, name: &[u8]) -> Result<Part, OutOfMemory> {
    let mut text = Vec::new(alloc);
    push_read(&mut text, name, 0, 0)?;
    Ok(primary(text, Some(0)))
}

// An operator with its operands in brackets.
fn function(alloc: Global, keyword: Keyword, operands: &[&[u8]]) -> Result<Vec<u8>, OutOfMemory> {
    let mut text = Vec::new(alloc);
    text.extend_from_slice(keyword.spelling().as_bytes())?;
    let mut before: &[u8] = b"(";
    for operand in operands {
        text.extend_from_slice(before)?;
        text.extend_from_slice(operand)?;
        before = b", ";
    }
    text.push(b')')?;
    Ok(text)
}

// A primary expression.
fn primary(text: Vec<u8>, levels: Option<u32>) -> Part {
    Part {
        text,
        binding: Precedence::Primary,
        levels,
    }
}

fn prefixed(alloc: Global, sign: u8, a: Part) -> Result<Part, OutOfMemory> {
    let levels = a.levels;
    let inner = operand(alloc, a, Precedence::Primary)?;
    let mut text = Vec::new(alloc);
    text.push(sign)?;
    text.extend_from_slice(&inner)?;
    Ok(Part {
        text,
        binding: Precedence::Prefix,
        levels,
    })
}

/// An operator and its operand. Only its form is added, and no level: the caller adds the levels of the operator, here and below.
pub fn unary(alloc: Global, operator: Unary, a: Part) -> Result<Part, OutOfMemory> {
    match operator {
        Unary::Negate => prefixed(alloc, b'-', a),
        Unary::Not => prefixed(alloc, b'!', a),
        Unary::Abs => {
            let text = function(alloc, Keyword::Abs, &[&a.text])?;
            Ok(primary(text, a.levels))
        }
    }
}

// An operator whose operands group to the left.
fn grouping(word: &'static str, binding: Precedence, right: Precedence) -> Spelling {
    Spelling::Between(Infix {
        word,
        binding,
        left: binding,
        right,
    })
}

// A comparison does not group.
fn comparing(word: &'static str) -> Spelling {
    Spelling::Between(Infix {
        word,
        binding: Precedence::Comparison,
        left: Precedence::Or,
        right: Precedence::Or,
    })
}

fn spelling_of(operator: Binary) -> Spelling {
    match operator {
        Binary::Add => grouping(" + ", Precedence::Sum, Precedence::Product),
        Binary::Subtract => grouping(" - ", Precedence::Sum, Precedence::Product),
        Binary::Multiply => grouping(" * ", Precedence::Product, Precedence::Cast),
        Binary::Less => comparing(" < "),
        Binary::LessOrEqual => comparing(" <= "),
        Binary::Greater => comparing(" > "),
        Binary::GreaterOrEqual => comparing(" >= "),
        Binary::Equal => comparing(" == "),
        Binary::NotEqual => comparing(" != "),
        Binary::And => grouping(" & ", Precedence::And, Precedence::Shift),
        Binary::Or => grouping(" | ", Precedence::Or, Precedence::Xor),
        Binary::Xor => grouping(" ^ ", Precedence::Xor, Precedence::And),
        Binary::Min => Spelling::Function(Keyword::Min),
        Binary::Max => Spelling::Function(Keyword::Max),
    }
}

fn between(alloc: Global, infix: Infix, a: Part, b: Part) -> Result<Part, OutOfMemory> {
    let levels = most_levels(a.levels, b.levels);
    let mut text = operand(alloc, a, infix.left)?;
    let right = operand(alloc, b, infix.right)?;
    text.extend_from_slice(infix.word.as_bytes())?;
    text.extend_from_slice(&right)?;
    Ok(Part {
        text,
        binding: infix.binding,
        levels,
    })
}

/// An operator and its operands.
pub fn binary(alloc: Global, operator: Binary, a: Part, b: Part) -> Result<Part, OutOfMemory> {
    match spelling_of(operator) {
        Spelling::Function(keyword) => {
            let text = function(alloc, keyword, &[&a.text, &b.text])?;
            Ok(primary(text, most_levels(a.levels, b.levels)))
        }
        Spelling::Between(infix) => between(alloc, infix, a, b),
    }
}

// An operator and its number after an operand.
fn suffixed(
    alloc: Global,
    word: &str,
    binding: Precedence,
    a: Part,
    by: u64,
) -> Result<Part, OutOfMemory> {
    let levels = a.levels;
    let mut text = operand(alloc, a, binding)?;
    text.extend_from_slice(word.as_bytes())?;
    push_number(&mut text, by)?;
    Ok(Part {
        text,
        binding,
        levels,
    })
}

/// An operator, its operand and its number.
pub fn scaled(alloc: Global, operator: Scaling, a: Part, by: u64) -> Result<Part, OutOfMemory> {
    match operator {
        Scaling::Divide => suffixed(alloc, " / ", Precedence::Product, a, by),
        Scaling::ShiftLeft => suffixed(alloc, " << ", Precedence::Shift, a, by),
        Scaling::ShiftRight => suffixed(alloc, " >> ", Precedence::Shift, a, by),
    }
}

fn cast(alloc: Global, a: Part, ty: Ty) -> Result<Part, OutOfMemory> {
    let levels = a.levels;
    let mut text = operand(alloc, a, Precedence::Cast)?;
    text.extend_from_slice(b" as ")?;
    push_type(&mut text, ty)?;
    Ok(Part {
        text,
        binding: Precedence::Cast,
        levels,
    })
}

fn saturated(alloc: Global, a: Part, ty: Ty) -> Result<Part, OutOfMemory> {
    let mut word = Vec::new(alloc);
    push_type(&mut word, ty)?;
    let text = function(alloc, Keyword::Sat, &[&a.text, &word])?;
    Ok(primary(text, a.levels))
}

/// A conversion of an operand.
pub fn converted(alloc: Global, how: Conversion, a: Part, ty: Ty) -> Result<Part, OutOfMemory> {
    match how {
        Conversion::Cast => cast(alloc, a, ty),
        Conversion::Saturate => saturated(alloc, a, ty),
    }
}

/// A choice.
pub fn selected(alloc: Global, c: Part, a: Part, b: Part) -> Result<Part, OutOfMemory> {
    let text = function(alloc, Keyword::Select, &[&c.text, &a.text, &b.text])?;
    let levels = most_levels(c.levels, most_levels(a.levels, b.levels));
    Ok(primary(text, levels))
}
