// Faults of names and types.

use crate::names::{Unknown, meaning_of};
use dk_base::{
    MAX_DEFINITIONS, MAX_INPUTS, MAX_OFFSET, MAX_OUTPUTS, MAX_SHIFT, MAX_SIDE, MAX_WIDTH, Ty,
};
use dk_lexer::Symbol;
use dk_types::{TypeFault, TypeFaultKind};
use expected_tokens::TokenClass;
use source_words::Keyword;
use syntax_messages::{
    Detail, Source, bytes_of, class_before, push_numbered, push_quoted, token_at,
};
use type_faults::FoundTypes;

/// A fault of types, with its text and the types at it.
#[derive(Clone, Copy)]
pub(crate) struct Typed<'a> {
    pub(crate) source: &'a Source<'a>,
    pub(crate) fault: TypeFault,
    pub(crate) types: FoundTypes,
}

impl<'a> Typed<'a> {
    /// The bytes of the fault's span.
    pub(crate) fn bytes(&self) -> &'a [u8] {
        bytes_of(self.source.text, self.fault.span)
    }

    /// Whether the fault is at the operand of `!`.
    pub(crate) fn is_negated(&self) -> bool {
        let place = token_at(self.source.tokens, self.fault.span);
        matches!(
            class_before(self.source.tokens, place, 1),
            TokenClass::Symbol(Symbol::Bang)
        )
    }

    /// Whether the fault is at the name of an output.
    pub(crate) fn is_output(&self) -> bool {
        let place = token_at(self.source.tokens, self.fault.span);
        matches!(
            class_before(self.source.tokens, place, 1),
            TokenClass::Keyword(Keyword::Output)
        )
    }
}

/// Adds the word of a type.
pub(crate) fn push_type(to: &mut Detail, ty: Ty) {
    to.push(if ty.is_signed() { "s" } else { "u" });
    to.push_number(u64::from(ty.width()));
}

// Adds the word of a type between quotes.
fn push_quoted_type(to: &mut Detail, ty: Ty) {
    to.push("`");
    push_type(to, ty);
    to.push("`");
}

// Adds what has one item too many.
fn push_too_many(to: &mut Detail, what: &str, limit: usize) {
    push_numbered(to, "a program has at most ", limit as u64, what);
}

// Adds that a number is above its limit.
fn push_above(to: &mut Detail, of: &Typed<'_>, what: &str, limit: u64) {
    to.push(what);
    to.push_bytes(of.bytes());
    push_numbered(to, ", and ", limit, " is the greatest one");
}

// Adds that a side of the frame is out of range.
fn push_side(to: &mut Detail, of: &Typed<'_>) {
    to.push("a side of the frame is 1 to ");
    push_numbered(to, "", u64::from(MAX_SIDE), " pixels, and this is ");
    to.push_bytes(of.bytes());
}

// Adds a name that is taken.
fn push_duplicate(to: &mut Detail, of: &Typed<'_>) {
    push_quoted(to, of.bytes());
    to.push(if of.is_output() {
        " is an output already"
    } else {
        " is the name of an image already"
    });
}

// Adds a name that denotes no image.
fn push_unknown(to: &mut Detail, of: &Typed<'_>) {
    match meaning_of(of.source, of.bytes(), of.fault.span) {
        Unknown::Itself => {
            push_quoted(to, of.bytes());
            to.push(" reads itself");
        }
        Unknown::Later(_) => {
            push_quoted(to, of.bytes());
            to.push(" is defined later");
        }
        Unknown::Nothing => {
            to.push("there is no image ");
            push_quoted(to, of.bytes());
        }
    }
}

// Adds that a result or a common type is too wide.
fn push_width(to: &mut Detail, of: &Typed<'_>) {
    match of.types {
        FoundTypes::Operands(one, other) => {
            to.push("the operands are ");
            push_quoted_type(to, one);
            to.push(" and ");
            push_quoted_type(to, other);
            to.push(", and the operator needs");
        }
        FoundTypes::Operand(ty) => {
            to.push("the operand is ");
            push_quoted_type(to, ty);
            to.push(", and the result has");
        }
        _ => to.push("the result or the common type of the operands has"),
    }
    push_numbered(to, " more than ", u64::from(MAX_WIDTH), " bits");
}

// Adds that an operand must have one bit.
fn push_one_bit(to: &mut Detail, of: &Typed<'_>) {
    to.push(if of.is_negated() {
        "the operand of `!` must be `u1`"
    } else {
        "the condition of `select` must be `u1`"
    });
    push_operand(to, of);
}

// Adds the type of the operand, where it is known.
fn push_operand(to: &mut Detail, of: &Typed<'_>) {
    if let FoundTypes::Operand(ty) = of.types {
        to.push(", and this is ");
        push_quoted_type(to, ty);
    }
}

// Adds that a body does not fit its declared type.
fn push_body(to: &mut Detail, of: &Typed<'_>) {
    match of.types {
        FoundTypes::Body { body, declared } => {
            to.push("the body is ");
            push_quoted_type(to, body);
            to.push(", which does not fit the declared type ");
            push_quoted_type(to, declared);
        }
        _ => to.push("the type of the body does not fit the declared type"),
    }
}

// Adds that an output has another type than it may have.
fn push_output(to: &mut Detail, of: &Typed<'_>) {
    to.push("an output is `u1` to `u16`, and ");
    push_quoted(to, of.bytes());
    match of.types {
        FoundTypes::Operand(ty) => {
            to.push(" is ");
            push_quoted_type(to, ty);
        }
        _ => to.push(" is not"),
    }
}

// Adds that an input has another type than it may have.
fn push_input(to: &mut Detail, of: &Typed<'_>) {
    to.push("an input is `u1` to `u16`, and this is ");
    push_quoted(to, of.bytes());
}

/// Adds the sentence on a fault of types.
pub(crate) fn push_typed(to: &mut Detail, of: &Typed<'_>) {
    match of.fault.kind {
        TypeFaultKind::SizeRange => push_side(to, of),
        TypeFaultKind::InputType => push_input(to, of),
        TypeFaultKind::TooManyInputs => push_too_many(to, " inputs", MAX_INPUTS),
        TypeFaultKind::TooManyOutputs => push_too_many(to, " outputs", MAX_OUTPUTS),
        TypeFaultKind::TooManyImages => push_too_many(to, " definitions", MAX_DEFINITIONS),
        TypeFaultKind::DuplicateName => push_duplicate(to, of),
        TypeFaultKind::UnknownImage => push_unknown(to, of),
        TypeFaultKind::OffsetRange => push_above(to, of, "the offset is ", MAX_OFFSET),
        TypeFaultKind::ShiftRange => push_above(to, of, "the shift is by ", MAX_SHIFT),
        TypeFaultKind::WidthTooGreat => push_width(to, of),
        TypeFaultKind::NotOneBit => push_one_bit(to, of),
        TypeFaultKind::SignedBits => {
            to.push("the operands of `&`, `|` and `^` must be unsigned");
            push_operand(to, of);
        }
        TypeFaultKind::ZeroDivisor => to.push("the divisor is 0"),
        TypeFaultKind::NotConvertible => push_body(to, of),
        TypeFaultKind::OutputType => push_output(to, of),
    }
}
