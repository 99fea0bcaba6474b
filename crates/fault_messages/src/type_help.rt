// The lines of help on faults of names and types.

use crate::names::{Unknown, declaration, meaning_of, output};
use crate::types::{Typed, push_type};
use dk_base::{Span, Ty};
use dk_types::TypeFaultKind;
use syntax_messages::{Detail, begin_help, push_help, push_place};
use type_faults::FoundTypes;

// Adds a line of help with the place of a span.
fn push_place_help(to: &mut Detail, of: &Typed<'_>, before: &str, span: Span) {
    begin_help(to);
    to.push(before);
    push_place(to, of.source.text, span.start);
}

// Adds where a name was declared before.
fn push_declared(to: &mut Detail, of: &Typed<'_>) {
    let start = of.fault.span.start;
    let earlier = if of.is_output() {
        output(of.source.tokens, of.bytes(), start)
    } else {
        declaration(of.source.tokens, of.bytes(), start)
    };
    if let Some(span) = earlier {
        push_place_help(to, of, "the name is first given ", span);
    }
}

// Adds what helps with a name that denotes no image.
fn push_unknown_help(to: &mut Detail, of: &Typed<'_>) {
    match meaning_of(of.source, of.bytes(), of.fault.span) {
        Unknown::Itself => push_help(
            to,
            "there is no feedback: an image reads inputs and earlier images only",
        ),
        Unknown::Later(span) => {
            push_place_help(to, of, "move the definition ", span);
            to.push(" before the one that reads it");
        }
        Unknown::Nothing if of.is_output() => push_help(
            to,
            "an output is an input or a definition",
        ),
        Unknown::Nothing => push_help(to, "an image reads inputs and earlier definitions"),
    }
}

// The unsigned type that holds the bits of a type.
fn unsigned(ty: Ty) -> Ty {
    Ty::Unsigned(ty.width())
}

// Adds the two conversions to a type.
fn push_conversions(to: &mut Detail, before: &str, ty: Ty) {
    begin_help(to);
    to.push(before);
    to.push("`(..) as ");
    push_type(to, ty);
    to.push("`, which keeps the low bits, or `sat(.., ");
    push_type(to, ty);
    to.push(")`, which takes the nearest value");
}

// Adds what helps with a body that does not fit its declared type.
fn push_body_help(to: &mut Detail, of: &Typed<'_>) {
    let FoundTypes::Body { body, declared } = of.types else {
        push_help(to, "convert the body by `as` or `sat`, or declare no type");
        return;
    };
    push_conversions(to, "convert the body: ", declared);
    begin_help(to);
    to.push("or declare `");
    push_type(to, body);
    to.push("`, or no type");
}

// Adds what helps with a signed operand.
fn push_signed_help(to: &mut Detail, of: &Typed<'_>) {
    match of.types {
        FoundTypes::Operand(ty) => {
            begin_help(to);
            to.push("convert it: `(..) as ");
            push_type(to, unsigned(ty));
            to.push("` has the same bits");
        }
        _ => push_help(to, "convert it by `as` to an unsigned type"),
    }
}

// Whether a type word is that of a signed type.
fn is_signed_word(word: &[u8]) -> bool {
    word.starts_with(b"s")
}

// What helps with a fault of types, where it does not depend on more.
fn type_help(of: &Typed<'_>) -> &'static str {
    match of.fault.kind {
        TypeFaultKind::InputType if is_signed_word(of.bytes()) => {
            "declare an unsigned type of as many bits, and read it as `a(x,y) as s8` or the like"
        }
        TypeFaultKind::InputType => "values of more bits come as two inputs: `(p<<16) | q`",
        TypeFaultKind::TooManyImages => "write an image that is read once where it is read",
        TypeFaultKind::OffsetRange => "read in two steps, through an image in between",
        TypeFaultKind::WidthTooGreat => "convert the operands by `as` or `sat` to fewer bits first",
        TypeFaultKind::NotOneBit if of.is_negated() => "write `p == 0`, or `!(p > 9)`",
        TypeFaultKind::NotOneBit => "write a comparison, as `p > 0`",
        TypeFaultKind::SizeRange | TypeFaultKind::TooManyInputs => "",
        TypeFaultKind::TooManyOutputs | TypeFaultKind::DuplicateName => "",
        TypeFaultKind::UnknownImage | TypeFaultKind::SignedBits => "",
        TypeFaultKind::ZeroDivisor | TypeFaultKind::ShiftRange => "",
        TypeFaultKind::NotConvertible | TypeFaultKind::OutputType => "",
    }
}

/// Adds the help on a fault of types.
pub(crate) fn push_type_help(to: &mut Detail, of: &Typed<'_>) {
    let help = type_help(of);
    if !help.is_empty() {
        push_help(to, help);
    }
    match of.fault.kind {
        TypeFaultKind::DuplicateName => push_declared(to, of),
        TypeFaultKind::UnknownImage => push_unknown_help(to, of),
        TypeFaultKind::NotConvertible => push_body_help(to, of),
        TypeFaultKind::SignedBits => push_signed_help(to, of),
        TypeFaultKind::OutputType => push_conversions(to, "convert its body: ", Ty::Unsigned(8)),
        TypeFaultKind::SizeRange | TypeFaultKind::InputType => {}
        TypeFaultKind::TooManyInputs | TypeFaultKind::TooManyOutputs => {}
        TypeFaultKind::TooManyImages | TypeFaultKind::OffsetRange => {}
        TypeFaultKind::WidthTooGreat | TypeFaultKind::NotOneBit => {}
        TypeFaultKind::ZeroDivisor | TypeFaultKind::ShiftRange => {}
    }
}
