// Which item of a program a fault is in, and which images an expression reads.

use crate::operands::is_within;
use dk_base::{Span, Text};
use dk_parser::{Def, Expr, Input, Literal, Name, Node, Program};

// Where a fault is.
#[derive(Clone, Copy)]
pub(crate) enum FaultSite {
    Width,
    Height,
    // The name of an input, or its type.
    Input(usize),
    InputType(usize),
    // The name of a definition, or its body.
    Definition(usize),
    Body(usize),
    Output(usize),
}

fn input_place(inputs: &[Input], span: Span) -> Option<FaultSite> {
    for (k, input) in inputs.iter().enumerate() {
        if input.name.span == span {
            return Some(FaultSite::Input(k));
        }
        if input.ty.span == span {
            return Some(FaultSite::InputType(k));
        }
    }
    None
}

fn definition_place(definitions: &[Def], span: Span) -> Option<FaultSite> {
    for (k, definition) in definitions.iter().enumerate() {
        if definition.name.span == span {
            return Some(FaultSite::Definition(k));
        }
        if is_within(span, definition.body.span) {
            return Some(FaultSite::Body(k));
        }
    }
    None
}

fn output_place(outputs: &[Name], span: Span) -> Option<FaultSite> {
    let k = outputs.iter().position(|output| output.span == span)?;
    Some(FaultSite::Output(k))
}

fn side_place(width: Literal, height: Literal, span: Span) -> Option<FaultSite> {
    if width.span == span {
        return Some(FaultSite::Width);
    }
    if height.span == span {
        return Some(FaultSite::Height);
    }
    None
}

// The item with this span.
pub(crate) fn place_of(program: &Program, span: Span) -> Option<FaultSite> {
    if let Some(place) = side_place(program.width, program.height, span) {
        return Some(place);
    }
    if let Some(place) = input_place(&program.inputs, span) {
        return Some(place);
    }
    if let Some(place) = definition_place(&program.definitions, span) {
        return Some(place);
    }
    output_place(&program.outputs, span)
}

pub(crate) fn is_among(names: &[Text], name: &Text) -> bool {
    names
        .iter()
        .any(|other| other.as_bytes() == name.as_bytes())
}

// Whether an expression reads one of these images.
pub(crate) fn reads_any(e: &Expr, names: &[Text]) -> bool {
    match &e.node {
        Node::Number(_) => false,
        Node::Read(read) => is_among(names, &read.name.text),
        Node::Unary(_, a) | Node::Scale(_, a, _) | Node::Cast(a, _) | Node::Sat(a, _) => {
            reads_any(a, names)
        }
        Node::Binary(_, a, b) => reads_any(a, names) || reads_any(b, names),
        Node::Select(c, a, b) => {
            reads_any(c, names) || reads_any(a, names) || reads_any(b, names)
        }
    }
}
