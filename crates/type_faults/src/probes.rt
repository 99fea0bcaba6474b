// The types of expressions after the definitions of a program, by the check of programs.

use crate::conversions::checked;
use crate::found::FoundTypes;
use crate::operands::{Parts, operands_of, part_at};
use dk_base::{OutOfMemory, Span, Text, Ty};
use dk_parser::{Def, Expr, Name, Program};
use dk_types::{TypeFault, TypeFaultKind, TypedDefinition, TypedProgram};
use std::alloc::Global;

// A definition with this body. No name of a text is its name.
fn probe(alloc: Global, name: &[u8], body: Expr) -> Result<Def, OutOfMemory> {
    let text = Text::new(Vec::from_slice(alloc, name)?);
    let name = Name {
        span: body.span,
        text,
    };
    Ok(Def {
        inline: false,
        name,
        declared: None,
        body,
    })
}

// Adds one definition or two.
fn push_probes(alloc: Global, program: &mut Program, parts: Parts) -> Result<(), OutOfMemory> {
    match parts {
        Parts::One(a) => program.definitions.push(probe(alloc, b"", a)?)?,
        Parts::Two(a, b) => {
            program.definitions.push(probe(alloc, b"", a)?)?;
            program.definitions.push(probe(alloc, b" ", b)?)?;
        }
    }
    Ok(())
}

// The types of the bodies of a program from this definition on.
fn body_types(typed: &TypedProgram, from: usize) -> FoundTypes {
    let definitions = typed.definitions();
    let second = match from.checked_add(1) {
        Some(next) => definitions.get(next),
        None => None,
    };
    match (definitions.get(from), second) {
        (Some(a), Some(b)) => FoundTypes::Operands(a.body.ty, b.body.ty),
        (Some(a), None) => FoundTypes::Operand(a.body.ty),
        (None, _) => FoundTypes::None,
    }
}

// The types of expressions after the definitions of a program, which has no outputs. It is the same afterwards.
fn types_after(
    alloc: Global,
    program: &mut Program,
    parts: Parts,
) -> Result<FoundTypes, OutOfMemory> {
    let count = program.definitions.len();
    push_probes(alloc, program, parts)?;
    let types = match checked(alloc, program)? {
        Some(Ok(typed)) => body_types(&typed, count),
        Some(Err(_)) | None => FoundTypes::None,
    };
    program.definitions.truncate(count);
    Ok(types)
}

// The expressions whose types matter to a fault of a body.
fn parts_at(body: Expr, fault: TypeFault) -> Option<Parts> {
    match fault.kind {
        TypeFaultKind::NotConvertible => Some(Parts::One(body)),
        TypeFaultKind::NotOneBit | TypeFaultKind::SignedBits => {
            let operand = part_at(body, fault.span)?;
            Some(Parts::One(operand))
        }
        TypeFaultKind::WidthTooGreat => operands_of(part_at(body, fault.span)?),
        TypeFaultKind::SizeRange | TypeFaultKind::InputType => None,
        TypeFaultKind::TooManyInputs | TypeFaultKind::TooManyOutputs => None,
        TypeFaultKind::TooManyImages | TypeFaultKind::DuplicateName => None,
        TypeFaultKind::UnknownImage | TypeFaultKind::OffsetRange => None,
        TypeFaultKind::ZeroDivisor | TypeFaultKind::ShiftRange => None,
        TypeFaultKind::OutputType => None,
    }
}

// The types at a fault of a body, and the declared type.
fn with_declared(types: FoundTypes, declared: Option<Ty>, kind: TypeFaultKind) -> FoundTypes {
    match (types, declared, kind) {
        (FoundTypes::Operand(body), Some(declared), TypeFaultKind::NotConvertible) => {
            FoundTypes::Body { body, declared }
        }
        _ => types,
    }
}

// The types at a fault of the body of a definition, which comes after those of a program without outputs.
pub(crate) fn types_in_body(
    alloc: Global,
    before: &mut Program,
    body: Expr,
    declared: Option<Ty>,
    fault: TypeFault,
) -> Result<FoundTypes, OutOfMemory> {
    let Some(parts) = parts_at(body, fault) else {
        return Ok(FoundTypes::None);
    };
    let types = types_after(alloc, before, parts)?;
    Ok(with_declared(types, declared, fault.kind))
}

// The type of the image of a definition.
fn image_type(definition: &TypedDefinition) -> Ty {
    match definition.declared {
        Some(ty) => ty,
        None => definition.body.ty,
    }
}

fn named_type(definitions: &[TypedDefinition], name: &[u8]) -> FoundTypes {
    let found = definitions
        .iter()
        .find(|definition| definition.name.text.as_bytes() == name);
    match found {
        Some(definition) => FoundTypes::Operand(image_type(definition)),
        None => FoundTypes::None,
    }
}

// The type of the definition with this name, in a program without outputs.
pub(crate) fn type_of_image(
    alloc: Global,
    program: &Program,
    name: &Name,
) -> Result<FoundTypes, OutOfMemory> {
    match checked(alloc, program)? {
        Some(Ok(typed)) => Ok(named_type(typed.definitions(), name.text.as_bytes())),
        Some(Err(_)) | None => Ok(FoundTypes::None),
    }
}
