// A program without what is faulty in it.

use crate::conversions::is_type;
use crate::found::FoundTypes;
use crate::places::{FaultSite, is_among, place_of, reads_any};
use crate::probes::{type_of_image, types_in_body};
use dk_base::{OutOfMemory, Span, Text, Ty};
use dk_parser::{Def, Expr, Input, Literal, Name, Node, Program, TypeWord};
use dk_types::{TypeFault, TypeFaultKind};
use std::alloc::Global;

// The types at a fault, and the program without what is faulty.
#[derive(Drop)]
pub(crate) struct Cut {
    pub(crate) types: FoundTypes,
    // None where the faults after it cannot be told from those that it makes.
    pub(crate) rest: Option<Program>,
}

// No types, and no program.
fn nothing() -> Cut {
    Cut {
        types: FoundTypes::None,
        rest: None,
    }
}

// The constant 0 as a type.
fn constant(alloc: Global, span: Span, word: TypeWord) -> Result<Expr, OutOfMemory> {
    let zero = Expr {
        span,
        node: Node::Number(0),
    };
    Ok(Expr {
        span,
        node: Node::Cast(Box::new(alloc, zero)?, word),
    })
}

fn declared_type(word: Option<TypeWord>) -> Option<Ty> {
    let word = word?;
    Some(word.ty)
}

// Definitions, and the names of those that are left out because their types are not known.
#[derive(Drop)]
struct Kept {
    definitions: Vec<Def>,
    gone: Vec<Text>,
}

// Adds a definition whose body cannot be judged: with a constant as its body if its type is declared, or only its name.
fn add_unknown(
    alloc: Global,
    kept: &mut Kept,
    inline: bool,
    name: Name,
    declared: Option<TypeWord>,
    span: Span,
) -> Result<(), OutOfMemory> {
    let Some(word) = declared else {
        kept.gone.push(name.text)?;
        return Ok(());
    };
    if !is_type(word.ty) {
        kept.gone.push(name.text)?;
        return Ok(());
    }
    let body = constant(alloc, span, word)?;
    kept.definitions.push(Def {
        inline,
        name,
        declared,
        body,
    })?;
    Ok(())
}

// Adds a definition after the faulty one.
fn add_later(alloc: Global, kept: &mut Kept, definition: Def) -> Result<(), OutOfMemory> {
    if reads_any(&definition.body, &kept.gone) {
        let span = definition.body.span;
        add_unknown(
            alloc,
            kept,
            definition.inline,
            definition.name,
            definition.declared,
            span,
        )
    } else {
        kept.definitions.push(definition)?;
        Ok(())
    }
}

// Adds the definitions after the faulty one.
fn add_all_later(alloc: Global, kept: &mut Kept, later: Vec<Def>) -> Result<(), OutOfMemory> {
    for definition in later {
        add_later(alloc, kept, definition)?;
    }
    Ok(())
}

// The outputs that are not left out.
fn kept_outputs(
    alloc: Global,
    outputs: Vec<Name>,
    gone: &[Text],
) -> Result<Vec<Name>, OutOfMemory> {
    let mut kept = Vec::new(alloc);
    for output in outputs {
        if !is_among(gone, &output.text) {
            kept.push(output)?;
        }
    }
    Ok(kept)
}

// Takes out a definition's body, and what cannot be judged without it.
fn without_body(
    alloc: Global,
    program: Program,
    at: usize,
    fault: TypeFault,
) -> Result<Cut, OutOfMemory> {
    let mut before = program;
    if before.definitions.len() <= at {
        return Ok(nothing());
    }
    let outputs = std::mem::replace(&mut before.outputs, Vec::new(alloc));
    let mut later = before.definitions.split_off(at)?;
    let faulty = later.remove(0);
    let span = faulty.body.span;
    let declared = declared_type(faulty.declared);
    let types = types_in_body(alloc, &mut before, faulty.body, declared, fault)?;
    let mut kept = Kept {
        definitions: before.definitions,
        gone: Vec::new(alloc),
    };
    add_unknown(
        alloc,
        &mut kept,
        faulty.inline,
        faulty.name,
        faulty.declared,
        span,
    )?;
    add_all_later(alloc, &mut kept, later)?;
    let outputs = kept_outputs(alloc, outputs, &kept.gone)?;
    let rest = Some(Program {
        width: before.width,
        height: before.height,
        inputs: before.inputs,
        definitions: kept.definitions,
        outputs,
    });
    Ok(Cut { types, rest })
}

// Takes out an output, and each other output of its name.
fn without_output(
    alloc: Global,
    program: Program,
    at: usize,
    kind: TypeFaultKind,
) -> Result<Cut, OutOfMemory> {
    let mut rest = program;
    if rest.outputs.len() <= at {
        return Ok(nothing());
    }
    let mut outputs = std::mem::replace(&mut rest.outputs, Vec::new(alloc));
    let output = outputs.remove(at);
    let types = if kind == TypeFaultKind::OutputType {
        type_of_image(alloc, &rest, &output)?
    } else {
        FoundTypes::None
    };
    let mut gone = Vec::new(alloc);
    gone.push(output.text)?;
    rest.outputs = kept_outputs(alloc, outputs, &gone)?;
    Ok(Cut {
        types,
        rest: Some(rest),
    })
}

// A side of one pixel.
fn one_pixel(side: Literal) -> Literal {
    Literal {
        span: side.span,
        value: 1,
    }
}

// Gives an input a type that is allowed. The type that it had.
fn allow_type(inputs: &mut [Input], at: usize) -> FoundTypes {
    let Some(input) = inputs.get_mut(at) else {
        return FoundTypes::None;
    };
    let types = FoundTypes::Operand(input.ty.ty);
    input.ty.ty = Ty::Unsigned(8);
    types
}

// Takes out an item, if there is one at this place.
fn remove<T: Drop>(items: &mut Vec<T>, at: usize) {
    if at < items.len() {
        let _item = items.remove(at);
    }
}

// Takes out what is faulty without a body: a side, an input, or the later one of two definitions of one name. The types at it.
fn take_out(program: &mut Program, place: FaultSite) -> FoundTypes {
    match place {
        FaultSite::Width => program.width = one_pixel(program.width),
        FaultSite::Height => program.height = one_pixel(program.height),
        FaultSite::InputType(k) => return allow_type(&mut program.inputs, k),
        FaultSite::Input(k) => remove(&mut program.inputs, k),
        FaultSite::Definition(k) => remove(&mut program.definitions, k),
        FaultSite::Body(_) | FaultSite::Output(_) => {}
    }
    FoundTypes::None
}

// The program without a side, an input or a definition.
fn without_item(program: Program, place: FaultSite) -> Cut {
    let mut rest = program;
    let types = take_out(&mut rest, place);
    Cut {
        types,
        rest: Some(rest),
    }
}

// Whether there are too many of some items, so that each one after them is a fault too.
fn is_count(kind: TypeFaultKind) -> bool {
    matches!(
        kind,
        TypeFaultKind::TooManyInputs | TypeFaultKind::TooManyOutputs | TypeFaultKind::TooManyImages
    )
}

// Where a fault is, if the program without it has faults of its own.
fn place_to_cut(program: &Program, fault: TypeFault) -> Option<FaultSite> {
    if is_count(fault.kind) {
        return None;
    }
    place_of(program, fault.span)
}

// Takes out what is faulty.
pub(crate) fn without(
    alloc: Global,
    program: Program,
    fault: TypeFault,
) -> Result<Cut, OutOfMemory> {
    match place_to_cut(&program, fault) {
        Some(FaultSite::Body(k)) => without_body(alloc, program, k, fault),
        Some(FaultSite::Output(k)) => without_output(alloc, program, k, fault.kind),
        Some(place) => Ok(without_item(program, place)),
        None => Ok(nothing()),
    }
}
