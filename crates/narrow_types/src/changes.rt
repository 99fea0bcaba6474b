// What changes in each definition of a source.

use crate::ranges::{range_of, type_range, with_zero};
use crate::types::type_of;
use dk_base::{OutOfMemory, Ty};
use dk_types::{TypedDefinition, TypedExpr, TypedInput, TypedNode, TypedProgram};
use std::alloc::Global;
use value_ranges::Interval;

// A conversion of a body, and whether the body may need brackets before it.
#[derive(Clone, Copy)]
pub(crate) struct Cast {
    pub(crate) ty: Ty,
    pub(crate) needs_brackets: bool,
}

// What changes in a definition.
#[derive(Clone, Copy)]
pub(crate) enum Change {
    Nothing,
    // Its type, which was not declared, is declared.
    Declared(Ty),
    // A declared type is removed, and if the body has more bits than are needed, it is converted.
    Narrowed(Option<Cast>),
}

// What is known of the images before a definition: the intervals of what a clamped read shows, and the types in the new text.
#[derive(Drop)]
struct Known {
    ranges: Vec<Option<Interval>>,
    types: Vec<Ty>,
}

// A definition, its body's type in the new text, and the interval of its body's values.
#[derive(Clone, Copy)]
struct Judged<'a> {
    definition: &'a TypedDefinition,
    own: Ty,
    range: Option<Interval>,
}

// The type that the definition has in the source.
fn image_type(definition: &TypedDefinition) -> Ty {
    match definition.declared {
        Some(ty) => ty,
        None => definition.body.ty,
    }
}

// Whether the expression may need brackets before `as`. Any other form is an operand.
fn may_need_brackets(e: &TypedExpr) -> bool {
    match &e.node {
        TypedNode::Binary(_, _, _) | TypedNode::Scale(_, _, _) => true,
        TypedNode::Number(_) | TypedNode::Read(_) => false,
        TypedNode::Unary(_, _) | TypedNode::Convert(_, _) => false,
        TypedNode::Select(_, _, _) => false,
    }
}

// The type of fewest bits that holds the values, if it has fewer than a type.
fn narrower_type(ty: Ty, range: Option<Interval>) -> Option<Ty> {
    let range = range?;
    let least = range.least_type()?;
    if least.width() < ty.width() {
        Some(least)
    } else {
        None
    }
}

// The change of an output: its type stays.
fn change_of_output(of: &Judged<'_>) -> Change {
    let ty = of.definition.body.ty;
    if of.definition.declared.is_some() || of.own == ty {
        return Change::Nothing;
    }
    Change::Declared(ty)
}

// The change of a definition that is not an output.
fn change_of_other(of: &Judged<'_>) -> Change {
    let Some(least) = narrower_type(image_type(of.definition), of.range) else {
        return Change::Nothing;
    };
    if of.own == least {
        return Change::Narrowed(None);
    }
    Change::Narrowed(Some(Cast {
        ty: least,
        needs_brackets: may_need_brackets(&of.definition.body),
    }))
}

// The type of the image in the new text.
fn type_after(of: &Judged<'_>, change: Change) -> Ty {
    match change {
        Change::Nothing => of.definition.declared.unwrap_or(of.own),
        Change::Declared(ty) => ty,
        Change::Narrowed(Some(cast)) => cast.ty,
        Change::Narrowed(None) => of.own,
    }
}

// The interval of what a clamped read of the image shows. An inline image is its body there; of any other image the check takes 0 to be a value.
fn range_after(of: &Judged<'_>) -> Option<Interval> {
    if of.definition.inline {
        return of.range;
    }
    match of.range {
        Some(range) => Some(with_zero(range)),
        None => type_range(image_type(of.definition)),
    }
}

// The change of a definition, which is then known too.
fn add_definition(
    known: &mut Known,
    definition: &TypedDefinition,
    is_output: bool,
) -> Result<Change, OutOfMemory> {
    let of = Judged {
        definition,
        own: type_of(&known.types, &definition.body).unwrap_or(definition.body.ty),
        range: range_of(&known.ranges, &definition.body),
    };
    let change = if is_output {
        change_of_output(&of)
    } else {
        change_of_other(&of)
    };
    known.ranges.push(range_after(&of))?;
    known.types.push(type_after(&of, change))?;
    Ok(change)
}

// The inputs.
fn known_inputs(alloc: Global, inputs: &[TypedInput]) -> Result<Known, OutOfMemory> {
    let mut ranges = Vec::new(alloc);
    let mut types = Vec::new(alloc);
    for input in inputs {
        ranges.push(type_range(input.ty))?;
        types.push(input.ty)?;
    }
    Ok(Known { ranges, types })
}

// Whether the definition of this number is an output.
fn is_output(program: &TypedProgram, number: usize) -> bool {
    let image = program.inputs().len().saturating_add(number);
    match u32::try_from(image) {
        Ok(image) => program.outputs().contains(&image),
        Err(_) => false,
    }
}

// The change of each definition, in order.
pub(crate) fn changes_of(
    alloc: Global,
    program: &TypedProgram,
) -> Result<Vec<Change>, OutOfMemory> {
    let mut known = known_inputs(alloc, program.inputs())?;
    let mut changes = Vec::new(alloc);
    for definition in program.definitions() {
        let is_output = is_output(program, changes.len());
        let change = add_definition(&mut known, definition, is_output)?;
        changes.push(change)?;
    }
    Ok(changes)
}
