// Inline images substituted.

ghost use Rattle.std.specs.Prelude.{◌≡◌, ◌<◌, length, map, IfOk, MatchOption, Some, slice_get, slice_index_or};
ghost use Rattle.dk_types.specs.Typed.{typed_of, definition_of, typing_of, types_of, image_type as image_type_of};
ghost use Rattle.dk_types.specs.Typed as T;
ghost use Rattle.dk_types.specs.Kept.{IsWell};
ghost use Rattle.pointwise_ir.specs.Trees.{tree_of};
ghost use Rattle.dk_inline.specs.Inlined.{itself, body, edge_of, inlined, inlined_body, declared_as, substitutes, body_of, bodies};

use crate::extent::stays;
use dk_base::{Conversion, OutOfMemory, Text, Ty};
use dk_parser::Name;
use dk_types::{TypedDefinition, TypedExpr, TypedInput, TypedNode, TypedProgram};
use pointwise_ir::{Definition, Edge, Expr, Input};
use std::alloc::Global;

fn edge(clamped: bool) -> Edge
    ensures { result ≡ edge_of clamped }
{
    if clamped { Edge::Clamp } else { Edge::Zero }
}

// The definition of an inline image.
fn inline_definition(program: &TypedProgram, image: u32) -> Option<&TypedDefinition>
    requires { image < length (types_of (typing_of program.now)) }
    ensures { MatchOption result (slice_index_or (substitutes (typing_of program.now)) image itself
        ≡ itself) (λ d. (slice_index_or (substitutes (typing_of program.now)) image itself
        ≡ body (inlined_body (substitutes (typing_of program.now)) (definition_of d.now)))
        × IsWell (types_of (typing_of program.now)) (typed_of d.now.body)) }
{
    program.law();
    let image = image as usize;
    let inputs = program.inputs().len();
    if image < inputs {
        return None;
    }
    let definition = &program.definitions()[image - inputs];
    if definition.inline {
        Some(definition)
    } else {
        None
    }
}

// A body brought into its declared type.
fn declared(alloc: Global, ty: Option<Ty>, e: Expr) -> Result<Expr, OutOfMemory>
    ensures { IfOk result (λ x. tree_of x ≡ declared_as ty (tree_of e)) }
{
    match ty {
        Some(ty) => Ok(Expr::Convert(Conversion::Cast, Box::new(alloc, e)?, ty)),
        None => Ok(e),
    }
}

// An expression whose reads of inline images are their bodies.
fn expression(alloc: Global, program: &TypedProgram, e: &TypedExpr) -> Result<Expr, OutOfMemory>
    requires { IsWell (types_of (typing_of program.now)) (typed_of e.now) }
    ensures { IfOk result (λ x. tree_of x
        ≡ inlined (substitutes (typing_of program.now)) (typed_of e.now)) }
{
    match &e.node {
        TypedNode::Number(value) => Ok(Expr::Constant(i128::from(*value), e.ty)),
        TypedNode::Read(read) => match inline_definition(program, read.image) {
            None => Ok(Expr::Read(edge(read.clamped), read.image, read.dx, read.dy)),
            Some(definition) => {
                let plain = expression(alloc, program, &definition.body)?;
                let body = declared(alloc, definition.declared, plain)?;
                let body = Box::new(alloc, body)?;
                Ok(Expr::Shifted(edge(read.clamped), read.dx, read.dy, body))
            }
        },
        TypedNode::Unary(op, a) => {
            let a = expression(alloc, program, a)?;
            Ok(Expr::Unary(*op, Box::new(alloc, a)?))
        }
        TypedNode::Binary(op, a, b) => {
            let a = expression(alloc, program, a)?;
            let b = expression(alloc, program, b)?;
            Ok(Expr::Binary(*op, Box::new(alloc, a)?, Box::new(alloc, b)?))
        }
        TypedNode::Scale(op, a, by) => {
            let a = expression(alloc, program, a)?;
            Ok(Expr::Scale(*op, Box::new(alloc, a)?, *by))
        }
        TypedNode::Convert(how, a) => {
            let a = expression(alloc, program, a)?;
            Ok(Expr::Convert(*how, Box::new(alloc, a)?, e.ty))
        }
        TypedNode::Select(c, a, b) => {
            let c = expression(alloc, program, c)?;
            let a = expression(alloc, program, a)?;
            let b = expression(alloc, program, b)?;
            Ok(Expr::Select(
                Box::new(alloc, c)?,
                Box::new(alloc, a)?,
                Box::new(alloc, b)?,
            ))
        }
    }
}

fn copied(alloc: Global, name: &Name) -> Result<Text, OutOfMemory>
    ensures { IfOk result (λ text. text ≡ name.now.text) }
{
    Ok(Text::new(Vec::from_slice(alloc, name.text.as_bytes())?))
}

// The inputs as those of a `Program`.
pub(crate) fn inputs(alloc: Global, items: &[TypedInput]) -> Result<Vec<Input>, OutOfMemory>
    ensures names { IfOk result (λ v. map (λ i. i.name) v.items
        ≡ map (λ i. i.name.text) items.now) }
    ensures types { IfOk result (λ v. map (λ i. i.ty) v.items ≡ map (λ i. i.ty) items.now) }
{
    let mut done = Vec::new(alloc);
    for k in 0..items.len() {
        let item = &items[k];
        let name = copied(alloc, &item.name)?;
        done.push(Input { name, ty: item.ty })?;
    }
    Ok(done)
}

#[tactic(auto, using(crate::proofs::Bodies::type_beside))]
fn image_type(definition: &TypedDefinition) -> Ty
    ensures { result ≡ image_type_of (definition_of definition.now) }
{
    match definition.declared {
        Some(ty) => ty,
        None => definition.body.ty,
    }
}

// The inlined body of a definition.
fn whole_body(
    alloc: Global,
    program: &TypedProgram,
    definition: &TypedDefinition,
) -> Result<Expr, OutOfMemory>
    requires { IsWell (types_of (typing_of program.now)) (typed_of definition.now.body) }
    ensures { IfOk result (λ e. tree_of e
        ≡ inlined_body (substitutes (typing_of program.now)) (definition_of definition.now)) }
{
    let plain = expression(alloc, program, &definition.body)?;
    let body = declared(alloc, definition.declared, plain)?;
    Ok(body)
}

// The body of the image of the definition of this number.
fn image_body(alloc: Global, program: &TypedProgram, number: usize) -> Result<Expr, OutOfMemory>
    requires { number < length program.now.definitions }
    ensures { (d : T.Definition) → slice_get (typing_of program.now).definitions number ≡ Some d
        → IfOk result (λ e. tree_of e ≡ body_of (typing_of program.now) number d) }
{
    program.law();
    let definition = &program.definitions()[number];
    if !stays(program, number) {
        return Ok(Expr::Constant(0, image_type(definition)));
    }
    let body = whole_body(alloc, program, definition)?;
    Ok(body)
}

// The images of the definitions. An inline image that is no output, which nobody reads any more, has the body 0.
pub(crate) fn images(alloc: Global, program: &TypedProgram) -> Result<Vec<Definition>, OutOfMemory>
    ensures names { IfOk result (λ v. map (λ d. d.name) v.items
        ≡ map (λ (d : T.Definition). d.name.text) (typing_of program.now).definitions) }
    ensures types { IfOk result (λ v. map (λ d. d.ty) v.items
        ≡ map image_type_of (typing_of program.now).definitions) }
    ensures bodies { IfOk result (λ v. map (λ d. tree_of d.body) v.items
        ≡ bodies (typing_of program.now)) }
{
    let definitions = program.definitions();
    let mut done = Vec::new(alloc);
    for k in 0..definitions.len() {
        let definition = &definitions[k];
        let name = copied(alloc, &definition.name)?;
        let ty = image_type(definition);
        let body = image_body(alloc, program, k)?;
        done.push(Definition { name, ty, body })?;
    }
    Ok(done)
}
