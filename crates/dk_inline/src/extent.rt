// How large a program is after inlining, counted before anything is substituted.

ghost use Rattle.std.specs.Prelude.{◌≡◌, ℕ, ◌+◌, ◌<◌, max, List, length, IsTrue, ◌↔◌, IfOk, MatchOption, Some, None, slice_get, slice_index_or, if◌then◌else◌};
ghost use Rattle.dk_base.specs.declared.TheConstants.{MAX_INLINED_DEPTH};
ghost use Rattle.dk_types.specs.Typed.{Definition, typed_of, definition_of, typing_of};
ghost use Rattle.dk_inline.specs.Inlined.{Substitute, inlined, inlined_body, stays as stays_at};
ghost use Rattle.dk_inline.specs.Nodes.{IsDeep, IsFirstDeep, counted_nodes, node_count as node_count_of};
ghost use Rattle.dk_inline.specs.Extents.{AreExtents, AreUnread, HasExtent, HaveExtentAt, HaveExtents, IsExtent, saturated};

use dk_base::{MAX_INLINED_DEPTH, Span};
use dk_types::{TypedDefinition, TypedExpr, TypedNode, TypedProgram};
use std::alloc::{AllocError, Global};

// The nodes and the depth of an expression after inlining. Both saturate.
#[derive(Clone, Copy)]
pub struct InlinedSize {
    pub nodes: u64,
    pub depth: u64,
}

// Of a constant or a read.
fn leaf() -> InlinedSize
    ensures { HasExtent result 1 1 }
{
    InlinedSize { nodes: 1, depth: 1 }
}

// Of a form with such operands.
fn above(operands: InlinedSize) -> InlinedSize
    ensures { HasExtent result (saturated (operands.nodes + 1)) (saturated (operands.depth + 1)) }
{
    InlinedSize {
        nodes: operands.nodes.saturating_add(1),
        depth: operands.depth.saturating_add(1),
    }
}

// Of operands side by side.
fn beside(a: InlinedSize, b: InlinedSize) -> InlinedSize
    ensures { HasExtent result (saturated (a.nodes + b.nodes)) (max a.depth b.depth) }
{
    InlinedSize {
        nodes: a.nodes.saturating_add(b.nodes),
        depth: a.depth.max(b.depth),
    }
}

// Of the body of an image, where it is inline.
fn known_extent(known: &[Option<InlinedSize>], image: u32) -> Option<InlinedSize>
    ensures { result ≡ slice_index_or known.now image None }
{
    match known.get(image as usize) {
        Some(found) => *found,
        None => None,
    }
}

// Of an expression, where `known` has those of the images.
fn extent_of(known: &[Option<InlinedSize>], e: &TypedExpr) -> InlinedSize
    ensures { (images : List Substitute) → AreExtents known.now images
        → IsExtent result (inlined images (typed_of e.now)) }
{
    match &e.node {
        TypedNode::Number(_) => leaf(),
        TypedNode::Read(read) => match known_extent(known, read.image) {
            Some(body) => above(body),
            None => leaf(),
        },
        TypedNode::Unary(_, a) => above(extent_of(known, a)),
        TypedNode::Scale(_, a, _) => above(extent_of(known, a)),
        TypedNode::Convert(_, a) => above(extent_of(known, a)),
        TypedNode::Binary(_, a, b) => {
            let left = extent_of(known, a);
            let right = extent_of(known, b);
            above(beside(left, right))
        }
        TypedNode::Select(c, a, b) => {
            let condition = extent_of(known, c);
            let left = extent_of(known, a);
            let right = extent_of(known, b);
            above(beside(condition, beside(left, right)))
        }
    }
}

// Of a definition's body, brought into its declared type.
fn body_extent(known: &[Option<InlinedSize>], definition: &TypedDefinition) -> InlinedSize
    ensures { (images : List Substitute) → AreExtents known.now images
        → IsExtent result (inlined_body images (definition_of definition.now)) }
{
    let body = extent_of(known, &definition.body);
    match definition.declared {
        Some(_) => above(body),
        None => body,
    }
}

// What a read of the definition's image adds.
fn read_extent(definition: &TypedDefinition, body: InlinedSize) -> Option<InlinedSize>
    ensures { result ≡ (if definition.now.inline then Some body else None) }
{
    if definition.inline { Some(body) } else { None }
}

// What reads of this many inputs add.
fn unread(alloc: Global, inputs: usize) -> Result<Vec<Option<InlinedSize>>, AllocError>
    ensures { IfOk result (λ v. AreUnread v.items inputs) }
{
    Ok(vec![in alloc; None; inputs]?)
}

// Of the bodies of all definitions, in order.
pub(crate) fn extents(alloc: Global, program: &TypedProgram) -> Result<Vec<InlinedSize>, AllocError>
    ensures { IfOk result (λ all. HaveExtents (typing_of program.now) all.items) }
{
    program.law();
    let definitions = program.definitions();
    let mut known = unread(alloc, program.inputs().len())?;
    let mut all = Vec::new(alloc);
    for k in 0..definitions.len() {
        let definition = &definitions[k];
        let body = body_extent(&known, definition);
        known.push(read_extent(definition, body))?;
        all.push(body)?;
    }
    Ok(all)
}

// Whether the definition of this number stays an image.
pub(crate) fn stays(program: &TypedProgram, number: usize) -> bool
    requires { number < length program.now.definitions }
    ensures { (d : Definition) → slice_get (typing_of program.now).definitions number ≡ Some d
        → result ≡ stays_at (typing_of program.now) number d }
{
    program.law();
    if !program.definitions()[number].inline {
        return true;
    }
    let image = program.inputs().len() + number;
    program.outputs().contains(&(image as u32))
}

// The nodes that a definition counts.
fn counted(program: &TypedProgram, extents: &[InlinedSize], number: usize) -> u64
    requires { HaveExtentAt (typing_of program.now) extents.now number }
    ensures { (d : Definition) → slice_get (typing_of program.now).definitions number ≡ Some d
        → result ≡ saturated (counted_nodes (typing_of program.now) number d) }
{
    if stays(program, number) {
        extents[number].nodes
    } else {
        0
    }
}

// The nodes of the program after inlining. The count saturates.
pub(crate) fn node_count(program: &TypedProgram, extents: &[InlinedSize]) -> u64
    requires { HaveExtents (typing_of program.now) extents.now }
    ensures { result ≡ saturated (node_count_of (typing_of program.now)) }
{
    let mut count: u64 = 0;
    for k in 0..extents.len() {
        count = count.saturating_add(counted(program, extents, k));
    }
    count
}

// Whether a depth passes the limit.
fn passes(depth: u64) -> bool
    ensures { IsTrue result ↔ (MAX_INLINED_DEPTH < depth) }
{
    (MAX_INLINED_DEPTH as u64) < depth
}

// Whether a definition stays and is too deep.
fn is_deep(program: &TypedProgram, extents: &[InlinedSize], number: usize) -> bool
    requires { HaveExtentAt (typing_of program.now) extents.now number }
    ensures yes { IsTrue result → (d : Definition)
        → slice_get (typing_of program.now).definitions number ≡ Some d
        → IsDeep (typing_of program.now) number d }
    ensures no { (d : Definition) → IsDeep (typing_of program.now) number d → IsTrue result }
{
    if !stays(program, number) {
        return false;
    }
    let extent = extents[number];
    passes(extent.depth)
}

// The name of the first definition that is too deep.
pub(crate) fn first_deep(program: &TypedProgram, extents: &[InlinedSize]) -> Option<Span>
    requires { HaveExtents (typing_of program.now) extents.now }
    ensures { MatchOption result ((k : ℕ) (d : Definition) → IsDeep (typing_of program.now) k d → ⊥)
        (IsFirstDeep (typing_of program.now)) }
{
    for k in 0..extents.len() {
        if is_deep(program, extents, k) {
            return Some(program.definitions()[k].name.span);
        }
    }
    None
}
