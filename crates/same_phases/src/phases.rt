// The check of two programs.

ghost use Rattle.std.specs.Prelude.{◌≡◌, ◌≤◌, ◌<◌, ◌*◌, ◌/◌, ◌%◌, ℕ, length, slice_get, Some, IsTrue, IfOk, IfSome};
ghost use Rattle.dk_types.specs.Typed.{typing_of, definition_of, image_type as image_type_of, input_types, types_of};
ghost use Rattle.same_phases.specs.Phases.{SplitPictures};
ghost use Rattle.same_phases.specs.Roles.{IsOutputPhase, IsSplit};

use crate::images::all_roles;
use crate::role::{Role, role_of};
use dk_base::{OutOfMemory, Ty};
use dk_types::{TypedDefinition, TypedInput, TypedProgram};
use std::alloc::Global;

// Whether the frame and the number of the inputs are those of phases.
fn is_split(phases: u32, old: &TypedProgram, new: &TypedProgram) -> bool
    requires some { 2 ≤ phases }
    requires most { phases ≤ 8 }
    ensures { IsTrue result → IsSplit phases (typing_of old.now) (typing_of new.now) }
{
    old.law();
    new.law();
    if old.size().width != phases * new.size().width {
        return false;
    }
    if new.size().height != old.size().height {
        return false;
    }
    new.inputs().len() as u32 == phases * old.inputs().len() as u32
}

// Whether input j of the new program has the type of input k of the old one.
fn has_input_type(old: &[TypedInput], k: usize, new: &[TypedInput], j: usize) -> bool
    requires old { k < length old.now }
    requires new { j < length new.now }
    ensures { IsTrue result → slice_get (input_types new.now) j
        ≡ slice_get (input_types old.now) k }
{
    new[j].ty == old[k].ty
}

// Whether each phase of an input has its type.
fn have_input_types(phases: usize, old: &[TypedInput], new: &[TypedInput]) -> bool
    requires some { 2 ≤ phases }
    requires count { length new.now ≡ phases * length old.now }
    ensures { IsTrue result → (j : ℕ) → j < length new.now → slice_get (input_types new.now) j
        ≡ slice_get (input_types old.now) (j / phases) }
{
    for j in 0..new.len() {
        if !has_input_type(old, j / phases, new, j) {
            return false;
        }
    }
    true
}

// The type of a definition's image.
#[tactic(auto, using(crate::proofs::Types::type_beside))]
fn image_type(definition: &TypedDefinition) -> Ty
    ensures { result ≡ image_type_of (definition_of definition.now) }
{
    match definition.declared {
        Some(ty) => ty,
        None => definition.body.ty,
    }
}

// The type of an image, by its number.
fn type_of(program: &TypedProgram, image: u32) -> Option<Ty>
    ensures { IfSome result (λ t. slice_get (types_of (typing_of program.now)) image ≡ Some t) }
{
    let inputs = program.inputs();
    let place = image as usize;
    if place < inputs.len() {
        return Some(inputs[place].ty);
    }
    let definitions = program.definitions();
    if place - inputs.len() < definitions.len() {
        Some(image_type(&definitions[place - inputs.len()]))
    } else {
        None
    }
}

// Whether two images are there and have one type.
fn have_same_type(old: &TypedProgram, g: u32, new: &TypedProgram, h: u32) -> bool
    ensures { IsTrue result → slice_get (types_of (typing_of new.now)) h
        ≡ slice_get (types_of (typing_of old.now)) g }
{
    match type_of(old, g) {
        Some(one) => match type_of(new, h) {
            Some(other) => other == one,
            None => false,
        },
        None => false,
    }
}

// Whether this image of the new program is this phase of an image of the old one.
fn is_phase_of(roles: &[Role], image: u32, phase: usize, other: u32) -> bool
    ensures { IsTrue result → slice_get roles.now other ≡ Some (Role.Phase image phase) }
{
    match role_of(roles, other) {
        Some(Role::Phase(its, number)) => its == image && number as usize == phase,
        Some(Role::Column(_, _)) => false,
        Some(Role::Frame) => false,
        None => false,
    }
}

// Whether output j of the new program is the phase of an output of the old one, with its type.
fn is_output_phase(
    phases: usize,
    old: &TypedProgram,
    new: &TypedProgram,
    roles: &[Role],
    j: usize,
) -> bool
    requires some { 2 ≤ phases }
    requires there { j < length new.now.outputs }
    requires count { length new.now.outputs ≡ phases * length old.now.outputs }
    ensures { IsTrue result
        → IsOutputPhase phases (typing_of old.now) (typing_of new.now) roles.now j }
{
    let image = old.outputs()[j / phases];
    let other = new.outputs()[j];
    if !is_phase_of(roles, image, j % phases, other) {
        return false;
    }
    have_same_type(old, image, new, other)
}

// Whether each output of the new program is the phase of an output of the old one, with its type.
fn are_output_phases(phases: usize, old: &TypedProgram, new: &TypedProgram, roles: &[Role]) -> bool
    requires some { 2 ≤ phases }
    requires count { length new.now.outputs ≡ phases * length old.now.outputs }
    ensures { IsTrue result → (j : ℕ) → j < length new.now.outputs
        → IsOutputPhase phases (typing_of old.now) (typing_of new.now) roles.now j }
{
    for j in 0..new.outputs().len() {
        if !is_output_phase(phases, old, new, roles, j) {
            return false;
        }
    }
    true
}

/// Whether the new program shows the phases of the old one's pictures.
///
/// It says yes only if each image of the new program is a phase of an image of the old one, which come in order, a column of one or the test of the frame, by their bodies, node by node. Fails only if out of memory.
pub fn have_phases(
    alloc: Global,
    phases: u32,
    old: &TypedProgram,
    new: &TypedProgram,
) -> Result<bool, OutOfMemory>
    requires some { 2 ≤ phases }
    requires most { phases ≤ 8 }
    ensures { IfOk result (λ same. IsTrue same
        → SplitPictures phases (typing_of old.now) (typing_of new.now)) }
{
    if !is_split(phases, old, new) {
        return Ok(false);
    }
    let count = phases as usize;
    if !have_input_types(count, old.inputs(), new.inputs()) {
        return Ok(false);
    }
    if new.outputs().len() != count * old.outputs().len() {
        return Ok(false);
    }
    match all_roles(alloc, old, new, phases)? {
        Some(roles) => Ok(are_output_phases(count, old, new, &roles)),
        None => Ok(false),
    }
}
