// Whether an expression of the new program has the values of one of the old program at a phase.

ghost use Rattle.std.specs.Prelude.{IsTrue, IfSome};
ghost use Rattle.dk_types.specs.Typed.{typing_of, typed_of};
ghost use Rattle.same_phases.specs.Roles.{HasPhase, HaveRolesAt, IsBodyOf};

use crate::operands::{
    binary_operands, converted_operand, is_number, read_of, scaled_operand, select_operands,
    unary_operand,
};
use crate::reads::reads_phase;
use crate::role::{PhaseIndex, Role};
use dk_types::{TypedExpr, TypedNode, TypedProgram};

// The body of an image, by its number; none if it is an input.
pub fn body_of(program: &TypedProgram, image: u32) -> Option<&TypedExpr>
    ensures { IfSome result (λ e. IsBodyOf (typing_of program.now) image (typed_of e.now)) }
{
    let inputs = program.inputs().len();
    let place = image as usize;
    if place < inputs {
        return None;
    }
    let definitions = program.definitions();
    if place - inputs < definitions.len() {
        Some(&definitions[place - inputs].body)
    } else {
        None
    }
}

pub fn has_phase(
    old: &TypedProgram,
    new: &TypedProgram,
    roles: &[Role],
    at: PhaseIndex,
    a: &TypedExpr,
    b: &TypedExpr,
) -> bool
    requires { HaveRolesAt at.phases at.phase (typing_of old.now) (typing_of new.now) roles.now }
    ensures { IsTrue result
        → HasPhase at.phases (typing_of old.now) (typing_of new.now) at.phase
        (typed_of a.now) (typed_of b.now) }
{
    match &a.node {
        TypedNode::Number(value) => is_number(b, *value),
        TypedNode::Read(read) => match read_of(b) {
            Some(other) => reads_phase(old, new, roles, at, *read, other),
            None => false,
        },
        TypedNode::Unary(op, operand) => match unary_operand(b, *op) {
            Some(other) => has_phase(old, new, roles, at, operand, other),
            None => false,
        },
        TypedNode::Binary(op, left, right) => match binary_operands(b, *op) {
            Some((l, r)) => {
                if !has_phase(old, new, roles, at, left, l) {
                    return false;
                }
                has_phase(old, new, roles, at, right, r)
            }
            None => false,
        },
        TypedNode::Scale(op, operand, by) => match scaled_operand(b, *op, *by) {
            Some(other) => has_phase(old, new, roles, at, operand, other),
            None => false,
        },
        TypedNode::Convert(how, operand) => match converted_operand(b, *how, a.ty) {
            Some(other) => has_phase(old, new, roles, at, operand, other),
            None => false,
        },
        TypedNode::Select(condition, left, right) => match select_operands(b) {
            Some((c, l, r)) => {
                if !has_phase(old, new, roles, at, condition, c) {
                    return false;
                }
                if !has_phase(old, new, roles, at, left, l) {
                    return false;
                }
                has_phase(old, new, roles, at, right, r)
            }
            None => false,
        },
    }
}
