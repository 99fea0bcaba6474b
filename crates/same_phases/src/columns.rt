// Images of the new program that are columns, or the test of the frame.

ghost use Rattle.std.specs.Prelude.{◌<◌, IsTrue, IfSome};
ghost use Rattle.dk_types.specs.Typed.{typing_of, typed_of};
ghost use Rattle.same_phases.specs.Roles.{ArePlayed, HaveRoles, IsChoice, IsColumnOf, IsFrameTest, IsInRow, IsNearer, IsOfRow, IsPhase};

use crate::operands::{read_of, select_operands};
use crate::reads::{column_at, is_brought};
use crate::role::{Role, role_of};
use dk_types::{TypedExpr, TypedProgram, TypedRead};

// Whether the read is unclamped and in its own row.
fn is_in_row(read: TypedRead) -> bool
    ensures { IsTrue result → IsInRow read }
{
    if read.clamped {
        return false;
    }
    read.dy == 0
}

// Whether a read is of the outermost phase, one group of columns nearer than one that leaves the frame on that side.
fn is_nearer(phases: u32, q: i32, near: i32, phase: u32) -> bool
    requires { phase < 4294967295 }
    ensures { IsTrue result → IsNearer phases q near phase }
{
    if q < 0 {
        if near != q + 1 {
            return false;
        }
        return phase == 0;
    }
    if q == 0 {
        return false;
    }
    if near != q - 1 {
        return false;
    }
    phase + 1 == phases
}

// Three reads of which a choice is made: by the first one, the second or the third.
#[derive(Clone, Copy)]
struct Choice {
    test: TypedRead,
    inside: TypedRead,
    edge: TypedRead,
}

// The three reads of a choice, if it is one of reads.
fn choice_of(e: &TypedExpr) -> Option<Choice>
    ensures { IfSome result (λ c. IsChoice c (typed_of e.now)) }
{
    let (test, inside, edge) = select_operands(e)?;
    let test = read_of(test)?;
    let inside = read_of(inside)?;
    let edge = read_of(edge)?;
    Some(Choice { test, inside, edge })
}

// Whether the first two reads are at the same point of the row, outside of the frame at times, and the third is in the row and never outside.
fn is_of_row(choice: Choice) -> bool
    ensures { IsTrue result → IsOfRow choice }
{
    if !is_in_row(choice.test) {
        return false;
    }
    if !is_in_row(choice.inside) {
        return false;
    }
    if choice.inside.dx != choice.test.dx {
        return false;
    }
    if choice.edge.dy != 0 {
        return false;
    }
    is_brought(choice.edge)
}

// Whether the image of the new program is the test of the frame.
fn is_frame(old: &TypedProgram, new: &TypedProgram, roles: &[Role], phases: u32, image: u32) -> bool
    requires roles { ArePlayed phases (typing_of old.now) (typing_of new.now) roles.now }
    ensures { IsTrue result → IsFrameTest phases (typing_of old.now) (typing_of new.now) image }
{
    match role_of(roles, image) {
        Some(Role::Frame) => true,
        Some(Role::Phase(_, _)) => false,
        Some(Role::Column(_, _)) => false,
        None => false,
    }
}

// The image and the phase that an image of the new program is of.
fn phase_of(
    old: &TypedProgram,
    new: &TypedProgram,
    roles: &[Role],
    phases: u32,
    image: u32,
) -> Option<(u32, u32)>
    requires roles { ArePlayed phases (typing_of old.now) (typing_of new.now) roles.now }
    ensures { IfSome result
        (λ f. IsPhase phases (typing_of old.now) (typing_of new.now) f.0 f.1 image) }
{
    match role_of(roles, image) {
        Some(Role::Phase(of, phase)) => Some((of, phase)),
        Some(Role::Column(_, _)) => None,
        Some(Role::Frame) => None,
        None => None,
    }
}

// The column that the expression shows: in the frame of the new program that of a phase, and else the outermost column of the old frame.
pub fn column_role(
    old: &TypedProgram,
    new: &TypedProgram,
    roles: &[Role],
    phases: u32,
    e: &TypedExpr,
) -> Option<Role>
    requires { HaveRoles phases (typing_of old.now) (typing_of new.now) roles.now }
    ensures { IfSome result
        (λ role. IsColumnOf phases (typing_of old.now) (typing_of new.now) role (typed_of e.now)) }
{
    let choice = choice_of(e)?;
    if !is_of_row(choice) {
        return None;
    }
    if !is_frame(old, new, roles, phases, choice.test.image) {
        return None;
    }
    let (image, phase) = phase_of(old, new, roles, phases, choice.inside.image)?;
    let (same, end) = phase_of(old, new, roles, phases, choice.edge.image)?;
    if same != image {
        return None;
    }
    if !is_nearer(phases, choice.test.dx, choice.edge.dx, end) {
        return None;
    }
    Some(Role::Column(image, column_at(phases, choice.test.dx, phase)))
}
