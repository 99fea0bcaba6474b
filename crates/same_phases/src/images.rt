// The role of each image of the new program.

ghost use Rattle.std.specs.Prelude.{◌≡◌, ◌≤◌, ◌<◌, length, IsTrue, IfOk, IfSome};
ghost use Rattle.dk_types.specs.Typed.{typing_of};
ghost use Rattle.same_phases.specs.Roles.{ArePlayed, HaveRoles, HaveRolesAt, IsPhase, IsSplit, Plays};

use crate::bodies::{body_of, has_phase};
use crate::columns::column_role;
use crate::operands::is_number;
use crate::role::{PhaseIndex, Role};
use dk_base::OutOfMemory;
use dk_types::TypedProgram;
use std::alloc::Global;

// Whether image h of the new program shows the phase of image g of the old one, by their bodies.
fn is_phase(
    old: &TypedProgram,
    new: &TypedProgram,
    roles: &[Role],
    at: PhaseIndex,
    g: u32,
    h: u32,
) -> bool
    requires { HaveRolesAt at.phases at.phase (typing_of old.now) (typing_of new.now) roles.now }
    ensures { IsTrue result
        → IsPhase at.phases (typing_of old.now) (typing_of new.now) g at.phase h }
{
    old.law();
    new.law();
    match body_of(old, g) {
        Some(a) => match body_of(new, h) {
            Some(b) => has_phase(old, new, roles, at, a, b),
            None => false,
        },
        None => false,
    }
}

// The column that image h of the new program shows, by its body.
fn column_of(
    old: &TypedProgram,
    new: &TypedProgram,
    roles: &[Role],
    phases: u32,
    h: u32,
) -> Option<Role>
    requires { HaveRoles phases (typing_of old.now) (typing_of new.now) roles.now }
    ensures { IfSome result (λ role. Plays phases (typing_of old.now) (typing_of new.now) role h) }
{
    new.law();
    let body = body_of(new, h)?;
    let role = column_role(old, new, roles, phases, body)?;
    Some(role)
}

// Whether image h of the new program is the test of the frame, by its body.
fn is_frame_test(old: &TypedProgram, new: &TypedProgram, phases: u32, h: u32) -> bool
    requires split { IsSplit phases (typing_of old.now) (typing_of new.now) }
    ensures { IsTrue result → Plays phases (typing_of old.now) (typing_of new.now) Role.Frame h }
{
    new.law();
    match body_of(new, h) {
        Some(body) => is_number(body, 1),
        None => false,
    }
}

// Whether the image has the name that the writer gives to the test of the frame. Each image that is a phase has another one.
fn is_named_frame(program: &TypedProgram, image: u32) -> bool {
    let Some(place) = (image as usize).checked_sub(program.inputs().len()) else {
        return false;
    };
    match program.definitions().get(place) {
        Some(definition) => definition.name.text.as_bytes() == b"frame".as_slice(),
        None => false,
    }
}

// The image and the phase that come after n images of phases, in order.
fn place_after(n: u32, phases: u32) -> (u32, PhaseIndex)
    requires { 2 ≤ phases }
    ensures phases { result.1.phases ≡ phases }
    ensures below { result.1.phase < phases }
{
    (
        n / phases,
        PhaseIndex {
            phases,
            phase: n % phases,
        },
    )
}

// The number of the image after those of the table.
fn next_image(roles: &[Role]) -> Option<u32>
    ensures { IfSome result (λ h. h ≡ length roles.now) }
{
    u32::try_from(roles.len()).ok()
}

// How many images of the table are phases.
fn phase_count(roles: &[Role]) -> u32 {
    let mut count: u32 = 0;
    for role in roles {
        count = count.saturating_add(role.phase_count());
    }
    count
}

// The role of the image after those of the table.
fn next_role(old: &TypedProgram, new: &TypedProgram, roles: &[Role], phases: u32) -> Option<Role>
    requires { HaveRoles phases (typing_of old.now) (typing_of new.now) roles.now }
    ensures { IfSome result
        (λ role. Plays phases (typing_of old.now) (typing_of new.now) role (length roles.now)) }
{
    let h = next_image(roles)?;
    if let Some(column) = column_of(old, new, roles, phases, h) {
        return Some(column);
    }
    if is_named_frame(new, h) {
        if is_frame_test(old, new, phases, h) {
            return Some(Role::Frame);
        }
    }
    let (image, at) = place_after(phase_count(roles), phases);
    if is_phase(old, new, roles, at, image, h) {
        Some(Role::Phase(image, at.phase))
    } else {
        None
    }
}

// The inputs of the new program, each a phase of an input of the old one.
fn input_roles(
    alloc: Global,
    old: &TypedProgram,
    new: &TypedProgram,
    phases: u32,
) -> Result<Vec<Role>, OutOfMemory>
    requires split { IsSplit phases (typing_of old.now) (typing_of new.now) }
    ensures { IfOk result
        (λ roles. ArePlayed phases (typing_of old.now) (typing_of new.now) roles.items) }
{
    old.law();
    new.law();
    let mut roles = Vec::new(alloc);
    for h in 0..new.inputs().len() {
        let h = h as u32;
        roles.push(Role::Phase(h / phases, h % phases))?;
    }
    Ok(roles)
}

// The role of each image of the new program, by its number, if each has one.
pub fn all_roles(
    alloc: Global,
    old: &TypedProgram,
    new: &TypedProgram,
    phases: u32,
) -> Result<Option<Vec<Role>>, OutOfMemory>
    requires split { IsSplit phases (typing_of old.now) (typing_of new.now) }
    ensures { IfOk result (λ found. IfSome found
        (λ roles. ArePlayed phases (typing_of old.now) (typing_of new.now) roles.items)) }
{
    let mut roles = input_roles(alloc, old, new, phases)?;
    for _ in 0..new.definitions().len() {
        match next_role(old, new, &roles, phases) {
            Some(role) => roles.push(role)?,
            None => return Ok(None),
        }
    }
    Ok(Some(roles))
}
