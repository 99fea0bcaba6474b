// Whether a read of the new program shows what one of the old program shows at a phase.

ghost use Rattle.std.specs.Prelude.{◌≡◌, ◌≤◌, ◌<◌, ◌+ℤ◌, ◌*ℤ◌, pos, IsTrue};
ghost use Rattle.dk_types.specs.Typed.{typing_of};
ghost use Rattle.same_phases.specs.Roles.{HaveRolesAt, IsBrought, IsColumn, IsMovedColumn, IsOnePhase, IsPhase, ReadsPhase, StaysInPhase};

use crate::role::{PhaseIndex, Role, role_of};
use dk_types::{TypedProgram, TypedRead};

// The column of this phase, q groups of columns to the right of the group at the point.
pub fn column_at(phases: u32, q: i32, phase: u32) -> i64
    requires { phases ≤ 8 }
    ensures { result ≡ (pos phases *ℤ q) +ℤ pos phase }
{
    i64::from(phases) * i64::from(q) + i64::from(phase)
}

// The column that is dx columns to the right of this phase.
pub fn column_by(phase: u32, dx: i32) -> i64
    ensures { result ≡ pos phase +ℤ dx }
{
    i64::from(phase) + i64::from(dx)
}

// Whether a read at a point of the frame brings its point to the frame's edge, or needs not to.
pub fn is_brought(read: TypedRead) -> bool
    ensures { IsTrue result → IsBrought read }
{
    if read.clamped {
        return true;
    }
    if read.dx != 0 {
        return false;
    }
    read.dy == 0
}

// Whether a read by q groups of columns of a phase leaves the frame on this phase's own side only.
pub fn stays_in_phase(phases: u32, q: i32, phase: u32) -> bool
    requires { phase < 4294967295 }
    ensures { IsTrue result → StaysInPhase phases q phase }
{
    if q == 0 {
        return true;
    }
    if q < 0 {
        return phase == 0;
    }
    phase + 1 == phases
}

// Whether the old program's read by dx columns from a phase is at the new one's column.
fn is_at_column(at: PhaseIndex, dx: i32, q: i32, phase: u32) -> bool
    requires { at.phases ≤ 8 }
    ensures { IsTrue result → IsMovedColumn at.phases phase q at.phase dx }
{
    column_at(at.phases, q, phase) == column_by(at.phase, dx)
}

// Whether a read of a phase shows what the old read shows.
fn reads_phase_of(
    old: &TypedProgram,
    new: &TypedProgram,
    at: PhaseIndex,
    phase: u32,
    a: TypedRead,
    b: TypedRead,
) -> bool
    requires phase { IsOnePhase at.phases at.phase (typing_of old.now) (typing_of new.now) }
    requires shows { IsPhase at.phases (typing_of old.now) (typing_of new.now)
        a.image phase b.image }
    ensures { IsTrue result
        → ReadsPhase at.phases (typing_of old.now) (typing_of new.now) at.phase a b }
{
    if b.dy != a.dy {
        return false;
    }
    if !is_at_column(at, a.dx, b.dx, phase) {
        return false;
    }
    if !a.clamped && !b.clamped {
        return true;
    }
    if !is_brought(a) {
        return false;
    }
    if !is_brought(b) {
        return false;
    }
    stays_in_phase(at.phases, b.dx, phase)
}

// Whether a read of a column shows what the old read shows.
fn reads_column_of(
    old: &TypedProgram,
    new: &TypedProgram,
    at: PhaseIndex,
    column: i64,
    a: TypedRead,
    b: TypedRead,
) -> bool
    requires phase { IsOnePhase at.phases at.phase (typing_of old.now) (typing_of new.now) }
    requires shows { IsColumn at.phases (typing_of old.now) (typing_of new.now)
        a.image column b.image }
    ensures { IsTrue result
        → ReadsPhase at.phases (typing_of old.now) (typing_of new.now) at.phase a b }
{
    if b.dy != a.dy {
        return false;
    }
    if b.dx != 0 {
        return false;
    }
    if column_by(at.phase, a.dx) != column {
        return false;
    }
    if !is_brought(a) {
        return false;
    }
    is_brought(b)
}

// Whether a read of the new program shows what one of the old program shows at the phase.
pub fn reads_phase(
    old: &TypedProgram,
    new: &TypedProgram,
    roles: &[Role],
    at: PhaseIndex,
    a: TypedRead,
    b: TypedRead,
) -> bool
    requires { HaveRolesAt at.phases at.phase (typing_of old.now) (typing_of new.now) roles.now }
    ensures { IsTrue result
        → ReadsPhase at.phases (typing_of old.now) (typing_of new.now) at.phase a b }
{
    match role_of(roles, b.image) {
        Some(Role::Phase(image, phase)) => {
            if image != a.image {
                return false;
            }
            reads_phase_of(old, new, at, phase, a, b)
        }
        Some(Role::Column(image, column)) => {
            if image != a.image {
                return false;
            }
            reads_column_of(old, new, at, column, a, b)
        }
        Some(Role::Frame) => false,
        None => false,
    }
}
