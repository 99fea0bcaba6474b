// Columns of the source, as columns of its phases.

use dk_types::TypedRead;

// A column: this phase, so far to the right in the phase's frame.
#[derive(Clone, Copy)]
pub(crate) struct PhaseColumn {
    pub(crate) across: i64,
    pub(crate) phase: u64,
}

// The place of a column that is counted from the first phase at the point.
pub(crate) fn place_of(phases: u32, column: i64) -> PhaseColumn {
    let count = i64::from(phases.max(1));
    let phase = column.rem_euclid(count);
    PhaseColumn {
        across: column.saturating_sub(phase) / count,
        phase: phase.unsigned_abs(),
    }
}

// The column that a read is at in the body of a phase.
pub(crate) fn column_of(read: TypedRead, phase: u32) -> i64 {
    i64::from(phase) + i64::from(read.dx)
}

// Whether a read of the phase leaves the frame on the side of its outermost column only, if at all. A clamped read of it is then at the nearest column of the source's frame.
pub(crate) fn stays_in_phase(phases: u32, place: PhaseColumn) -> bool {
    if place.across == 0 {
        return true;
    }
    if place.across < 0 {
        place.phase == 0
    } else {
        place.phase.saturating_add(1) == u64::from(phases)
    }
}
