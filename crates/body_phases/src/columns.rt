// The columns that clamped reads need: where such a read leaves the frame, it shows the outermost column of the source's frame, which may be of another phase.

use crate::place::{column_of, place_of, stays_in_phase};
use crate::reads::reads_of;
use dk_base::{MAX_DEFINITIONS, OutOfMemory};
use dk_types::{TypedProgram, TypedRead};
use std::alloc::Global;

// A column of an image, counted from the first phase at the point, or the column of the frame that is nearest to it.
#[derive(Clone, Copy, PartialEq, Eq)]
pub(crate) struct ImageColumn {
    pub(crate) image: u32,
    pub(crate) offset: i64,
}

// The column that a read needs in the body of a phase, if any.
pub(crate) fn needed_column(phases: u32, phase: u32, read: TypedRead) -> Option<ImageColumn> {
    let offset = column_of(read, phase);
    if !read.clamped || stays_in_phase(phases, place_of(phases, offset)) {
        return None;
    }
    Some(ImageColumn {
        image: read.image,
        offset,
    })
}

// Adds a column that is not there yet. Once there are more of them than a program has definitions, the text is over that limit, and no more are added.
fn add_column(to: &mut Vec<ImageColumn>, column: ImageColumn) -> Result<(), OutOfMemory> {
    if to.len() <= MAX_DEFINITIONS && !to.contains(&column) {
        to.push(column)?;
    }
    Ok(())
}

// Adds the columns that a read needs in the bodies of all phases.
fn add_columns(to: &mut Vec<ImageColumn>, phases: u32, read: TypedRead) -> Result<(), OutOfMemory> {
    for phase in 0..phases {
        if let Some(column) = needed_column(phases, phase, read) {
            add_column(to, column)?;
        }
    }
    Ok(())
}

// Adds those that the reads of a body need.
fn add_of_reads(
    to: &mut Vec<ImageColumn>,
    phases: u32,
    reads: &[TypedRead],
) -> Result<(), OutOfMemory> {
    for read in reads {
        add_columns(to, phases, *read)?;
    }
    Ok(())
}

// All columns that the program needs.
pub(crate) fn columns_of(
    alloc: Global,
    program: &TypedProgram,
    phases: u32,
) -> Result<Vec<ImageColumn>, OutOfMemory> {
    let mut columns = Vec::new(alloc);
    for definition in program.definitions() {
        let reads = reads_of(alloc, &definition.body)?;
        add_of_reads(&mut columns, phases, &reads)?;
    }
    Ok(columns)
}
