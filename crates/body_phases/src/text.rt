// A whole program as text.

use crate::columns::{ImageColumn, columns_of, needed_column};
use crate::names::{Stems, push_column_name, push_phase_name, stems_of};
use crate::parts::{BodyPart, PartKind, parts_of};
use crate::place::{PhaseColumn, column_of, place_of};
use crate::tokens::body_start;
use crate::words::{push_number, push_point, push_typing};
use dk_base::{FrameSize, OutOfMemory, Span, Ty};
use dk_lexer::{LexError, Token, lex};
use dk_types::{TypedDefinition, TypedProgram, TypedRead};
use std::alloc::{AllocError, Global};

// What all parts of the text are written from.
#[derive(Drop)]
struct Wide<'a> {
    source: &'a [u8],
    program: &'a TypedProgram,
    phases: u32,
    stems: Stems,
    columns: Vec<ImageColumn>,
}

fn push_size(to: &mut Vec<u8>, size: FrameSize, phases: u32) -> Result<(), OutOfMemory> {
    to.extend_from_slice(b"size ")?;
    push_number(to, u64::from(size.width / phases.max(1)))?;
    to.extend_from_slice(b" ")?;
    push_number(to, u64::from(size.height))?;
    to.extend_from_slice(b"\n")?;
    Ok(())
}

// Adds a read of a column in its row, without the test of the frame.
fn push_place(
    to: &mut Vec<u8>,
    wide: &Wide<'_>,
    image: u32,
    place: PhaseColumn,
    is_clamped: bool,
) -> Result<(), OutOfMemory> {
    push_phase_name(to, &wide.stems, image, place.phase)?;
    push_point(to, place.across, 0, is_clamped)
}

// The outermost column on the side of a column, one group nearer.
fn edge_of(wide: &Wide<'_>, place: PhaseColumn) -> PhaseColumn {
    if place.across < 0 {
        PhaseColumn {
            across: place.across.saturating_add(1),
            phase: 0,
        }
    } else {
        PhaseColumn {
            across: place.across.saturating_sub(1),
            phase: u64::from(wide.phases.saturating_sub(1)),
        }
    }
}

// Adds the definition of a column: that of its phase where the group is in the frame, and else the outermost one.
fn push_column(to: &mut Vec<u8>, wide: &Wide<'_>, column: ImageColumn) -> Result<(), OutOfMemory> {
    let place = place_of(wide.phases, column.offset);
    let edge = edge_of(wide, place);
    to.extend_from_slice(b"inline let ")?;
    push_column_name(to, &wide.stems, column)?;
    to.extend_from_slice(b" = im(x,y) select(frame")?;
    push_point(to, place.across, 0, false)?;
    to.extend_from_slice(b", ")?;
    push_place(to, wide, column.image, place, false)?;
    to.extend_from_slice(b", ")?;
    push_place(to, wide, column.image, edge, edge.across != 0)?;
    to.extend_from_slice(b") end\n")?;
    Ok(())
}

// Adds the columns of an image.
fn push_columns(to: &mut Vec<u8>, wide: &Wide<'_>, image: u32) -> Result<(), OutOfMemory> {
    for column in &wide.columns {
        if column.image == image {
            push_column(to, wide, *column)?;
        }
    }
    Ok(())
}

// Adds what a read of the source becomes in the body of a phase.
fn push_read(
    to: &mut Vec<u8>,
    wide: &Wide<'_>,
    read: TypedRead,
    phase: u32,
) -> Result<(), OutOfMemory> {
    let dy = i64::from(read.dy);
    if let Some(column) = needed_column(wide.phases, phase, read) {
        push_column_name(to, &wide.stems, column)?;
        return push_point(to, 0, dy, dy != 0);
    }
    let place = place_of(wide.phases, column_of(read, phase));
    push_phase_name(to, &wide.stems, read.image, place.phase)?;
    let is_moved = place.across != 0 || dy != 0;
    push_point(to, place.across, dy, read.clamped && is_moved)
}

// Adds these bytes of the source.
fn push_bytes(to: &mut Vec<u8>, wide: &Wide<'_>, span: Span) -> Result<(), OutOfMemory> {
    to.extend_from_slice(wide.source.get(span.start..span.stop).unwrap_or(b""))?;
    Ok(())
}

// Adds a body in a phase.
fn push_parts(
    to: &mut Vec<u8>,
    wide: &Wide<'_>,
    parts: &[BodyPart],
    phase: u32,
) -> Result<(), OutOfMemory> {
    for part in parts {
        if part.has_gap {
            to.push(b' ')?;
        }
        match part.kind {
            PartKind::Bytes(span) => push_bytes(to, wide, span)?,
            PartKind::Read(read) => push_read(to, wide, read, phase)?,
        }
    }
    Ok(())
}

// Adds a phase of a definition's image, which has this number.
fn push_phase(
    to: &mut Vec<u8>,
    wide: &Wide<'_>,
    image: u32,
    definition: &TypedDefinition,
    parts: &[BodyPart],
    phase: u32,
) -> Result<(), OutOfMemory> {
    if definition.inline {
        to.extend_from_slice(b"inline ")?;
    }
    to.extend_from_slice(b"let ")?;
    push_phase_name(to, &wide.stems, image, u64::from(phase))?;
    if let Some(ty) = definition.declared {
        push_typing(to, ty)?;
    }
    to.extend_from_slice(b" = im(x,y) ")?;
    push_parts(to, wide, parts, phase)?;
    to.extend_from_slice(b" end\n")?;
    Ok(())
}

// Adds the phases of a definition's image, and then its columns.
fn push_definition(
    to: &mut Vec<u8>,
    wide: &Wide<'_>,
    image: u32,
    definition: &TypedDefinition,
    parts: &[BodyPart],
) -> Result<(), OutOfMemory> {
    for phase in 0..wide.phases {
        push_phase(to, wide, image, definition, parts, phase)?;
    }
    push_columns(to, wide, image)
}

fn push_definitions(
    alloc: Global,
    to: &mut Vec<u8>,
    wide: &Wide<'_>,
    tokens: &[Token],
) -> Result<(), OutOfMemory> {
    let mut image = u32::try_from(wide.program.inputs().len()).unwrap_or(0);
    let mut start: usize = 0;
    for definition in wide.program.definitions() {
        start = body_start(tokens, start);
        let parts = parts_of(alloc, tokens, start, &definition.body)?;
        push_definition(to, wide, image, definition, &parts)?;
        image = image.saturating_add(1);
    }
    Ok(())
}

// Adds a line for each phase of an image, after this word.
fn push_lines(
    to: &mut Vec<u8>,
    wide: &Wide<'_>,
    word: &[u8],
    image: u32,
    ty: Option<Ty>,
) -> Result<(), OutOfMemory> {
    for phase in 0..wide.phases {
        to.extend_from_slice(word)?;
        push_phase_name(to, &wide.stems, image, u64::from(phase))?;
        if let Some(ty) = ty {
            push_typing(to, ty)?;
        }
        to.extend_from_slice(b"\n")?;
    }
    Ok(())
}

fn push_inputs(to: &mut Vec<u8>, wide: &Wide<'_>) -> Result<(), OutOfMemory> {
    let mut image: u32 = 0;
    for input in wide.program.inputs() {
        push_lines(to, wide, b"input ", image, Some(input.ty))?;
        image = image.saturating_add(1);
    }
    Ok(())
}

// Adds the image that is 1 in the frame, if a column needs it, and the columns of inputs.
fn push_input_columns(to: &mut Vec<u8>, wide: &Wide<'_>) -> Result<(), OutOfMemory> {
    if wide.columns.is_empty() {
        return Ok(());
    }
    to.extend_from_slice(b"inline let frame = im(x,y) 1 end\n")?;
    let inputs = u32::try_from(wide.program.inputs().len()).unwrap_or(0);
    for image in 0..inputs {
        push_columns(to, wide, image)?;
    }
    Ok(())
}

fn push_outputs(to: &mut Vec<u8>, wide: &Wide<'_>) -> Result<(), OutOfMemory> {
    for output in wide.program.outputs() {
        push_lines(to, wide, b"output ", *output, None)?;
    }
    Ok(())
}

/// The text of the program that shows the phases of a program's pictures, after `head`. `program` is that of `source`, whose width `phases` divides. Comments after `head` are left out.
///
/// No contract states what the text shows.
pub fn phases_text(
    alloc: Global,
    head: &[u8],
    source: &[u8],
    program: &TypedProgram,
    phases: u32,
) -> Result<Vec<u8>, OutOfMemory> {
    let mut text = Vec::from_slice(alloc, head)?;
    let tokens = match lex(alloc, source) {
        Ok(tokens) => tokens,
        Err(LexError::Fault(_)) => return Ok(text),
        Err(LexError::OutOfMemory) => return Err(AllocError),
    };
    let wide = Wide {
        source,
        program,
        phases,
        stems: stems_of(alloc, program, phases)?,
        columns: columns_of(alloc, program, phases)?,
    };
    push_size(&mut text, program.size(), phases)?;
    push_inputs(&mut text, &wide)?;
    push_input_columns(&mut text, &wide)?;
    push_definitions(alloc, &mut text, &wide, &tokens)?;
    push_outputs(&mut text, &wide)?;
    Ok(text)
}
