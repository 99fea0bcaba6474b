// The pieces that a body is cut into.

use crate::names::{END_OF_NUMBERS, NamedProgram, is_taken};
use crate::repeats::{Shift, are_equal, shared_shift};
use body_terms::{Part, Precedence, Term, numbered, piece_read, push_read};
use dk_base::{MAX_DEFINITIONS, MAX_NAME_BYTES, OutOfMemory};
use std::alloc::Global;

// A definition that is made of a part of a body.
#[derive(Drop)]
pub(crate) struct BodyPiece {
    pub(crate) name: Vec<u8>,
    pub(crate) text: Vec<u8>,
}

// A part that the body has at several columns, and the number of its piece.
#[derive(Clone, Copy)]
struct Shared<'a> {
    part: &'a Term,
    piece: usize,
}

// What an expression has above it.
#[derive(Clone, Copy)]
pub(crate) enum Above {
    // Nothing that adds levels.
    Nothing,
    // An operator of this many levels.
    Operator(u32),
}

// The pieces of one body so far, and what they are made by.
#[derive(Drop)]
pub(crate) struct Pieces<'a> {
    pub(crate) names: &'a NamedProgram<'a>,
    // The levels of the bodies before.
    pub(crate) levels: &'a [u32],
    pub(crate) limit: u32,
    // The name of the definition.
    stem: &'a [u8],
    // The first number that was not tried in a name.
    next: u32,
    pub(crate) items: Vec<BodyPiece>,
    // The parts that the body has at several columns.
    shared: Vec<Shared<'a>>,
    // Whether reads are made without their moves along the line, as in a piece that is shared.
    pub(crate) is_still: bool,
    // Whether a piece has no name.
    pub(crate) has_unnamed: bool,
    // Whether the body tests if a point is in the frame.
    pub(crate) tests_frame: bool,
}

impl<'a> Pieces<'a> {
    // None yet.
    pub(crate) fn new(
        alloc: Global,
        names: &'a NamedProgram<'a>,
        levels: &'a [u32],
        stem: &'a [u8],
        limit: u32,
    ) -> Pieces<'a> {
        Pieces {
            names,
            levels,
            limit,
            stem,
            next: 1,
            items: Vec::new(alloc),
            shared: Vec::new(alloc),
            is_still: false,
            has_unnamed: false,
            tests_frame: false,
        }
    }
}

// Whether a part of these levels must be a piece.
fn passes(limit: u32, above: Above, levels: Option<u32>) -> bool {
    match (above, levels) {
        (Above::Operator(own), Some(levels)) => 0 < levels && limit < levels.saturating_add(own),
        _ => false,
    }
}

// The next name of a piece. None if there is none, or it would be too long.
fn next_name(alloc: Global, pieces: &mut Pieces<'_>) -> Result<Option<Vec<u8>>, OutOfMemory> {
    for number in pieces.next..END_OF_NUMBERS {
        pieces.next = number + 1;
        let name = numbered(alloc, pieces.stem, number)?;
        if MAX_NAME_BYTES < name.len() {
            break;
        }
        if !is_taken(pieces.names, &name) {
            return Ok(Some(name));
        }
    }
    pieces.has_unnamed = true;
    Ok(None)
}

// The piece of this text, if there is one.
fn known_piece<'a>(items: &'a [BodyPiece], text: &[u8]) -> Option<&'a BodyPiece> {
    for piece in items {
        if piece.text.as_slice() == text {
            return Some(piece);
        }
    }
    None
}

// Makes a part a piece, and returns the read of it.
fn make_piece(alloc: Global, pieces: &mut Pieces<'_>, part: Part) -> Result<Part, OutOfMemory> {
    let Some(name) = next_name(alloc, pieces)? else {
        return Ok(part);
    };
    let read = piece_read(alloc, &name)?;
    let text = part.text;
    pieces.items.push(BodyPiece { name, text })?;
    Ok(read)
}

// The part, or the read of its piece if it must be one. A body gets no more pieces after too many, since it is then not used.
pub(crate) fn cut(
    alloc: Global,
    pieces: &mut Pieces<'_>,
    above: Above,
    part: Part,
) -> Result<Part, OutOfMemory> {
    if !passes(pieces.limit, above, part.levels) {
        return Ok(part);
    }
    if let Some(piece) = known_piece(&pieces.items, &part.text) {
        return piece_read(alloc, &piece.name);
    }
    if MAX_DEFINITIONS <= pieces.items.len() {
        return Ok(part);
    }
    make_piece(alloc, pieces, part)
}

// A read of the image of this name at an offset, which has these levels.
pub(crate) fn offset_read(
    alloc: Global,
    name: &[u8],
    (dx, dy): (i32, i32),
    clamped: bool,
    levels: u32,
) -> Result<Part, OutOfMemory> {
    let mut text = Vec::new(alloc);
    push_read(&mut text, name, dx, dy)?;
    if clamped {
        text.extend_from_slice(b" edge clamp")?;
    }
    Ok(Part {
        text,
        binding: Precedence::Primary,
        levels: Some(levels),
    })
}

// Makes a part a piece that the body reads at several columns. `e` is the part with the moves of its reads.
pub(crate) fn share<'a>(
    alloc: Global,
    pieces: &mut Pieces<'a>,
    e: &'a Term,
    part: Part,
) -> Result<(), OutOfMemory> {
    let Some(name) = next_name(alloc, pieces)? else {
        return Ok(());
    };
    pieces.shared.push(Shared {
        part: e,
        piece: pieces.items.len(),
    })?;
    let text = part.text;
    pieces.items.push(BodyPiece { name, text })?;
    Ok(())
}

// The shared piece that the expression is but for its move, if there is one.
fn shared_piece<'a>(pieces: &'a Pieces<'_>, e: &Term) -> Option<&'a BodyPiece> {
    for shared in &pieces.shared {
        if are_equal(shared.part, e) {
            return pieces.items.get(shared.piece);
        }
    }
    None
}

// The shared piece that the expression is but for its move, with this move.
pub(crate) fn moved_piece<'a>(pieces: &'a Pieces<'_>, e: &Term) -> Option<(&'a BodyPiece, Shift)> {
    let piece = shared_piece(pieces, e)?;
    let shift = shared_shift(pieces.names.program, e)?;
    if pieces.is_still {
        return Some((piece, Shift::NONE));
    }
    Some((piece, shift))
}
