// One body, cut into pieces.

use crate::expanded::Expanded;
use crate::images::{image_name, read_levels};
use crate::levels::{levels_of, raised};
use crate::names::NamedProgram;
use crate::pieces::{Above, BodyPiece, Pieces, cut, moved_piece, offset_read, share};
use crate::product::{Factor, divided, has_divided, is_divided};
use crate::repeats::{Shift, classes_of};
use body_terms::{
    Part, PixelRead, Term, TermNode, binary, converted, number, only_widens, own_levels, scaled,
    selected, unary,
};
use dk_base::OutOfMemory;
use std::alloc::Global;

// A body and its pieces.
#[derive(Drop)]
pub(crate) struct Body {
    pub(crate) pieces: Vec<BodyPiece>,
    pub(crate) text: Vec<u8>,
    pub(crate) levels: u32,
    // Whether it tests if a point is in the frame.
    pub(crate) tests_frame: bool,
    // Whether a piece has no name.
    is_unnamed: bool,
}

// The limit that no body passes.
pub(crate) const NO_LIMIT: u32 = u32::MAX;

// A read as the pieces have it.
fn read_part(alloc: Global, pieces: &Pieces<'_>, read: PixelRead) -> Result<Part, OutOfMemory> {
    let program = pieces.names.program;
    let seen = PixelRead {
        image: read.image,
        dx: if pieces.is_still { 0 } else { read.dx },
        dy: read.dy,
        clamped: read.clamped && !pieces.is_still,
    };
    let levels = read_levels(program, pieces.levels, seen);
    let name = image_name(program, read.image);
    offset_read(alloc, name, (seen.dx, seen.dy), seen.clamped, levels)
}

// A read of the image that is 1.
fn test_part(
    alloc: Global,
    pieces: &mut Pieces<'_>,
    dx: i32,
    dy: i32,
) -> Result<Part, OutOfMemory> {
    pieces.tests_frame = true;
    offset_read(alloc, &pieces.names.frame, (dx, dy), false, 0)
}

// The read of a piece at a column. A clamped one chooses among taps.
fn moved_read(alloc: Global, piece: &BodyPiece, shift: Shift) -> Result<Part, OutOfMemory> {
    let levels = u32::from(shift.clamped);
    offset_read(alloc, &piece.name, (shift.dx, 0), shift.clamped, levels)
}

// What the operands of an expression have above them. A form that only widens is not cut, so that the narrower value is stored.
fn above_operands(limit: u32, is_divided: bool, above: Above, e: &Term) -> Above {
    if is_divided {
        return Above::Operator(limit);
    }
    if only_widens(e) {
        return above;
    }
    match own_levels(e) {
        0 => Above::Nothing,
        own => Above::Operator(own),
    }
}

// A divided product, or the read of its piece if it must be one.
fn product(
    alloc: Global,
    pieces: &mut Pieces<'_>,
    above: Above,
    (one, other): (Factor, Factor),
) -> Result<Part, OutOfMemory> {
    let product = divided(alloc, pieces, &one, &other)?;
    cut(alloc, pieces, above, product)
}

// A part with the levels of its outermost form added, or the read of its piece if it must be one.
fn finished(
    alloc: Global,
    pieces: &mut Pieces<'_>,
    above: Above,
    e: &Term,
    inner: Part,
) -> Result<Part, OutOfMemory> {
    let part = raised(inner, own_levels(e));
    if only_widens(e) {
        return Ok(part);
    }
    cut(alloc, pieces, above, part)
}

// An expression whose parts above the limit are cut off. The factors of a divided product have the limit above them: with levels they are pieces, since they are read several times.
fn part(
    alloc: Global,
    pieces: &mut Pieces<'_>,
    above: Above,
    e: &Term,
) -> Result<Part, OutOfMemory> {
    if let Some((piece, shift)) = moved_piece(pieces, e) {
        let read = moved_read(alloc, piece, shift)?;
        return cut(alloc, pieces, above, read);
    }
    let is_divided = is_divided(pieces.limit, e);
    let below = above_operands(pieces.limit, is_divided, above, e);
    let inner = match &e.node {
        TermNode::Number(value) => number(alloc, *value),
        TermNode::Read(read) => read_part(alloc, pieces, *read),
        TermNode::InFrame(dx, dy) => test_part(alloc, pieces, *dx, *dy),
        TermNode::Unary(operator, a) => unary(alloc, *operator, part(alloc, pieces, below, a)?),
        TermNode::Binary(_, a, b) if is_divided => {
            let one = Factor::new(part(alloc, pieces, below, a)?, a.ty);
            let other = Factor::new(part(alloc, pieces, below, b)?, b.ty);
            return product(alloc, pieces, above, (one, other));
        }
        TermNode::Binary(operator, a, b) => {
            let one = part(alloc, pieces, below, a)?;
            let other = part(alloc, pieces, below, b)?;
            binary(alloc, *operator, one, other)
        }
        TermNode::Scale(operator, a, by) => {
            scaled(alloc, *operator, part(alloc, pieces, below, a)?, *by)
        }
        TermNode::Convert(how, a) => converted(alloc, *how, part(alloc, pieces, below, a)?, e.ty),
        TermNode::Select(c, a, b) => {
            let c = part(alloc, pieces, below, c)?;
            let a = part(alloc, pieces, below, a)?;
            let b = part(alloc, pieces, below, b)?;
            selected(alloc, c, a, b)
        }
    }?;
    finished(alloc, pieces, above, e, inner)
}

// Makes pieces of the parts that the body has at two columns.
fn share_repeated<'a>(
    alloc: Global,
    pieces: &mut Pieces<'a>,
    e: &'a Term,
) -> Result<(), OutOfMemory> {
    let classes = classes_of(alloc, pieces.names.program, e)?;
    for class in &classes {
        if class.is_repeated {
            pieces.is_still = true;
            let piece = part(alloc, pieces, Above::Nothing, class.part)?;
            pieces.is_still = false;
            share(alloc, pieces, class.part, piece)?;
        }
    }
    Ok(())
}

// A body that is cut at the limit of its pieces.
fn made(alloc: Global, mut pieces: Pieces<'_>, e: &Term) -> Result<Body, OutOfMemory> {
    let whole = part(alloc, &mut pieces, Above::Nothing, e)?;
    Ok(Body {
        pieces: pieces.items,
        text: whole.text,
        levels: whole.levels.unwrap_or(0),
        tests_frame: pieces.tests_frame,
        is_unnamed: pieces.has_unnamed,
    })
}

// The body of the definition with this name. If it passes the limit, its expanded body is cut. If a piece would have no name, it is whole. The levels are those of the bodies before.
pub(crate) fn cut_body<'a>(
    alloc: Global,
    names: &'a NamedProgram<'a>,
    levels: &'a [u32],
    stem: &'a [u8],
    expanded: &'a Expanded,
    limit: u32,
) -> Result<Body, OutOfMemory> {
    let written = levels_of(names.program, levels, &expanded.written).unwrap_or(0);
    if limit < written || has_divided(limit, &expanded.written) {
        let mut pieces = Pieces::new(alloc, names, levels, stem, limit);
        share_repeated(alloc, &mut pieces, &expanded.body)?;
        let cut = made(alloc, pieces, &expanded.body)?;
        if !cut.is_unnamed {
            return Ok(cut);
        }
    }
    let uncut = Pieces::new(alloc, names, levels, stem, NO_LIMIT);
    let whole = made(alloc, uncut, &expanded.written)?;
    Ok(whole)
}
