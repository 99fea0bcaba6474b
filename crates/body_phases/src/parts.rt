// A body as its tokens and its reads.

use crate::reads::reads_of;
use crate::tokens::{after_read, begins_read, has_gap, is_end};
use dk_base::{OutOfMemory, Span};
use dk_lexer::Token;
use dk_types::{TypedExpr, TypedRead};
use std::alloc::Global;

// What a part of a body is.
#[derive(Clone, Copy)]
pub(crate) enum PartKind {
    // These bytes of the source.
    Bytes(Span),
    Read(TypedRead),
}

// A part of a body, and whether white space is before it.
#[derive(Clone, Copy)]
pub(crate) struct BodyPart {
    pub(crate) has_gap: bool,
    pub(crate) kind: PartKind,
}

// The part that begins at a place of the body from `start` on, where these reads are not passed yet: the next read, or a token.
fn part_at(
    tokens: &[Token],
    start: usize,
    place: usize,
    read: Option<&TypedRead>,
) -> Option<BodyPart> {
    let token = tokens.get(place)?;
    let kind = match read {
        Some(read) if begins_read(tokens, place) => PartKind::Read(*read),
        Some(_) => PartKind::Bytes(token.span),
        None => PartKind::Bytes(token.span),
    };
    Some(BodyPart {
        has_gap: start < place && has_gap(tokens, place),
        kind,
    })
}

// The parts of the body that begins at a place.
pub(crate) fn parts_of(
    alloc: Global,
    tokens: &[Token],
    start: usize,
    body: &TypedExpr,
) -> Result<Vec<BodyPart>, OutOfMemory> {
    let reads = reads_of(alloc, body)?;
    let mut parts = Vec::new(alloc);
    let mut passed: usize = 0;
    let mut next = start;
    for place in start..tokens.len() {
        if is_end(tokens, place) {
            break;
        }
        if place < next {
            continue;
        }
        let Some(part) = part_at(tokens, start, place, reads.get(passed)) else {
            break;
        };
        if let PartKind::Read(_) = part.kind {
            passed = passed.saturating_add(1);
            next = after_read(tokens, place);
        }
        parts.push(part)?;
    }
    Ok(parts)
}
