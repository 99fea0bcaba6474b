// The source with its changes.

use crate::changes::{Cast, Change, changes_of};
use crate::places::{Place, is_enclosed, next_definition};
use crate::tokens::{start_of, stop_of};
use crate::words::push_type;
use dk_base::{OutOfMemory, Ty, is_white, is_word_byte};
use dk_lexer::{LexError, Symbol, Token, lex};
use dk_parser::{Terminal, terminal_at};
use dk_types::TypedProgram;
use std::alloc::{AllocError, Global};

// A source and its tokens.
#[derive(Clone, Copy)]
struct Lexed<'a> {
    source: &'a [u8],
    tokens: &'a [Token],
}

// The bytes of the source between two places. None if the second one is before the first one, or after the end.
fn between(source: &[u8], from: usize, stop: usize) -> &[u8] {
    if stop < from || source.len() < stop {
        return &source[..0];
    }
    &source[from..stop]
}

// Adds what the source has between two places.
fn push_source(
    to: &mut Vec<u8>,
    source: &[u8],
    from: usize,
    stop: usize,
) -> Result<(), OutOfMemory> {
    to.extend_from_slice(between(source, from, stop))?;
    Ok(())
}

// Where the gap before a place begins, if it has only white space, so that no comment is removed with it; else the place.
fn gap_before(source: &[u8], from: usize, place: usize) -> usize {
    for byte in between(source, from, place) {
        if !is_white(*byte) {
            return place;
        }
    }
    from
}

// Whether a word goes on at a place of the source.
fn continues_word(source: &[u8], place: usize) -> bool {
    match source.get(place) {
        Some(byte) => is_word_byte(*byte),
        None => false,
    }
}

// Adds the source from a place on, up to a definition's name, and a declared type after it. The place after that.
fn push_declared(
    to: &mut Vec<u8>,
    on: &Lexed<'_>,
    from: usize,
    at: Place,
    ty: Ty,
) -> Result<usize, OutOfMemory> {
    let stop = stop_of(on.tokens, at.name);
    push_source(to, on.source, from, stop)?;
    to.extend_from_slice(b" : ")?;
    push_type(to, ty)?;
    Ok(stop)
}

// Adds the source from a place on, up to a token, which is left out with the white space before it. The place after the token.
fn push_without(
    to: &mut Vec<u8>,
    on: &Lexed<'_>,
    from: usize,
    token: usize,
) -> Result<usize, OutOfMemory> {
    let before = stop_of(on.tokens, token.saturating_sub(1));
    let stop = gap_before(on.source, before, start_of(on.tokens, token));
    push_source(to, on.source, from, stop)?;
    Ok(stop_of(on.tokens, token))
}

// Adds the source from a place on, up to a declared type, which is left out. The place after that; the same one if no type is declared.
fn push_undeclared(
    to: &mut Vec<u8>,
    on: &Lexed<'_>,
    from: usize,
    at: Place,
) -> Result<usize, OutOfMemory> {
    let colon = at.name.saturating_add(1);
    if terminal_at(on.tokens, colon) != Terminal::Symbol(Symbol::Colon) {
        return Ok(from);
    }
    let after = push_without(to, on, from, colon)?;
    push_without(to, on, after, colon.saturating_add(1))
}

// Adds the source from a place on, up to the end of a definition's body, with a conversion of the body. The place after that.
fn push_cast(
    to: &mut Vec<u8>,
    on: &Lexed<'_>,
    from: usize,
    at: Place,
    cast: Cast,
) -> Result<usize, OutOfMemory> {
    let start = start_of(on.tokens, at.start);
    let stop = stop_of(on.tokens, at.end.saturating_sub(1));
    let has_brackets = cast.needs_brackets && !is_enclosed(on.tokens, at);
    push_source(to, on.source, from, start)?;
    if has_brackets {
        to.push(b'(')?;
    }
    push_source(to, on.source, start, stop)?;
    if has_brackets {
        to.push(b')')?;
    }
    to.extend_from_slice(b" as ")?;
    push_type(to, cast.ty)?;
    if continues_word(on.source, stop) {
        to.push(b' ')?;
    }
    Ok(stop)
}

// Adds the source from a place on, with the change of a definition. The place after what was added.
fn push_change(
    to: &mut Vec<u8>,
    on: &Lexed<'_>,
    from: usize,
    at: Place,
    change: Change,
) -> Result<usize, OutOfMemory> {
    match change {
        Change::Nothing => Ok(from),
        Change::Declared(ty) => push_declared(to, on, from, at, ty),
        Change::Narrowed(cast) => {
            let after = push_undeclared(to, on, from, at)?;
            match cast {
                Some(cast) => push_cast(to, on, after, at, cast),
                None => Ok(after),
            }
        }
    }
}

// Adds the source with the changes of its definitions.
fn push_changes(to: &mut Vec<u8>, on: &Lexed<'_>, changes: &[Change]) -> Result<(), OutOfMemory> {
    let mut from: usize = 0;
    let mut next: usize = 0;
    for change in changes {
        let at = next_definition(on.tokens, next);
        from = push_change(to, on, from, at, *change)?;
        next = at.end;
    }
    push_source(to, on.source, from, on.source.len())
}

/// The text of a program whose images have the types of fewest bits that hold their values, as the intervals of value_ranges show. It is the source with changes, so that comments and layout stay:
/// - a definition that is not an output and needs fewer bits loses its declared type, and its body is converted if it has more bits itself;
/// - an output whose body would have another type gets its type declared.
///
/// `program` is that of `source`. No contract states what the text shows.
pub fn narrowed_text(
    alloc: Global,
    source: &[u8],
    program: &TypedProgram,
) -> Result<Vec<u8>, OutOfMemory> {
    let changes = changes_of(alloc, program)?;
    let mut text = Vec::new(alloc);
    let tokens = match lex(alloc, source) {
        Ok(tokens) => tokens,
        Err(LexError::Fault(_)) => return Ok(text),
        Err(LexError::OutOfMemory) => return Err(AllocError),
    };
    let on = Lexed {
        source,
        tokens: &tokens,
    };
    push_changes(&mut text, &on, &changes)?;
    Ok(text)
}
