// Where the bodies of a source's definitions are among its tokens, and the reads in them.

use dk_lexer::{Symbol, Token};
use dk_parser::{Terminal, terminal_at};
use source_words::Keyword;

// The place after the next token that the grammar sees so, from a place on.
fn after(tokens: &[Token], from: usize, terminal: Terminal) -> usize {
    for place in from..tokens.len() {
        if terminal_at(tokens, place) == terminal {
            return place.saturating_add(1);
        }
    }
    tokens.len()
}

// The place of the first token of the next body, after `= im ( x , y )`.
pub(crate) fn body_start(tokens: &[Token], from: usize) -> usize {
    let equal = after(tokens, from, Terminal::Symbol(Symbol::Equal));
    after(tokens, equal, Terminal::Symbol(Symbol::Close))
}

// Whether the token at a place ends a body.
pub(crate) fn is_end(tokens: &[Token], place: usize) -> bool {
    terminal_at(tokens, place) == Terminal::Keyword(Keyword::End)
}

// Whether a read begins at the place in a body: a name before a bracket.
pub(crate) fn begins_read(tokens: &[Token], place: usize) -> bool {
    let next = terminal_at(tokens, place.saturating_add(1));
    terminal_at(tokens, place) == Terminal::Name && next == Terminal::Symbol(Symbol::Open)
}

// The place after the read that begins at a place.
pub(crate) fn after_read(tokens: &[Token], place: usize) -> usize {
    let end = after(tokens, place, Terminal::Symbol(Symbol::Close));
    if terminal_at(tokens, end) == Terminal::Keyword(Keyword::Edge) {
        end.saturating_add(2)
    } else {
        end
    }
}

// Whether there is white space or a comment before the token.
pub(crate) fn has_gap(tokens: &[Token], place: usize) -> bool {
    match (tokens.get(place.saturating_sub(1)), tokens.get(place)) {
        (Some(before), Some(token)) => before.span.stop < token.span.start,
        (Some(_), None) => false,
        (None, _) => false,
    }
}
