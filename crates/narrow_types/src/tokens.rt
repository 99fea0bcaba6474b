// Single tokens of a source.

use dk_lexer::Token;
use dk_parser::{Terminal, terminal_at};

// The place of the next token that the grammar sees so, from a place on. The number of tokens if there is none.
pub(crate) fn next(tokens: &[Token], from: usize, terminal: Terminal) -> usize {
    for place in from..tokens.len() {
        if terminal_at(tokens, place) == terminal {
            return place;
        }
    }
    tokens.len()
}

// Where the token at a place begins in the source.
pub(crate) fn start_of(tokens: &[Token], place: usize) -> usize {
    match tokens.get(place) {
        Some(token) => token.span.start,
        None => 0,
    }
}

// Where the token at a place ends in the source.
pub(crate) fn stop_of(tokens: &[Token], place: usize) -> usize {
    match tokens.get(place) {
        Some(token) => token.span.stop,
        None => 0,
    }
}
