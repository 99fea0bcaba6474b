// Where the definitions of a source are among its tokens.

use crate::tokens::next;
use dk_lexer::{Symbol, Token};
use dk_parser::{Terminal, terminal_at};
use source_words::Keyword;

// The number of the tokens `= im ( x , y )`.
const OPENING_TOKENS: usize = 7;

// The places of a definition's tokens: its name, the first one of its body, and the word `end` after the body.
#[derive(Clone, Copy)]
pub(crate) struct Place {
    pub(crate) name: usize,
    pub(crate) start: usize,
    pub(crate) end: usize,
}

// The next definition, from a place on.
pub(crate) fn next_definition(tokens: &[Token], from: usize) -> Place {
    let name = next(tokens, from, Terminal::Keyword(Keyword::Let)).saturating_add(1);
    let equal = next(tokens, name, Terminal::Symbol(Symbol::Equal));
    let start = equal.saturating_add(OPENING_TOKENS);
    Place {
        name,
        start,
        end: next(tokens, start, Terminal::Keyword(Keyword::End)),
    }
}

// The bracket that closes the one at a place. The number of tokens if there is none.
fn closing_bracket(tokens: &[Token], opening: usize) -> usize {
    let mut depth: usize = 0;
    for place in opening..tokens.len() {
        let terminal = terminal_at(tokens, place);
        if terminal == Terminal::Symbol(Symbol::Open) {
            depth = depth.saturating_add(1);
        }
        if terminal == Terminal::Symbol(Symbol::Close) {
            if depth <= 1 {
                return place;
            }
            depth = depth.saturating_sub(1);
        }
    }
    tokens.len()
}

// Whether the body is one pair of brackets, with one token before it or none: an operand of any operator.
pub(crate) fn is_enclosed(tokens: &[Token], at: Place) -> bool {
    let opens = Terminal::Symbol(Symbol::Open);
    let opening = if terminal_at(tokens, at.start) == opens {
        at.start
    } else {
        at.start.saturating_add(1)
    };
    if terminal_at(tokens, opening) != opens {
        return false;
    }
    closing_bracket(tokens, opening).saturating_add(1) == at.end
}
