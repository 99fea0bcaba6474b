// Unclosed brackets.

ghost use Rattle.std.specs.Prelude.{◌≡◌, ◌≤◌, MatchOption};
ghost use Rattle.dk_parser.specs.Nest.{unclosed as unclosed_of, StaysShallow, PassesAt};

use crate::classes;
use crate::terminal::Terminal;
use dk_base::{MAX_OPEN_BRACKETS, Span};
use dk_lexer::{Symbol, Token};

fn unclosed(before: usize, terminal: Terminal) -> usize
    requires { before ≤ MAX_OPEN_BRACKETS }
    ensures { result ≡ unclosed_of before terminal }
{
    match terminal {
        Terminal::Symbol(Symbol::Open) => before + 1,
        Terminal::Symbol(Symbol::Close) => before.saturating_sub(1),
        _ => before,
    }
}

// The first bracket that leaves too many unclosed.
pub(crate) fn overflow(tokens: &[Token]) -> Option<Span>
    ensures { MatchOption result (StaysShallow 0 tokens.now) (λ span. PassesAt 0 tokens.now span) }
{
    let mut open = 0;
    let mut rest = tokens;
    'tokens: while let Some((token, kind, after)) = classes::front(rest) {
        let behind = unclosed(open, kind);
        if behind > MAX_OPEN_BRACKETS {
            return Some(token.span);
        }
        open = behind;
        rest = after;
    }
    None
}
