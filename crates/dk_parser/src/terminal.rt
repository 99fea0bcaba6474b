// What the grammar sees of a token.

ghost use Rattle.std.specs.Prelude.{◌≡◌};
ghost use Rattle.dk_parser.specs.Marks.{mark_terminal};

use dk_base::Ty;
use dk_lexer::Symbol;
use source_words::Keyword;

/// A terminal of the grammar.
#[derive(Clone, Copy, PartialEq, Eq)]
pub enum Terminal {
    Keyword(Keyword),
    TypeWord(Ty),
    Name,
    Number(u64),
    Symbol(Symbol),
    EndOfText,
}

/// A terminal of one spelling.
#[derive(Clone, Copy)]
pub enum Mark {
    Reserved(Keyword),
    Sign(Symbol),
    Finish,
}

impl Mark {
    pub(crate) fn terminal(self) -> Terminal
        ensures { result ≡ mark_terminal self }
    {
        match self {
            Mark::Reserved(keyword) => Terminal::Keyword(keyword),
            Mark::Sign(symbol) => Terminal::Symbol(symbol),
            Mark::Finish => Terminal::EndOfText,
        }
    }
}
