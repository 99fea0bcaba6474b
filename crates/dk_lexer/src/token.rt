// Tokens.

use dk_base::{Span, Text};

/// A symbol, named for its spelling.
#[derive(Clone, Copy, Debug, PartialEq, Eq)]
pub enum Symbol {
    /// `<<`
    ShiftLeft,
    /// `<=`
    LessEqual,
    /// `>>`
    ShiftRight,
    /// `>=`
    GreaterEqual,
    /// `==`
    EqualEqual,
    /// `!=`
    NotEqual,
    /// `<`
    Less,
    /// `>`
    Greater,
    /// `=`
    Equal,
    /// `!`
    Bang,
    /// `|`
    Bar,
    /// `^`
    Caret,
    /// `&`
    Ampersand,
    /// `+`
    Plus,
    /// `-`
    Minus,
    /// `*`
    Star,
    /// `/`
    Slash,
    /// `(`
    Open,
    /// `)`
    Close,
    /// `,`
    Comma,
    /// `:`
    Colon,
}

/// What a token is. A word owns a copy of its bytes.
#[derive(Debug, Drop)]
pub enum TokenKind {
    Word(Text),
    Number(u64),
    Symbol(Symbol),
    /// The end of the text.
    End,
}

/// A token, and where it is in its text.
#[derive(Debug, Drop)]
pub struct Token {
    pub span: Span,
    pub kind: TokenKind,
}
