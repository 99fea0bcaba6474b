// Tokens. They carry no text: the bytes of a token are those of its span.

use dk_base::Span;
use wiring::Constant;

/// A symbol, named for its spelling.
#[derive(Clone, Copy, Debug, PartialEq, Eq)]
pub enum Symbol {
    /// `<=`
    LessEqual,
    /// `==`
    EqualEqual,
    /// `(`
    Open,
    /// `)`
    Close,
    /// `[`
    OpenSquare,
    /// `]`
    CloseSquare,
    /// `{`
    OpenBrace,
    /// `}`
    CloseBrace,
    /// `,`
    Comma,
    /// `;`
    Semicolon,
    /// `:`
    Colon,
    /// `?`
    Question,
    /// `=`
    Equal,
    /// `<`
    Less,
    /// `+`
    Plus,
    /// `-`
    Minus,
    /// `*`
    Star,
    /// `/`
    Slash,
    /// `&`
    Ampersand,
    /// `|`
    Bar,
    /// `^`
    Caret,
    /// `~`
    Tilde,
    /// `@`
    At,
}

/// A word of the grammar.
#[derive(Clone, Copy, Debug, PartialEq, Eq)]
pub enum Keyword {
    Module,
    EndModule,
    Input,
    Output,
    Wire,
    Reg,
    Assign,
    Always,
    Posedge,
    Begin,
    End,
}

/// What a token is.
#[derive(Clone, Copy, Debug, PartialEq, Eq)]
pub enum TokenKind {
    /// A name other than `clk`.
    Name,
    /// The name `clk`.
    Clock,
    Keyword(Keyword),
    /// A word of the standard that the subset refuses.
    Refused,
    /// A plain number.
    Plain(u64),
    /// A sized constant.
    Sized(Constant),
    Symbol(Symbol),
    /// The end of the text.
    End,
}

/// A token, and where it is in its text.
#[derive(Clone, Copy, Debug, PartialEq, Eq)]
pub struct Token {
    pub span: Span,
    pub kind: TokenKind,
}

/// Why a text has no tokens.
#[derive(Clone, Copy, Debug, PartialEq, Eq)]
pub enum LexKind {
    /// A byte that begins no token, or the `/` of a comment without its end.
    BadByte,
    /// A run of digits with `'` that is no sized constant, or one that does not fit its size.
    BadConstant,
    /// A plain number above 2^64 - 1.
    NumberTooGreat,
    /// A word of more than 64 bytes.
    NameTooLong,
}

/// Why a text has no tokens, and where.
#[derive(Clone, Copy, Debug, PartialEq, Eq, thiserror::Error)]
#[error("{}-{}: {kind:?}", .span.start, .span.stop)]
pub struct LexFault {
    pub span: Span,
    pub kind: LexKind,
}
