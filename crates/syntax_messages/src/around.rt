// The tokens around a faulty one.

use dk_base::Span;
use dk_lexer::{Symbol, Token, TokenKind};
use dk_parser::terminal_at;
use expected_tokens::TokenClass;
use source_words::Keyword;

/// A text and its tokens, none if it has no tokens.
#[derive(Clone, Copy)]
pub struct Source<'a> {
    pub text: &'a [u8],
    pub tokens: &'a [Token],
}

/// The place of the token at a span. The number of tokens if there is none.
pub fn token_at(tokens: &[Token], span: Span) -> usize {
    for (place, token) in tokens.iter().enumerate() {
        if span.start <= token.span.start {
            return place;
        }
    }
    tokens.len()
}

/// The class of the token at a place. The end of the text if there is none.
pub(crate) fn class_at(tokens: &[Token], place: usize) -> TokenClass {
    TokenClass::of(terminal_at(tokens, place))
}

/// The class of the token before a place, the first, second or later one. The end of the text if there is none.
pub fn class_before(tokens: &[Token], place: usize, back: usize) -> TokenClass {
    match place.checked_sub(back) {
        Some(place) => class_at(tokens, place),
        None => TokenClass::EndOfText,
    }
}

/// The bytes of a span of a text.
pub fn bytes_of(text: &[u8], span: Span) -> &[u8] {
    let stop = span.stop.min(text.len());
    let start = span.start.min(stop);
    &text[start..stop]
}

/// The bytes of the token at a place.
pub(crate) fn bytes_at<'a>(source: &Source<'a>, place: usize) -> &'a [u8] {
    match source.tokens.get(place) {
        Some(token) => bytes_of(source.text, token.span),
        None => &source.text[..0],
    }
}

/// Whether the tokens before and at a place touch.
pub(crate) fn touches(tokens: &[Token], place: usize) -> bool {
    match (place.checked_sub(1), tokens.get(place)) {
        (Some(before), Some(token)) => match tokens.get(before) {
            Some(before) => before.span.stop == token.span.start,
            None => false,
        },
        _ => false,
    }
}

/// Whether the bytes are these.
pub(crate) fn is_text(bytes: &[u8], text: &[u8]) -> bool {
    bytes == text
}

/// Whether a token is this word.
pub fn is_word(token: &Token, word: &[u8]) -> bool {
    match &token.kind {
        TokenKind::Word(text) => text.as_bytes() == word,
        TokenKind::Number(_) | TokenKind::Symbol(_) | TokenKind::End => false,
    }
}

/// A faulty token and the classes around it.
#[derive(Clone, Copy)]
pub(crate) struct Around<'a> {
    pub(crate) source: &'a Source<'a>,
    /// The place of the faulty token.
    pub(crate) place: usize,
    /// The second and the first before it.
    pub(crate) second: TokenClass,
    pub(crate) first: TokenClass,
    pub(crate) found: TokenClass,
    pub(crate) next: TokenClass,
    /// What could stand there.
    pub(crate) expected: &'a [TokenClass],
}

impl<'a> Around<'a> {
    pub(crate) fn new(
        source: &'a Source<'a>,
        place: usize,
        expected: &'a [TokenClass],
    ) -> Around<'a> {
        let tokens = source.tokens;
        Around {
            source,
            place,
            second: class_before(tokens, place, 2),
            first: class_before(tokens, place, 1),
            found: class_at(tokens, place),
            next: class_at(tokens, place.saturating_add(1)),
            expected,
        }
    }

    /// Whether a token of the class could stand there.
    pub(crate) fn expects(&self, class: TokenClass) -> bool {
        self.expected.contains(&class)
    }

    /// Whether the reserved word could stand there.
    pub(crate) fn expects_keyword(&self, keyword: Keyword) -> bool {
        self.expects(TokenClass::Keyword(keyword))
    }

    /// Whether the symbol could stand there.
    pub(crate) fn expects_symbol(&self, symbol: Symbol) -> bool {
        self.expects(TokenClass::Symbol(symbol))
    }

    /// Whether an operand could begin there.
    pub(crate) fn expects_operand(&self) -> bool {
        self.expects(TokenClass::Name) && self.expects(TokenClass::Number)
    }

    /// Whether an operator could stand there.
    pub(crate) fn expects_operator(&self) -> bool {
        self.expects_symbol(Symbol::Bar)
    }

    /// Whether the class is the only one that could stand there.
    pub(crate) fn expects_only(&self, class: TokenClass) -> bool {
        self.expected.len() == 1 && self.expects(class)
    }

    /// Whether a comment begins right after the token before.
    pub(crate) fn follows_comment(&self) -> bool {
        let Some(before) = self.source.tokens.get(self.place.saturating_sub(1)) else {
            return false;
        };
        let (_, after) = self
            .source
            .text
            .split_at(before.span.stop.min(self.source.text.len()));
        after.starts_with(b"--")
    }

    /// The bytes of the faulty token.
    pub(crate) fn bytes(&self) -> &'a [u8] {
        bytes_at(self.source, self.place)
    }

    /// The bytes of the token before it.
    pub(crate) fn bytes_before(&self) -> &'a [u8] {
        bytes_at(self.source, self.place.saturating_sub(1))
    }
}

// How a token changes the number of brackets that are closed and not yet opened, from the last one on.
fn closed_with(closed: usize, class: TokenClass) -> Option<usize> {
    match class {
        TokenClass::Symbol(Symbol::Close) => Some(closed.saturating_add(1)),
        TokenClass::Symbol(Symbol::Open) => closed.checked_sub(1),
        _ => Some(closed),
    }
}

/// The place of the innermost bracket that is open at a place.
pub(crate) fn open_bracket_at(tokens: &[Token], place: usize) -> Option<usize> {
    let mut closed: usize = 0;
    for at in (0..place.min(tokens.len())).rev() {
        match closed_with(closed, class_at(tokens, at)) {
            Some(now) => closed = now,
            None => return Some(at),
        }
    }
    None
}

/// The class before the innermost bracket that is open at a place. The end of the text if none is.
pub(crate) fn caller_at(tokens: &[Token], place: usize) -> TokenClass {
    match open_bracket_at(tokens, place) {
        Some(bracket) => class_before(tokens, bracket, 1),
        None => TokenClass::EndOfText,
    }
}
