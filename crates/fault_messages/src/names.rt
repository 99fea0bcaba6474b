// Where names are declared.

use dk_base::Span;
use dk_lexer::Token;
use expected_tokens::TokenClass;
use source_words::Keyword;
use syntax_messages::{Source, class_before, is_word, token_at};

/// What a name without an image is the name of.
#[derive(Clone, Copy)]
pub(crate) enum Unknown {
    /// Of the definition that reads it.
    Itself,
    /// Of a definition that comes later, which declares it here.
    Later(Span),
    Nothing,
}

// Whether the token at a place is the name of an input or a definition.
fn is_declared(tokens: &[Token], place: usize) -> bool {
    matches!(
        class_before(tokens, place, 1),
        TokenClass::Keyword(Keyword::Input | Keyword::Let)
    )
}

// Whether the token at a place is the name of an output.
fn is_output(tokens: &[Token], place: usize) -> bool {
    matches!(
        class_before(tokens, place, 1),
        TokenClass::Keyword(Keyword::Output)
    )
}

/// The first declaration of a name before a place, as an input or a definition.
pub(crate) fn declaration(tokens: &[Token], name: &[u8], before: usize) -> Option<Span> {
    for (place, token) in tokens.iter().enumerate() {
        if before <= token.span.start {
            return None;
        }
        if is_word(token, name) && is_declared(tokens, place) {
            return Some(token.span);
        }
    }
    None
}

/// The first output with a name before a place.
pub(crate) fn output(tokens: &[Token], name: &[u8], before: usize) -> Option<Span> {
    for (place, token) in tokens.iter().enumerate() {
        if before <= token.span.start {
            return None;
        }
        if is_word(token, name) && is_output(tokens, place) {
            return Some(token.span);
        }
    }
    None
}

// The declaration of a name after a place.
fn later_declaration(tokens: &[Token], name: &[u8], after: usize) -> Option<Span> {
    for (place, token) in tokens.iter().enumerate() {
        if after < token.span.start && is_word(token, name) && is_declared(tokens, place) {
            return Some(token.span);
        }
    }
    None
}

// Whether the token at a place is the name of a definition.
fn is_defined(tokens: &[Token], place: usize) -> bool {
    matches!(
        class_before(tokens, place, 1),
        TokenClass::Keyword(Keyword::Let)
    )
}

// Whether the last definition that begins before a place has this name.
fn is_own(tokens: &[Token], name: &[u8], before: usize) -> bool {
    for place in (0..before.min(tokens.len())).rev() {
        if is_defined(tokens, place) {
            return is_word(&tokens[place], name);
        }
    }
    false
}

/// What the name at a span is the name of, where it is no image that may be read.
pub(crate) fn meaning_of(source: &Source<'_>, name: &[u8], span: Span) -> Unknown {
    if is_own(source.tokens, name, token_at(source.tokens, span)) {
        return Unknown::Itself;
    }
    match later_declaration(source.tokens, name, span.start) {
        Some(at) => Unknown::Later(at),
        None => Unknown::Nothing,
    }
}
