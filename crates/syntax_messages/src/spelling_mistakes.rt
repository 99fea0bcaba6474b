// Mistakes of spelling.

use crate::around::{Around, is_text, touches};
use crate::helps::is_among;
use crate::mistake::Mistake;
use dk_lexer::Symbol;
use expected_tokens::TokenClass;
use source_words::{Keyword, find_keyword};
use std::alloc::Global;

// Types of fractions in other languages.
const FRACTIONS: &str = "float double half real fixed";

// Whether the faulty token is this symbol right after that one.
fn is_pair(a: &Around<'_>, before: Symbol, symbol: Symbol) -> bool {
    match (a.first, a.found) {
        (TokenClass::Symbol(first), TokenClass::Symbol(found)) => {
            first == before && found == symbol && touches(a.source.tokens, a.place)
        }
        _ => false,
    }
}

// Whether the faulty token is this symbol right before that one.
fn is_pair_after(a: &Around<'_>, symbol: Symbol, after: Symbol) -> bool {
    match (a.found, a.next) {
        (TokenClass::Symbol(found), TokenClass::Symbol(next)) => {
            found == symbol && next == after && touches(a.source.tokens, a.place.saturating_add(1))
        }
        _ => false,
    }
}

// Whether a comment of another language begins at or before the faulty token.
fn is_comment(a: &Around<'_>) -> bool {
    is_pair(a, Symbol::Slash, Symbol::Slash)
        || is_pair(a, Symbol::Slash, Symbol::Star)
        || is_pair_after(a, Symbol::Slash, Symbol::Slash)
        || is_pair_after(a, Symbol::Slash, Symbol::Star)
}

// Symbols that other languages write with two characters.
fn doubled(a: &Around<'_>) -> Option<Mistake> {
    if is_comment(a) {
        Some(Mistake::COMMENT)
    } else if is_pair(a, Symbol::Ampersand, Symbol::Ampersand) {
        Some(Mistake::DOUBLED_AND)
    } else if is_pair(a, Symbol::Bar, Symbol::Bar) {
        Some(Mistake::DOUBLED_OR)
    } else if is_pair(a, Symbol::Star, Symbol::Star) {
        Some(Mistake::POWER)
    } else if a.expects_operator() && matches!(a.found, TokenClass::Symbol(Symbol::Equal)) {
        Some(Mistake::ASSIGNMENT)
    } else {
        None
    }
}

// The first byte of bytes.
fn first_byte(bytes: &[u8]) -> Option<u8> {
    match bytes.split_first() {
        Some((first, _)) => Some(*first),
        None => None,
    }
}

// Whether a word right after a 0 makes it a number of another base.
fn is_base(word: &[u8]) -> bool {
    match first_byte(word) {
        Some(b'x' | b'X' | b'b' | b'B' | b'o' | b'O') => true,
        _ => false,
    }
}

// Whether a token of the class begins with a letter.
fn is_letters(class: TokenClass) -> bool {
    matches!(
        class,
        TokenClass::Name | TokenClass::Type | TokenClass::Keyword(_)
    )
}

// A word right after a number.
fn number_word(a: &Around<'_>) -> Option<Mistake> {
    if a.first != TokenClass::Number || !is_letters(a.found) || !touches(a.source.tokens, a.place) {
        return None;
    }
    if is_text(a.bytes_before(), b"0") && is_base(a.bytes()) {
        return Some(Mistake::Radix);
    }
    Some(Mistake::NUMBER_THEN_WORD)
}

// The reserved word that a word is in lower case.
fn lowered(alloc: Global, word: &[u8]) -> Option<Keyword> {
    let mut lower = Vec::new(alloc);
    for byte in word {
        if lower.push(byte.to_ascii_lowercase()).is_err() {
            return None;
        }
    }
    find_keyword(&lower)
}

// A reserved word with upper-case letters.
fn upper_case(alloc: Global, a: &Around<'_>) -> Option<Mistake> {
    if a.found != TokenClass::Name {
        return None;
    }
    let keyword = lowered(alloc, a.bytes())?;
    if a.expects_keyword(keyword) {
        Some(Mistake::UpperCase(keyword))
    } else {
        None
    }
}

// What is no type, where a type must be.
fn type_word(a: &Around<'_>) -> Option<Mistake> {
    if !a.expects_only(TokenClass::Type) {
        None
    } else if is_among(FRACTIONS, a.bytes()) {
        Some(Mistake::FRACTIONS)
    } else {
        Some(Mistake::NoType)
    }
}

/// The mistake of spelling that the tokens show.
pub(crate) fn spelling_mistake(alloc: Global, a: &Around<'_>) -> Option<Mistake> {
    if a.follows_comment() {
        return Some(Mistake::Hidden);
    }
    if let Some(mistake) = doubled(a) {
        return Some(mistake);
    }
    if let Some(mistake) = upper_case(alloc, a) {
        return Some(mistake);
    }
    if let Some(mistake) = type_word(a) {
        return Some(mistake);
    }
    number_word(a)
}
