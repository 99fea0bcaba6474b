// Mistakes of reads and other expressions.

use crate::around::{Around, caller_at, is_text};
use crate::classes::{begins_operand, is_comparison, is_operator};
use crate::helps::{too_few_help, too_many_help};
use crate::mistake::Mistake;
use dk_lexer::Symbol;
use expected_tokens::TokenClass;
use source_words::Keyword;

// The token in place of a coordinate.
fn coordinate(a: &Around<'_>) -> Option<Mistake> {
    match (a.found, a.next) {
        (TokenClass::Number, TokenClass::Symbol(Symbol::Star)) => Some(Mistake::SCALED),
        (TokenClass::Number, TokenClass::Name | TokenClass::Keyword(_)) => Some(Mistake::SCALED),
        (TokenClass::Number | TokenClass::Symbol(Symbol::Minus | Symbol::Plus), _) => {
            Some(Mistake::OFFSET_FIRST)
        }
        (TokenClass::Keyword(Keyword::X | Keyword::Y), _) => Some(Mistake::SWAPPED),
        (TokenClass::Symbol(Symbol::Close), _) => Some(Mistake::ONE_COORDINATE),
        (TokenClass::Name, _) => Some(Mistake::OTHER_COORDINATE),
        _ => None,
    }
}

// The token after a coordinate or its offset.
fn after_coordinate(a: &Around<'_>) -> Option<Mistake> {
    match a.found {
        TokenClass::Symbol(Symbol::Star | Symbol::Slash) => Some(Mistake::SCALED),
        TokenClass::Symbol(Symbol::ShiftLeft | Symbol::ShiftRight) => Some(Mistake::SCALED),
        TokenClass::Symbol(Symbol::Plus | Symbol::Minus) => Some(Mistake::TWO_OFFSETS),
        TokenClass::Symbol(Symbol::Close) => Some(Mistake::ONE_COORDINATE),
        TokenClass::Symbol(Symbol::Comma) => Some(Mistake::THIRD_COORDINATE),
        TokenClass::Keyword(_) if a.expects_symbol(Symbol::Close) => Some(Mistake::Unclosed),
        _ => None,
    }
}

// The token in place of the number of an offset.
fn offset(a: &Around<'_>) -> Option<Mistake> {
    match a.found {
        TokenClass::Name | TokenClass::Symbol(Symbol::Open) => Some(Mistake::NAMED_OFFSET),
        TokenClass::Symbol(Symbol::Plus | Symbol::Minus) => Some(Mistake::TWO_OFFSETS),
        _ => None,
    }
}

fn is_coordinate(class: TokenClass) -> bool {
    matches!(class, TokenClass::Keyword(Keyword::X | Keyword::Y))
}

fn is_sign(class: TokenClass) -> bool {
    matches!(class, TokenClass::Symbol(Symbol::Plus | Symbol::Minus))
}

// Whether the faulty token follows a coordinate, or its offset.
fn follows_coordinate(a: &Around<'_>) -> bool {
    is_coordinate(a.first) || (matches!(a.first, TokenClass::Number) && is_sign(a.second))
}

// Whether only a coordinate could stand there.
fn expects_coordinate(a: &Around<'_>) -> bool {
    a.expects_only(TokenClass::Keyword(Keyword::X))
        || a.expects_only(TokenClass::Keyword(Keyword::Y))
}

/// The mistake of a read, or of the coordinates after `im`.
pub(crate) fn read_mistake(a: &Around<'_>) -> Option<Mistake> {
    let caller = caller_at(a.source.tokens, a.place);
    if matches!(caller, TokenClass::Keyword(Keyword::Im)) {
        return Some(Mistake::IM_COORDINATES);
    }
    if !matches!(caller, TokenClass::Name) {
        return None;
    }
    if expects_coordinate(a) {
        coordinate(a)
    } else if is_coordinate(a.second) && a.expects_only(TokenClass::Number) {
        offset(a)
    } else if follows_coordinate(a) && !a.expects_operator() {
        after_coordinate(a)
    } else {
        None
    }
}

// The token after the number of a division or a shift, or in its place.
fn number_mistake(a: &Around<'_>) -> Option<Mistake> {
    match (a.second, a.first) {
        (
            TokenClass::Symbol(Symbol::Slash | Symbol::ShiftLeft | Symbol::ShiftRight),
            TokenClass::Number,
        ) if is_operator(a.found) && !is_comparison(a.found) => { Some(Mistake::AFTER_NUMBER) }
        (_, TokenClass::Symbol(Symbol::Slash)) => Some(Mistake::DIVISOR),
        (_, TokenClass::Symbol(Symbol::ShiftLeft | Symbol::ShiftRight)) => Some(Mistake::SHIFT),
        _ => None,
    }
}

// The function around the faulty token, if that is one of its commas or brackets.
fn operands_mistake(a: &Around<'_>) -> Option<Mistake> {
    let TokenClass::Keyword(function) = caller_at(a.source.tokens, a.place) else {
        return None;
    };
    match a.found {
        TokenClass::Symbol(Symbol::Comma) if a.expects_symbol(Symbol::Close) => {
            Some(Mistake::Help(too_many_help(function)))
        }
        TokenClass::Symbol(Symbol::Close) if a.expects_symbol(Symbol::Comma) => {
            Some(Mistake::Help(too_few_help(function)))
        }
        TokenClass::Symbol(Symbol::Close) if a.expects_operand() => {
            Some(Mistake::Help(too_few_help(function)))
        }
        _ => None,
    }
}

// What stands where an operand begins.
fn operand_mistake(a: &Around<'_>) -> Option<Mistake> {
    match a.found {
        TokenClass::Keyword(Keyword::X | Keyword::Y) => Some(Mistake::COORDINATE),
        TokenClass::Symbol(Symbol::Minus | Symbol::Bang) => Some(Mistake::TWO_SIGNS),
        TokenClass::Symbol(Symbol::Plus) => Some(Mistake::PLUS_SIGN),
        _ => None,
    }
}

// What stands where an operator could stand.
fn operator_mistake(a: &Around<'_>) -> Option<Mistake> {
    if is_comparison(a.found) {
        return Some(Mistake::CHAIN);
    }
    match a.found {
        TokenClass::Keyword(Keyword::Edge) => Some(Mistake::EDGE_AFTER_OTHER),
        TokenClass::Keyword(Keyword::Clamp) => Some(Mistake::OTHER_EDGE),
        TokenClass::Symbol(Symbol::Close) => Some(Mistake::UNOPENED),
        found if begins_operand(found) => Some(Mistake::NO_OPERATOR),
        _ => None,
    }
}

/// The mistake of an expression.
pub(crate) fn expression_mistake(a: &Around<'_>) -> Option<Mistake> {
    if let Some(mistake) = number_mistake(a) {
        return Some(mistake);
    }
    if let Some(mistake) = operands_mistake(a) {
        return Some(mistake);
    }
    if a.expects_only(TokenClass::Keyword(Keyword::Clamp)) {
        Some(Mistake::OTHER_EDGE)
    } else if a.expects_operand() {
        operand_mistake(a)
    } else if a.expects_operator() {
        operator_mistake(a)
    } else if a.expects_only(TokenClass::Symbol(Symbol::Open))
        && matches!(a.first, TokenClass::Name)
    {
        Some(if is_text(a.bytes_before(), b"if") {
            Mistake::CONDITION
        } else {
            Mistake::NO_READ
        })
    } else {
        None
    }
}
