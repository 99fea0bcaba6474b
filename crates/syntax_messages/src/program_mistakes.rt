// Mistakes of inputs, definitions and outputs.

use crate::around::Around;
use crate::mistake::Mistake;
use dk_lexer::Symbol;
use expected_tokens::TokenClass;
use source_words::Keyword;

const SIZE: TokenClass = TokenClass::Keyword(Keyword::Size);

// Whether a definition or an output begins with the class, or the text ends.
fn begins_item(class: TokenClass) -> bool {
    match class {
        TokenClass::EndOfText => true,
        TokenClass::Keyword(Keyword::Let | Keyword::Inline) => true,
        TokenClass::Keyword(Keyword::Input | Keyword::Output) => true,
        _ => false,
    }
}

// A body that does not end.
fn end_mistake(a: &Around<'_>) -> Option<Mistake> {
    if !a.expects_operator() {
        return None;
    }
    if a.expects_symbol(Symbol::Close) && (begins_item(a.found) || is_end(a.found)) {
        return Some(Mistake::Unclosed);
    }
    if a.expects_keyword(Keyword::End) && begins_item(a.found) {
        return Some(Mistake::NoEnd);
    }
    None
}

fn is_end(class: TokenClass) -> bool {
    matches!(class, TokenClass::Keyword(Keyword::End))
}

/// The mistake at the front of a text that has none of its tokens, or only its size.
pub(crate) fn front_mistake(a: &Around<'_>) -> Option<Mistake> {
    if a.expects_only(SIZE) {
        return match a.found {
            TokenClass::EndOfText => Some(Mistake::EMPTY),
            _ => None,
        };
    }
    if a.second == SIZE || a.first == SIZE {
        return Some(Mistake::SIZE_SIDES);
    }
    None
}

// What stands in place of a name.
fn name_mistake(a: &Around<'_>) -> Option<Mistake> {
    match (a.first, a.found) {
        (TokenClass::Keyword(Keyword::Input), TokenClass::Type) => Some(Mistake::TYPE_FIRST),
        (_, TokenClass::Type) => Some(Mistake::TYPE_NAME),
        (_, TokenClass::Keyword(_)) => Some(Mistake::RESERVED_NAME),
        _ => None,
    }
}

// What stands after a name.
fn named_mistake(a: &Around<'_>) -> Option<Mistake> {
    match (a.second, a.found) {
        (TokenClass::Keyword(Keyword::Let), TokenClass::Symbol(Symbol::Open)) => {
            Some(Mistake::FUNCTION_FORM)
        }
        (TokenClass::Keyword(Keyword::Input), TokenClass::Type) => Some(Mistake::NO_COLON),
        (TokenClass::Keyword(Keyword::Output), TokenClass::Symbol(Symbol::Open)) => {
            Some(Mistake::OUTPUT_READ)
        }
        (TokenClass::Keyword(Keyword::Input), TokenClass::Symbol(Symbol::Comma)) => {
            Some(Mistake::INPUT_LIST)
        }
        (TokenClass::Keyword(Keyword::Output), TokenClass::Symbol(Symbol::Comma)) => {
            Some(Mistake::OUTPUT_LIST)
        }
        _ => None,
    }
}

// A word that begins no item, where a definition could begin.
fn word_mistake(a: &Around<'_>) -> Mistake {
    match a.next {
        TokenClass::Symbol(Symbol::Equal | Symbol::Colon) => Mistake::NO_LET,
        _ => Mistake::OTHER_ITEM,
    }
}

// What stands where an input, a definition or an output could begin.
fn item_mistake(a: &Around<'_>) -> Option<Mistake> {
    match a.found {
        TokenClass::EndOfText => Some(Mistake::NO_OUTPUT),
        TokenClass::Keyword(Keyword::Let | Keyword::Inline) => Some(Mistake::LATE_DEFINITION),
        TokenClass::Keyword(Keyword::Input) => Some(Mistake::LATE_INPUT),
        TokenClass::Keyword(Keyword::End) => Some(Mistake::EXTRA_END),
        TokenClass::Name if a.expects_keyword(Keyword::Let) => Some(word_mistake(a)),
        _ => None,
    }
}

/// The mistake of the items of a program, after its front.
pub(crate) fn program_mistake(a: &Around<'_>) -> Option<Mistake> {
    if a.expects_only(SIZE) {
        return Some(Mistake::NO_SIZE);
    }
    if let Some(mistake) = end_mistake(a) {
        return Some(mistake);
    }
    if let Some(mistake) = named_mistake(a) {
        return Some(mistake);
    }
    if a.expects_only(TokenClass::Name) {
        name_mistake(a)
    } else if a.expects_only(TokenClass::Keyword(Keyword::Im)) {
        Some(Mistake::NO_IM)
    } else if a.expects_only(TokenClass::Keyword(Keyword::Let)) {
        Some(Mistake::NO_LET)
    } else if a.expects_only(TokenClass::Keyword(Keyword::Input)) {
        Some(Mistake::NO_INPUT)
    } else if a.expects_keyword(Keyword::Output) {
        item_mistake(a)
    } else {
        None
    }
}
