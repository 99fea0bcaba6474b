// Classes of tokens, and their names in sentences.

use dk_lexer::Symbol;
use expected_tokens::TokenClass;
use source_words::Keyword;

/// The spelling of a symbol.
pub(crate) fn symbol_text(symbol: Symbol) -> &'static str {
    match symbol {
        Symbol::ShiftLeft => "<<",
        Symbol::LessEqual => "<=",
        Symbol::ShiftRight => ">>",
        Symbol::GreaterEqual => ">=",
        Symbol::EqualEqual => "==",
        Symbol::NotEqual => "!=",
        Symbol::Less => "<",
        Symbol::Greater => ">",
        Symbol::Equal => "=",
        Symbol::Bang => "!",
        Symbol::Bar => "|",
        Symbol::Caret => "^",
        Symbol::Ampersand => "&",
        Symbol::Plus => "+",
        Symbol::Minus => "-",
        Symbol::Star => "*",
        Symbol::Slash => "/",
        Symbol::Open => "(",
        Symbol::Close => ")",
        Symbol::Comma => ",",
        Symbol::Colon => ":",
    }
}

/// Whether the class is a comparison.
pub(crate) fn is_comparison(class: TokenClass) -> bool {
    let TokenClass::Symbol(symbol) = class else {
        return false;
    };
    matches!(
        symbol,
        Symbol::Less
            | Symbol::LessEqual
            | Symbol::Greater
            | Symbol::GreaterEqual
            | Symbol::EqualEqual
            | Symbol::NotEqual
    )
}

// Whether the class is an operator on numbers after an operand.
fn is_arithmetic(class: TokenClass) -> bool {
    let TokenClass::Symbol(symbol) = class else {
        return false;
    };
    matches!(
        symbol,
        Symbol::Plus
            | Symbol::Minus
            | Symbol::Star
            | Symbol::Slash
            | Symbol::ShiftLeft
            | Symbol::ShiftRight
            | Symbol::Ampersand
            | Symbol::Caret
            | Symbol::Bar
    )
}

/// Whether the class is an operator after an operand.
pub(crate) fn is_operator(class: TokenClass) -> bool {
    is_arithmetic(class) || is_comparison(class) || class == TokenClass::Keyword(Keyword::As)
}

/// Whether an operand begins with the class, and no other use of it is there where an operand may begin.
pub(crate) fn begins_operand(class: TokenClass) -> bool {
    match class {
        TokenClass::Name | TokenClass::Number => true,
        TokenClass::Symbol(symbol) => {
            symbol == Symbol::Open || symbol == Symbol::Minus || symbol == Symbol::Bang
        }
        TokenClass::Keyword(keyword) => keyword.is_function(),
        TokenClass::Type | TokenClass::EndOfText => false,
    }
}
