// Classes of tokens, and a token of each.

ghost use Rattle.std.specs.Prelude.{◌≡◌, ◌++◌, map, IfOk, OnOk};
ghost use Rattle.std.specs.List.{Contains};
ghost use Rattle.expected_tokens.specs.declared.class.TokenClass.{TokenClass};
ghost use Rattle.dk_parser.specs.Terminals.{terminal_of};
ghost use Rattle.expected_tokens.specs.Classes.{class_of, sample_kind, classes};

use dk_base::{OutOfMemory, Text};
use dk_lexer::{Symbol, TokenKind};
use dk_parser::Terminal;
use source_words::{KEYWORDS, Keyword};
use std::alloc::Global;

/// What the grammar sees of a token, up to the value of a number, the spelling of a name and which type a type word names.
#[derive(Clone, Copy, PartialEq, Eq)]
pub enum TokenClass {
    Keyword(Keyword),
    Type,
    Name,
    Number,
    Symbol(Symbol),
    EndOfText,
}

// The classes that are no keywords: a type, a name, a number, symbols, the end of the text.
const OTHERS: [TokenClass; 25] = [
    TokenClass::Type,
    TokenClass::Name,
    TokenClass::Number,
    TokenClass::Symbol(Symbol::Open),
    TokenClass::Symbol(Symbol::Close),
    TokenClass::Symbol(Symbol::Comma),
    TokenClass::Symbol(Symbol::Colon),
    TokenClass::Symbol(Symbol::Equal),
    TokenClass::Symbol(Symbol::Plus),
    TokenClass::Symbol(Symbol::Minus),
    TokenClass::Symbol(Symbol::Star),
    TokenClass::Symbol(Symbol::Slash),
    TokenClass::Symbol(Symbol::ShiftLeft),
    TokenClass::Symbol(Symbol::ShiftRight),
    TokenClass::Symbol(Symbol::Less),
    TokenClass::Symbol(Symbol::LessEqual),
    TokenClass::Symbol(Symbol::Greater),
    TokenClass::Symbol(Symbol::GreaterEqual),
    TokenClass::Symbol(Symbol::EqualEqual),
    TokenClass::Symbol(Symbol::NotEqual),
    TokenClass::Symbol(Symbol::Ampersand),
    TokenClass::Symbol(Symbol::Caret),
    TokenClass::Symbol(Symbol::Bar),
    TokenClass::Symbol(Symbol::Bang),
    TokenClass::EndOfText,
];

// Adds the classes of keywords.
fn push_keywords(to: &mut Vec<TokenClass>, keywords: &[Keyword]) -> Result<(), OutOfMemory>
    ensures { OnOk result (to.new.items ≡ to.old.items ++ map TokenClass.Keyword keywords.now) }
{
    for keyword in keywords {
        to.push(TokenClass::Keyword(*keyword))?;
    }
    Ok(())
}

// Adds these classes.
fn push_classes(to: &mut Vec<TokenClass>, classes: &[TokenClass]) -> Result<(), OutOfMemory>
    ensures { OnOk result (to.new.items ≡ to.old.items ++ classes.now) }
{
    to.extend_from_slice(classes)?;
    Ok(())
}

// All classes: keywords, and then the others.
pub(crate) fn all_classes(alloc: Global) -> Result<Vec<TokenClass>, OutOfMemory>
    ensures { IfOk result (λ all. all.items ≡ classes) }
{
    let mut all = Vec::new(alloc);
    push_keywords(&mut all, &KEYWORDS)?;
    push_classes(&mut all, &OTHERS)?;
    Ok(all)
}

impl TokenClass {
    /// The class of what the grammar sees of a token.
    pub fn of(terminal: Terminal) -> TokenClass
        ensures { result ≡ class_of terminal }
    {
        match terminal {
            Terminal::Keyword(keyword) => TokenClass::Keyword(keyword),
            Terminal::TypeWord(_) => TokenClass::Type,
            Terminal::Name => TokenClass::Name,
            Terminal::Number(_) => TokenClass::Number,
            Terminal::Symbol(symbol) => TokenClass::Symbol(symbol),
            Terminal::EndOfText => TokenClass::EndOfText,
        }
    }
}

// A word with these bytes.
pub(crate) fn word(alloc: Global, bytes: &[u8]) -> Result<TokenKind, OutOfMemory>
    ensures { IfOk result (λ kind. kind ≡ TokenKind.Word bytes.now) }
{
    let text = Text::new(Vec::from_slice(alloc, bytes)?);
    Ok(TokenKind::Word(text))
}

// The token with which a class is tried.
pub(crate) fn sample(alloc: Global, class: TokenClass) -> Result<TokenKind, OutOfMemory>
    ensures { IfOk result (λ kind. kind ≡ sample_kind class) }
{
    let kind = match class {
        TokenClass::Keyword(keyword) => word(alloc, keyword.spelling().as_bytes())?,
        TokenClass::Type => word(alloc, b"u8")?,
        TokenClass::Name => word(alloc, b"a")?,
        TokenClass::Number => TokenKind::Number(1),
        TokenClass::Symbol(symbol) => TokenKind::Symbol(symbol),
        TokenClass::EndOfText => TokenKind::End,
    };
    Ok(kind)
}

/// The token with which a class is tried is of the class. The table of classes has each class.
pub fn samples_law()
    ensures samples { (c : TokenClass) → class_of (terminal_of (sample_kind c)) ≡ c }
    ensures all { (c : TokenClass) → Contains classes c }
{}
