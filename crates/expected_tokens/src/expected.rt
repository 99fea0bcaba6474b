// Which classes of tokens can follow.

ghost use Rattle.std.specs.Prelude.{◌≡◌, ◌↔◌, ◌++◌, IsTrue, IfOk, OnOk, MatchBool};
ghost use Rattle.std.specs.List.{Contains};
ghost use Rattle.dk_lexer.specs.Faithful.{IsEnded};
ghost use Rattle.expected_tokens.specs.declared.class.TokenClass.{TokenClass};
ghost use Rattle.expected_tokens.specs.Classes.{behind, classes};
ghost use Rattle.expected_tokens.specs.Expected.{AreOfAText, CanFollow, AreThose, Grows, tried, GoesOn, StopsBefore};

use crate::class::{TokenClass, all_classes, sample};
use crate::copied::copied;
use dk_base::{OutOfMemory, Span};
use dk_lexer::{Token, TokenKind};
use dk_parser::{ParseError, parse};
use std::alloc::{AllocError, Global};

// The span of the token that is tried. No token of a text has it.
const TRIED: Span = Span { start: 1, stop: 0 };

// The span of the end after it.
const BEHIND: Span = Span { start: 2, stop: 0 };

// Whether the tokens before the last one begin a program, or the last one is tried and all are a program.
fn goes_on(alloc: Global, tokens: &[Token]) -> Result<bool, OutOfMemory>
    requires { IsEnded tokens.now }
    ensures { IfOk result (λ b. MatchBool b (GoesOn tokens.now) (StopsBefore tokens.now)) }
{
    match parse(alloc, tokens) {
        Ok(_) => Ok(true),
        Err(ParseError::Depth { .. }) => Ok(true),
        Err(ParseError::Nest { .. }) => Ok(false),
        Err(ParseError::Syntax { span }) => {
            if span == BEHIND {
                return Ok(true);
            }
            Ok(false)
        }
        Err(ParseError::OutOfMemory) => Err(AllocError),
    }
}

// Adds the end of the text after the token of a class, if that is not the end itself.
fn push_end(tokens: &mut Vec<Token>, class: TokenClass) -> Result<(), OutOfMemory>
    ensures { OnOk result (tokens.new.items ≡ tokens.old.items ++ behind class) }
{
    if let TokenClass::EndOfText = class {
        return Ok(());
    }
    tokens.push(Token {
        span: BEHIND,
        kind: TokenKind::End,
    })?;
    Ok(())
}

// Adds the token that is tried, and the end after it.
fn push_tried(alloc: Global, tokens: &mut Vec<Token>, class: TokenClass) -> Result<(), OutOfMemory>
    ensures { OnOk result (tokens.new.items ≡ tried tokens.old.items class) }
{
    let kind = sample(alloc, class)?;
    tokens.push(Token { span: TRIED, kind })?;
    push_end(tokens, class)?;
    Ok(())
}

// Whether a class can follow the tokens.
fn can_follow(
    alloc: Global,
    tokens: &mut Vec<Token>,
    class: TokenClass,
) -> Result<bool, OutOfMemory>
    requires { AreOfAText tokens.old.items }
    ensures same { OnOk result (tokens.new.items ≡ tokens.old.items) }
    ensures can { IfOk result (λ b. IsTrue b ↔ CanFollow tokens.old.items class) }
{
    let count = tokens.len();
    push_tried(alloc, tokens, class)?;
    let can = goes_on(alloc, tokens)?;
    tokens.truncate(count);
    Ok(can)
}

// Adds a class, if it can follow the tokens.
fn add_class(
    alloc: Global,
    tokens: &mut Vec<Token>,
    found: &mut Vec<TokenClass>,
    class: TokenClass,
) -> Result<(), OutOfMemory>
    requires { AreOfAText tokens.old.items }
    ensures same { OnOk result (tokens.new.items ≡ tokens.old.items) }
    ensures grows { OnOk result (Grows (CanFollow tokens.old.items) class found.old.items found.new.items) }
{
    if can_follow(alloc, tokens, class)? {
        found.push(class)?;
    }
    Ok(())
}

// Those of some classes that can follow the tokens.
fn those_of(
    alloc: Global,
    tokens: &mut Vec<Token>,
    classes: &[TokenClass],
) -> Result<Vec<TokenClass>, OutOfMemory>
    requires { AreOfAText tokens.old.items }
    ensures { IfOk result (λ found. AreThose (CanFollow tokens.old.items) classes.now found.items) }
{
    let mut found = Vec::new(alloc);
    for class in classes {
        add_class(alloc, tokens, &mut found, *class)?;
    }
    Ok(found)
}

/// The classes of tokens that can follow these tokens of a text, before its end. They are in the order of the table of classes.
pub fn expected_tokens(alloc: Global, before: &[Token]) -> Result<Vec<TokenClass>, OutOfMemory>
    requires { AreOfAText before.now }
    ensures those { IfOk result (λ found. AreThose (CanFollow before.now) classes found.items) }
    ensures exact { IfOk result (λ found. (c : TokenClass) → Contains found.items c ↔ CanFollow before.now c) }
{
    let mut tokens = copied(alloc, before)?;
    let all = all_classes(alloc)?;
    let found = those_of(alloc, &mut tokens, &all)?;
    Ok(found)
}
