// Single tokens.

ghost use Rattle.std.specs.Prelude.{◌≡◌, ◌<◌, None, IfOk, length};
ghost use Rattle.dk_grammar.specs.Reading.{One};
ghost use Rattle.dk_parser.specs.Grown.{ReadsPhrase};
ghost use Rattle.dk_parser.specs.Marks.{mark_terminal};
ghost use Rattle.dk_parser.specs.Reads.{Turns};
ghost use Rattle.dk_parser.specs.Words.{AName, ALiteral, AType, Sign, literal_at as literal_at_of, type_at as type_at_of, spelling, sign_of};

use crate::classes;
use crate::halt::Halt;
use crate::terminal::{Mark, Terminal};
use crate::tree::{Literal, Name, TypeWord};
use dk_base::{Span, Text};
use dk_lexer::{Symbol, Token, TokenKind};
use std::alloc::{AllocError, Global};

// A mark where a signed number may come before it, or the sign of that number.
#[derive(Clone, Copy, Drop)]
pub(crate) enum Turn {
    Mark(Span),
    // Whether the sign is a minus.
    Signed(bool),
}

// The span of this mark.
pub(crate) fn mark<'a>(mark: Mark, tokens: &'a [Token]) -> Result<(Span, &'a [Token]), Halt<'a>>
    ensures parsed { ReadsPhrase (Sign mark) tokens.now result }
    ensures fewer { IfOk result (λ x. length x.1.now < length tokens.now) }
{
    let Some((first, kind, after)) = classes::front(tokens) else {
        return Err(Halt::Faulty(tokens));
    };
    if kind == mark.terminal() {
        Ok((first.span, after))
    } else {
        Err(Halt::Faulty(tokens))
    }
}

fn literal_at(kind: Terminal, span: Span) -> Option<Literal>
    ensures { result ≡ literal_at_of kind span }
{
    match kind {
        Terminal::Number(value) => Some(Literal { span, value }),
        _ => None,
    }
}

// A number.
pub(crate) fn literal(tokens: &[Token]) -> Result<(Literal, &[Token]), Halt>
    ensures parsed { ReadsPhrase ALiteral tokens.now result }
    ensures fewer { IfOk result (λ x. length x.1.now < length tokens.now) }
{
    let Some((first, kind, after)) = classes::front(tokens) else {
        return Err(Halt::Faulty(tokens));
    };
    match literal_at(kind, first.span) {
        Some(found) => Ok((found, after)),
        None => Err(Halt::Faulty(tokens)),
    }
}

fn type_at(kind: Terminal, span: Span) -> Option<TypeWord>
    ensures { result ≡ type_at_of kind span }
{
    match kind {
        Terminal::TypeWord(ty) => Some(TypeWord { span, ty }),
        _ => None,
    }
}

// A type word.
pub(crate) fn type_word(tokens: &[Token]) -> Result<(TypeWord, &[Token]), Halt>
    ensures parsed { ReadsPhrase AType tokens.now result }
    ensures fewer { IfOk result (λ x. length x.1.now < length tokens.now) }
{
    let Some((first, kind, after)) = classes::front(tokens) else {
        return Err(Halt::Faulty(tokens));
    };
    match type_at(kind, first.span) {
        Some(found) => Ok((found, after)),
        None => Err(Halt::Faulty(tokens)),
    }
}

// A copy of the bytes of a word.
fn copied(alloc: Global, kind: &TokenKind) -> Result<Text, AllocError>
    ensures { IfOk result (λ t. t ≡ spelling kind.now) }
{
    match kind {
        TokenKind::Word(text) => Ok(Text::new(Vec::from_slice(alloc, text.as_bytes())?)),
        _ => Ok(Text::new(Vec::new(alloc))),
    }
}

// A name.
pub(crate) fn name<'a>(alloc: Global, tokens: &'a [Token]) -> Result<(Name, &'a [Token]), Halt<'a>>
    ensures parsed { ReadsPhrase AName tokens.now result }
    ensures fewer { IfOk result (λ x. length x.1.now < length tokens.now) }
{
    let Some((first, kind, after)) = classes::front(tokens) else {
        return Err(Halt::Faulty(tokens));
    };
    let Terminal::Name = kind else {
        return Err(Halt::Faulty(tokens));
    };
    let text = copied(alloc, &first.kind)?;
    Ok((
        Name {
            span: first.span,
            text,
        },
        after,
    ))
}

fn sign(terminal: Terminal) -> Option<bool>
    ensures { result ≡ sign_of terminal }
{
    match terminal {
        Terminal::Symbol(Symbol::Plus) => Some(false),
        Terminal::Symbol(Symbol::Minus) => Some(true),
        _ => None,
    }
}

// A mark, or the sign of a number before it.
pub(crate) fn sign_or<'a>(mark: Mark, tokens: &'a [Token]) -> Result<(Turn, &'a [Token]), Halt<'a>>
    requires { sign_of (mark_terminal mark) ≡ None }
    ensures parsed { ReadsPhrase (One (Turns mark)) tokens.now result }
    ensures fewer { IfOk result (λ x. length x.1.now < length tokens.now) }
{
    let Some((first, kind, after)) = classes::front(tokens) else {
        return Err(Halt::Faulty(tokens));
    };
    if kind == mark.terminal() {
        return Ok((Turn::Mark(first.span), after));
    }
    match sign(kind) {
        Some(negative) => Ok((Turn::Signed(negative), after)),
        None => Err(Halt::Faulty(tokens)),
    }
}
