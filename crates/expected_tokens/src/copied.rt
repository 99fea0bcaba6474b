// Copies of tokens.

ghost use Rattle.std.specs.Prelude.{◌≡◌, IfOk};

use crate::class;
use dk_base::OutOfMemory;
use dk_lexer::{Token, TokenKind};
use std::alloc::Global;

fn kind_copied(alloc: Global, kind: &TokenKind) -> Result<TokenKind, OutOfMemory>
    ensures { IfOk result (λ copy. copy ≡ kind.now) }
{
    let copy = match kind {
        TokenKind::Word(text) => class::word(alloc, text.as_bytes())?,
        TokenKind::Number(value) => TokenKind::Number(*value),
        TokenKind::Symbol(symbol) => TokenKind::Symbol(*symbol),
        TokenKind::End => TokenKind::End,
    };
    Ok(copy)
}

fn token_copied(alloc: Global, token: &Token) -> Result<Token, OutOfMemory>
    ensures { IfOk result (λ copy. copy ≡ token.now) }
{
    let kind = kind_copied(alloc, &token.kind)?;
    Ok(Token {
        span: token.span,
        kind,
    })
}

pub(crate) fn copied(alloc: Global, tokens: &[Token]) -> Result<Vec<Token>, OutOfMemory>
    ensures { IfOk result (λ copy. copy.items ≡ tokens.now) }
{
    let mut copy = Vec::new(alloc);
    for token in tokens {
        let next = token_copied(alloc, token)?;
        copy.push(next)?;
    }
    Ok(copy)
}
