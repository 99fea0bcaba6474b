// The tokens of a text.

ghost use Rattle.std.specs.Prelude.{◌≡◌, ◌⊎◌, ◌++◌, ◌∷◌, [], ℕ, List, IfOk, IfErr, MatchResult};
ghost use Rattle.std.specs.Result.{IsErrAnd};
ghost use Rattle.dk_lexer.specs.declared.token.Token.{Token};
ghost use Rattle.dk_lexer.specs.declared.fault.LexFault.{LexFault};
ghost use Rattle.dk_lexer.specs.Lexis.{HasTokens, HasFault};
ghost use Rattle.dk_lexer.specs.Answer.{Stops, Ends, end_at, located_at};
ghost use Rattle.dk_lexer.specs.Faithful.{IsEnded, IsFaithful};

use crate::fault::{LexError, LexFault, NoToken};
use crate::lexeme;
use crate::token::{Token, TokenKind};
use dk_base::Span;
use std::alloc::Global;

/// Cuts a text into its tokens, the last of them the end of the text, or finds the first fault in it.
pub fn lex(alloc: Global, source: &[u8]) -> Result<Vec<Token>, LexError>
    // What is answered is so.
    ensures tokens { IfOk result (λ tokens. HasTokens source.now tokens.items) }
    ensures fault { IfErr result (λ error. Stops source.now error) }
    ensures ended { IfOk result (λ tokens. IsEnded tokens.items) }

    // What is so is answered, except if out of memory.
    ensures accepts { (tokens : List Token) → HasTokens source.now tokens
        → MatchResult result (λ found. found.items ≡ tokens) (λ error. error ≡ LexError.OutOfMemory) }
    ensures refuses { (fault : LexFault) → HasFault source.now fault → IsErrAnd result (λ error. (error ≡ LexError.Fault fault)
        ⊎ (error ≡ LexError.OutOfMemory)) }
{
    read(alloc, source)
}

fn read(alloc: Global, source: &[u8]) -> Result<Vec<Token>, LexError>
    ensures { MatchResult result (λ tokens. HasTokens source.now tokens.items) (λ error. Stops source.now error) }
{
    let mut tokens = Vec::new(alloc);
    let mut rest = source;
    'tokens: loop {
        let bytes = lexeme::skip(rest);
        let start = source.len() - bytes.len();
        let Some((first, after)) = lexeme::front(bytes) else {
            return ended(tokens, start);
        };
        match lexeme::lexeme(alloc, bytes, first, after) {
            Ok((kind, length)) => {
                tokens.push(Token {
                    span: Span {
                        start,
                        stop: start + length,
                    },
                    kind,
                })?;
                let (_, behind) = bytes.split_at(length);
                rest = behind;
            }
            Err(refusal) => return Err(located(start, refusal)),
        }
    }
}

// The tokens, and the end of the text.
fn ended(mut tokens: Vec<Token>, length: usize) -> Result<Vec<Token>, LexError>
    ensures { MatchResult result (λ all. all.items ≡ tokens.items ++ (end_at length ∷ [])) (λ error. error ≡ LexError.OutOfMemory) }
{
    tokens.push(Token {
        span: Span {
            start: length,
            stop: length,
        },
        kind: TokenKind::End,
    })?;
    Ok(tokens)
}

// The fault of a token that would begin at `start`.
fn located(start: usize, refusal: NoToken) -> LexError
    requires { Ends start refusal }
    ensures { result ≡ located_at start refusal }
{
    let NoToken::Fault(kind, length) = refusal else {
        return LexError::OutOfMemory;
    };
    let span = Span {
        start,
        stop: start + length,
    };
    LexError::Fault(LexFault { span, kind })
}

/// A text has one list of tokens, or one first fault, and never both.
pub fn one_reading_law()
    ensures some { (text : List ℕ) → ((tokens : List Token) × HasTokens text tokens) ⊎ ((fault : LexFault) × HasFault text fault) }
    ensures tokens { (text : List ℕ) (one other : List Token) → HasTokens text one → HasTokens text other → one ≡ other }
    ensures fault { (text : List ℕ) (one other : LexFault) → HasFault text one → HasFault text other → one ≡ other }
    ensures either { (text : List ℕ) (tokens : List Token) (fault : LexFault) → HasTokens text tokens → HasFault text fault → ⊥ }
{}

/// Each token of a text is where its span says, in order, with only white space and comments between them.
pub fn faithful_law()
    ensures { (text : List ℕ) (tokens : List Token) → HasTokens text tokens → IsFaithful text tokens }
{}
