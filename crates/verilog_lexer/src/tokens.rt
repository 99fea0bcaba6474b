// The tokens of a text.

ghost use Rattle.std.specs.Prelude.{◌≡◌, ◌≢◌, ◌≤◌, [], ◌∷◌, ℕ, List, length, IfOk, IfErr, MatchOption, MatchResult, IsTrue};
ghost use Rattle.std.specs.Result.{IsOkAnd, IsErrAnd};
ghost use Rattle.verilog_text.specs.declared.token.Token.{Token as OneToken};
ghost use Rattle.verilog_text.specs.declared.token.LexFault.{LexFault as OneLexFault};
ghost use Rattle.verilog_text.specs.declared.token.TokenKind.TheVariants as kind;
ghost use Rattle.verilog_text.specs.Lexis.{Refused, HasTokens, HasLexFault};
ghost use Rattle.verilog_lexer.specs.Left.{end_at, HasSome, IsCut};

use crate::lexeme;
use dk_base::Span;
use std::marker::Model;
use verilog_text::{LexFault, Token, TokenKind};

/// A cursor over the tokens of a text that has some. Each is cut as it is reached, so none is kept but the next. A contract sees the list of those that are left, the last of them the end of the text.
#[derive(Drop)]
pub struct Tokens<'a> {
    total: usize,
    next: Token,
    rest: &'a [u8],
}

impl<'a> Model for Tokens<'a> {
    ghost use Rattle.std.specs.Prelude.{List, ◌∷◌};
    ghost use Rattle.verilog_text.specs.declared.token.Token.{Token as OneToken};
    ghost use Rattle.verilog_lexer.specs.Left.{left_of, after, IsPlace};

    ghost Value = { List OneToken };

    ghost view = { λ t. t.next ∷ after t.next.kind (left_of t.total t.rest.now) };

    ghost invariant = { λ t. IsPlace t.total t.next t.rest.now };
}

fn is_end(token: Token) -> bool
    ensures yes { IsTrue result → token.kind ≡ kind.End }
    ensures no { token.kind ≡ kind.End → IsTrue result }
{
    match token.kind {
        TokenKind::End => true,
        _ => false,
    }
}

// The end of a text of this many bytes.
fn end_of(total: usize) -> Token
    ensures { result ≡ end_at total }
{
    Token {
        span: Span {
            start: total,
            stop: total,
        },
        kind: TokenKind::End,
    }
}

// The first token of what is left of a text of this many bytes, and what follows it.
fn cut(total: usize, text: &[u8]) -> Result<(Token, &[u8]), LexFault>
    requires { length text.now ≤ total }
    ensures { MatchResult result (λ x. IsCut total text.now x.0 x.1.now) (λ f. Refused total text.now f) }
{
    let bytes = lexeme::skip(text);
    let start = total - bytes.len();
    let Some((first, after)) = lexeme::front(bytes) else {
        return Ok((end_of(total), bytes));
    };
    match lexeme::lexeme(bytes, first, after) {
        Ok((kind, length)) => {
            let (_, behind) = bytes.split_at(length);
            Ok((
                Token {
                    span: Span {
                        start,
                        stop: start + length,
                    },
                    kind,
                },
                behind,
            ))
        }
        Err((kind, length)) => Err(LexFault {
            span: Span {
                start,
                stop: start + length,
            },
            kind,
        }),
    }
}

// The first fault of a text.
fn first_fault(source: &[u8]) -> Option<LexFault>
    ensures { MatchOption result (HasSome (length source.now) source.now) (λ f. HasLexFault source.now f) }
{
    let mut rest = source;
    'tokens: loop {
        match cut(source.len(), rest) {
            Ok((token, behind)) => {
                if is_end(token) {
                    return None;
                }
                rest = behind;
            }
            Err(fault) => return Some(fault),
        }
    }
}

// The first token of what is left of a text that has tokens, and what follows it.
fn next_token(total: usize, text: &[u8]) -> (Token, &[u8])
    requires fewer { length text.now ≤ total }
    requires has { HasSome total text.now }
    ensures { IsCut total text.now result.0 result.1.now }
{
    match cut(total, text) {
        Ok(found) => found,
        Err(_) => unreachable!(),
    }
}

impl<'a> Tokens<'a> {
    /// The tokens of a text, the last of them its end, or its first fault. It takes no memory.
    pub fn of(source: &'a [u8]) -> Result<Tokens<'a>, LexFault>
        // What is answered is so.
        ensures tokens { IfOk result (λ t. HasTokens source.now t) }
        ensures fault { IfErr result (λ f. HasLexFault source.now f) }

        // What is so is answered.
        ensures accepts { (tokens : List OneToken) → HasTokens source.now tokens → IsOkAnd result (λ t. t ≡ tokens) }
        ensures refuses { (fault : OneLexFault) → HasLexFault source.now fault → IsErrAnd result (λ f. f ≡ fault) }
    {
        verilog_text::one_reading_law();
        Tokens::read(source)
    }

    fn read(source: &'a [u8]) -> Result<Tokens<'a>, LexFault>
        ensures { MatchResult result (λ t. HasTokens source.now t) (λ f. HasLexFault source.now f) }
    {
        match first_fault(source) {
            Some(fault) => Err(fault),
            None => {
                let (next, rest) = next_token(source.len(), source);
                Ok(Tokens {
                    total: source.len(),
                    next,
                    rest,
                })
            }
        }
    }

    /// The next token. The end of the text has none after it.
    pub fn peek(&self) -> Token
        ensures next { (rest : List OneToken) × (self.now ≡ result ∷ rest) }
        ensures last { result.kind ≡ kind.End → self.now ≡ result ∷ [] }
    {
        self.next
    }

    /// Takes the next token. The end of the text stays the next.
    pub fn take(&mut self) -> Token
        ensures next { result.kind ≢ kind.End → self.old ≡ result ∷ self.new }
        ensures last { result.kind ≡ kind.End → (self.old ≡ result ∷ []) × (self.new ≡ self.old) }
    {
        let taken = self.next;
        let (next, rest) = next_token(self.total, self.rest);
        self.next = next;
        self.rest = rest;
        taken
    }
}
