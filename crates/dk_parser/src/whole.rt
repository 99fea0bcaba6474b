// Programs.

ghost use Rattle.std.specs.Prelude.{◌⊎◌, ◌≡◌, ◌≢◌, ◌↔◌, ℕ, List, IfOk, MatchResult};
ghost use Rattle.dk_parser.specs.declared.whole.ParseError.{ParseError};
ghost use Rattle.dk_parser.specs.Faults.{Halts};
ghost use Rattle.dk_base.specs.declared.ty.Ty.{Ty};
ghost use Rattle.dk_parser.specs.declared.terminal.Terminal.{Terminal};
ghost use Rattle.dk_parser.specs.Terminals.{terminal_of_word};
ghost use Rattle.dk_parser.specs.Grammar.{Tokens};
ghost use Rattle.dk_lexer.specs.Faithful.{IsEnded};
ghost use Rattle.dk_parser.specs.Programs.{Source, source_of, AllConvertToTypes};
ghost use Rattle.dk_parser.specs.Items.{AProgram};
ghost use Rattle.dk_parser.specs.Rules.{IsTypeWord};
ghost use Rattle.dk_parser.specs.Judged.{Derives, Accepted, Faults};
ghost use Rattle.dk_parser.specs.Kept.{GrownProgram};

use crate::halt::Halt;
use crate::items::{self, Parts};
use crate::terminal::Mark;
use crate::tree::{Literal, Program};
use crate::{classes, nest, single};
use dk_base::Span;
use dk_lexer::Token;
use source_words::Keyword;
use std::alloc::Global;

/// Why tokens have no program.
#[derive(Debug, Drop, thiserror::Error)]
pub enum ParseError {
    /// The first bracket that leaves too many unclosed.
    #[error("{}-{}: Nest", .span.start, .span.stop)]
    Nest { span: Span },
    /// The faulty token.
    #[error("{}-{}: Syntax", .span.start, .span.stop)]
    Syntax { span: Span },
    /// The first subtree that is too deep.
    #[error("{}-{}: Depth", .span.start, .span.stop)]
    Depth { span: Span },
    #[error("out of memory")]
    OutOfMemory,
}

// A program, of which a body may be too deep.
fn program<'a>(
    alloc: Global,
    tokens: &'a [Token],
) -> Result<(Literal, Literal, Parts, &'a [Token]), Halt<'a>>
    ensures parsed { MatchResult result (λ x. GrownProgram tokens.now x.0 x.1 x.2 x.3.now)
        (λ e. Halts AProgram tokens.now e) }
{
    let (_, width_at) = single::mark(Mark::Reserved(Keyword::Size), tokens)?;
    let (width, height_at) = single::literal(width_at)?;
    let (height, input_at) = single::literal(height_at)?;
    let (_, items_at) = single::mark(Mark::Reserved(Keyword::Input), input_at)?;
    let (parts, rest) = items::items(alloc, items_at)?;
    Ok((width, height, parts, rest))
}

fn judged(alloc: Global, tokens: &[Token]) -> Result<Program, ParseError>
    requires { IsEnded tokens.now }
    ensures { MatchResult result (λ p. Accepted tokens.now (source_of p)) (Faults tokens.now) }
{
    if let Some(span) = nest::overflow(tokens) {
        return Err(ParseError::Nest { span });
    }
    match program(alloc, tokens) {
        Ok((width, height, parts, _)) => match parts.deep {
            Some(span) => Err(ParseError::Depth { span }),
            None => Ok(Program {
                width,
                height,
                inputs: parts.inputs,
                definitions: parts.definitions,
                outputs: parts.outputs,
            }),
        },
        Err(Halt::OutOfMemory) => Err(ParseError::OutOfMemory),
        Err(Halt::Faulty(at)) => match classes::front(at) {
            Some((first, _, _)) => Err(ParseError::Syntax { span: first.span }),
            None => unreachable!(),
        },
    }
}

/// The program of these tokens, of which the last and no other is the end of the text.
pub fn parse(alloc: Global, tokens: &[Token]) -> Result<Program, ParseError>
    requires { IsEnded tokens.now }
    ensures judged { MatchResult result (λ p. Accepted tokens.now (source_of p)) (λ fault. Faults tokens.now fault) }
    ensures types { IfOk result (λ p. AllConvertToTypes (source_of p)) }
{
    let program = judged(alloc, tokens)?;
    Ok(program)
}

/// Tokens that end as those of a text have exactly one program or one fault, except if out of memory. A type word is what the rules of the language state.
pub fn one_judgement_law()
    ensures program { (ts : Tokens) (p q : Source) → Derives ts p → Derives ts q → p ≡ q }
    ensures none_beside { (ts : Tokens) (p : Source) (f : ParseError) → Accepted ts p → Faults ts f
        → f ≡ ParseError.OutOfMemory }
    ensures one_fault { (ts : Tokens) (f g : ParseError) → Faults ts f → Faults ts g
        → f ≢ ParseError.OutOfMemory → g ≢ ParseError.OutOfMemory → f ≡ g }
    ensures some { (ts : Tokens) → IsEnded ts
        → ((p : Source) × Accepted ts p)
        ⊎ ((f : ParseError) × Faults ts f × (f ≢ ParseError.OutOfMemory)) }
    ensures type_words { (bytes : List ℕ) (t : Ty) → terminal_of_word bytes ≡ Terminal.TypeWord t
        ↔ IsTypeWord bytes t }
{}
