// Whole texts.

ghost use Rattle.std.specs.Prelude.{◌≡◌, ℕ, List, IfOk, IfErr, IsErrAnd, MatchResult};
ghost use Rattle.verilog_text.specs.declared.fault.TextFault.{TextFault as OneFault};
ghost use Rattle.verilog_text.specs.declared.fault.TextError.TheVariants.{OutOfMemory};
ghost use Rattle.verilog_text.specs.Grammar.{Source, source_of};
ghost use Rattle.verilog_text.specs.Stands.{IsWritten};
ghost use Rattle.verilog_text.specs.Faults.{IsErrorBy};
ghost use Rattle.verilog_parse.specs.Named.{IsNamedSource};
ghost use Rattle.verilog_parse.specs.Fault.{IsParseFault, fault_at as fault_at_token};

use crate::halt::Halt;
use crate::module::module;
use dk_base::Span;
use std::alloc::Global;
use verilog_lexer::Tokens;
use verilog_text::{TextError, TextFault, Token, TokenKind, Written};

/// What is written in a text, or the first fault of its tokens, or else of its grammar.
pub fn parse(alloc: Global, text: &[u8]) -> Result<Written, TextError>
    // What is answered is so.
    ensures written { IfOk result (λ w. IsWritten text.now (source_of w)) }
    ensures fault { IfErr result (IsErrorBy (IsParseFault text.now)) }
    ensures named { IfOk result (λ w. IsNamedSource text.now (source_of w)) }

    // What is so is answered, except if out of memory.
    ensures accepts { (s : Source) → IsWritten text.now s → MatchResult result (λ w. source_of w ≡ s) (λ e. e ≡ OutOfMemory) }
    ensures refuses { (f : OneFault) → IsParseFault text.now f → IsErrAnd result (IsErrorBy (λ g. g ≡ f)) }
{
    verilog_text::one_reading_law();
    read(alloc, text)
}

// The fault of a module that this token doesn't continue.
fn fault_at(token: Token) -> TextFault
    ensures { result ≡ fault_at_token token }
{
    match token.kind {
        TokenKind::Refused => TextFault::NotInSubset(token.span),
        _ => TextFault::Syntax(token.span),
    }
}

fn read(alloc: Global, text: &[u8]) -> Result<Written, TextError>
    ensures { MatchResult result (λ w. IsWritten text.now (source_of w)) (IsErrorBy (IsParseFault text.now)) }
{
    let mut tokens = match Tokens::of(text) {
        Ok(tokens) => tokens,
        Err(fault) => return Err(TextError::Fault(TextFault::Lex(fault))),
    };
    match module(alloc, &mut tokens) {
        Ok(written) => Ok(written),
        Err(Halt::Faulty) => Err(TextError::Fault(fault_at(tokens.peek()))),
        Err(Halt::OutOfMemory) => Err(TextError::OutOfMemory),
    }
}

/// The span of the module's name in a text in which a module is written. It takes no memory.
pub fn name_span(text: &[u8]) -> Span
    requires { (s : Source) × IsWritten text.now s }
    ensures { (s : Source) → IsWritten text.now s → result ≡ s.name }
{
    verilog_text::one_reading_law();
    match Tokens::of(text) {
        Ok(tokens) => {
            let mut tokens = tokens;
            tokens.take();
            tokens.peek().span
        }
        Err(_) => unreachable!(),
    }
}
