// From a text to its program.

ghost use Rattle.std.specs.Prelude.{◌≤◌, ℕ, List, IfOk, IfErr, length};
ghost use Rattle.dk_parser.specs.Programs.{source_of, AllConvertToTypes};
ghost use Rattle.dk_types.specs.Typed.{typing_of};
ghost use Rattle.dk_inline.specs.Folded.{IsFolded};
ghost use Rattle.dk_inline.specs.Answers.{IsWithin, IsInlining};
ghost use Rattle.dk_compile.specs.Sources.{HasTree, IsText, IsAccepted, IsSourceFault, IsErrorBy};
ghost use Rattle.dk_compile.specs.Fronts.{IsForm, HasOwnBodies, IsFront};

use crate::accepted::Front;
use crate::fault::SourceError;
use dk_base::{MAX_SOURCE_BYTES, OutOfMemory};
use dk_inline::{Fold, InlineFault, inline};
use dk_lexer::lex;
use dk_parser::{Program as SyntaxTree, parse};
use dk_types::{TypedProgram, check};
use pointwise_ir::{Program, Rewrite};
use source_fault::SourceFault;
use std::alloc::{AllocError, Global};
use stencil_sets::live_reads;

// The tree of a text.
fn tree(alloc: Global, text: &[u8]) -> Result<SyntaxTree, SourceError>
    ensures tree { IfOk result (λ program. HasTree text.now (source_of program)) }
    ensures types { IfOk result (λ program. AllConvertToTypes (source_of program)) }
    ensures fault { IfErr result (IsErrorBy (IsSourceFault text.now)) }
{
    if MAX_SOURCE_BYTES < text.len() {
        return Err(SourceError::Fault(SourceFault::TooLong));
    }
    let tokens = lex(alloc, text)?;
    let program = parse(alloc, &tokens)?;
    Ok(program)
}

/// The typed program of a text, or the first fault of the text among those of its length, its tokens, its tree and its types.
pub fn typed(alloc: Global, text: &[u8]) -> Result<TypedProgram, SourceError>
    ensures text { IfOk result (λ p. IsText text.now (typing_of p)) }
    ensures some_inputs { IfOk result (λ p. 1 ≤ length p.inputs) }
    ensures some_outputs { IfOk result (λ p. 1 ≤ length p.outputs) }
    ensures fault { IfErr result (IsErrorBy (IsSourceFault text.now)) }
{
    let program = tree(alloc, text)?;
    let typed = check(alloc, &program)?;
    Ok(typed)
}

// A program, and its form.
#[derive(Drop)]
struct Formed {
    program: TypedProgram,
    ir: Program,
}

// The program of a text and its form, if it is within the limits on nodes and depth.
fn form(alloc: Global, text: &[u8]) -> Result<Formed, SourceError>
    ensures text { IfOk result (λ f. IsText text.now (typing_of f.program)) }
    ensures within { IfOk result (λ f. IsWithin (typing_of f.program)) }
    ensures form { IfOk result (λ f. IsForm (typing_of f.program) f.ir) }
    ensures folded { IfOk result (λ f. IsFolded f.ir) }
    ensures bodies { IfOk result (λ f. HasOwnBodies (typing_of f.program) f.ir) }
    ensures fault { IfErr result (IsErrorBy (IsSourceFault text.now)) }
{
    let program = typed(alloc, text)?;
    let inlined = inline(alloc, &program)?;
    let ir = Fold.apply(alloc, inlined)?;
    Ok(Formed { program, ir })
}

/// The program of a text, or the first fault of the text.
pub fn front(alloc: Global, text: &[u8]) -> Result<Front, SourceError>
    ensures accepted { IfOk result (λ front. IsAccepted text.now (typing_of front.program)) }
    ensures front { IfOk result (λ front. IsFront text.now (typing_of front.program) front.ir front.stencils) }
    ensures fault { IfErr result (IsErrorBy (IsSourceFault text.now)) }
{
    let Formed { program, ir } = form(alloc, text)?;
    let stencils = live_reads(alloc, &ir)?;
    stencils.law();
    Ok(Front {
        program,
        ir,
        stencils,
    })
}

/// The program with its inline images substituted, which is within the limits.
pub(crate) fn inlined(alloc: Global, program: &TypedProgram) -> Result<Program, OutOfMemory>
    requires accepted { (text : List ℕ) × IsAccepted text (typing_of program.now) }
    ensures { IfOk result (λ form. IsInlining (typing_of program.now) form) }
{
    match inline(alloc, program) {
        Ok(form) => Ok(form),
        Err(InlineFault::OutOfMemory) => Err(AllocError),
        Err(InlineFault::Nodes { .. }) | Err(InlineFault::InlineDepth { .. }) => unreachable!(),
    }
}
