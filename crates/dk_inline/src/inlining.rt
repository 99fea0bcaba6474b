// Whole programs.

ghost use Rattle.std.specs.Prelude.{◌≡◌, ◌≤◌, IfOk, IfErr, length};
ghost use Rattle.dk_types.specs.Typed.{typing_of};
ghost use Rattle.pointwise_ir.specs.Programs.{program_of};
ghost use Rattle.dk_inline.specs.Answers.{HasPorts, IsWithin, IsInlining, KeepsProgram, IsFault};

use crate::extent::{extents, first_deep, node_count};
use crate::substitution::{images, inputs};
use dk_base::{MAX_NODES, OutOfMemory, Span};
use dk_types::TypedProgram;
use pointwise_ir::{Parts, Program};
use std::alloc::{AllocError, AllocFailed, Global};

/// Why a program is not inlined.
#[derive(Clone, Copy, Debug, PartialEq, Eq, thiserror::Error)]
pub enum InlineFault {
    /// More than 65,536 nodes after inlining. The count saturates.
    #[error("Nodes {count}")]
    Nodes { count: u64 },
    /// A definition deeper than 1,024 after inlining, at its name.
    #[error("{}-{}: InlineDepth", .span.start, .span.stop)]
    InlineDepth { span: Span },
    /// Out of memory.
    #[error("out of memory")]
    OutOfMemory,
}

impl From<AllocError> for InlineFault {
    ghost use Rattle.std.specs.Prelude.{◌≡◌};
    ghost use Rattle.dk_inline.specs.declared.inlining.InlineFault.TheVariants.{OutOfMemory as NoMemory};

    ghost from_gives = { λ _ e. e ≡ NoMemory };

    fn from(_: AllocError) -> Self {
        InlineFault::OutOfMemory
    }
}

// The parts of the program with its inline images substituted.
#[tactic(auto, using(crate::proofs::Whole::inlining_of))]
fn inlined_parts(alloc: Global, program: &TypedProgram) -> Result<Parts, OutOfMemory>
    ensures { IfOk result (λ parts. IsInlining (typing_of program.now) (program_of parts)) }
{
    let inputs = inputs(alloc, program.inputs())?;
    let images = images(alloc, program)?;
    let outputs = Vec::from_slice(alloc, program.outputs())?;
    Ok(Parts {
        size: program.size(),
        inputs,
        images,
        outputs,
    })
}

// The program with its inline images substituted, which is within the limits.
fn substituted(alloc: Global, program: &TypedProgram) -> Result<Program, OutOfMemory>
    requires ports { HasPorts (typing_of program.now) }
    requires within { IsWithin (typing_of program.now) }
    ensures { IfOk result (λ ir. IsInlining (typing_of program.now) ir) }
{
    program.law();
    let parts = inlined_parts(alloc, program)?;
    Ok(Program::new(parts))
}

// The program with its inline images substituted, or the first limit that it passes.
fn inlined(alloc: Global, program: &TypedProgram) -> Result<Program, InlineFault>
    requires { HasPorts (typing_of program.now) }
    ensures within { IfOk result (λ ir. IsWithin (typing_of program.now)) }
    ensures inlined { IfOk result (λ ir. IsInlining (typing_of program.now) ir) }
    ensures fault { IfErr result (IsFault (typing_of program.now)) }
{
    let extents = extents(alloc, program)?;
    let count = node_count(program, &extents);
    if MAX_NODES < count {
        return Err(InlineFault::Nodes { count });
    }
    if let Some(span) = first_deep(program, &extents) {
        return Err(InlineFault::InlineDepth { span });
    }
    match substituted(alloc, program) {
        Ok(ir) => Ok(ir),
        Err(_) => Err(InlineFault::OutOfMemory),
    }
}

/// The program with its inline images substituted, or the first limit that it passes: the nodes, and then the depth. Both are counted before anything is substituted.
///
/// The images keep their numbers, names and types. An output that is marked inline stays an image like any other, and reads of it are substituted all the same. Any other inline image is left with the body 0, since nobody reads it any more.
#[tactic(auto, using(crate::proofs::Whole::keeps_program))]
pub fn inline(alloc: Global, program: &TypedProgram) -> Result<Program, InlineFault>
    requires some_inputs { 1 ≤ length program.now.inputs }
    requires some_outputs { 1 ≤ length program.now.outputs }
    ensures within { IfOk result (λ ir. IsWithin (typing_of program.now)) }
    ensures inlined { IfOk result (λ ir. IsInlining (typing_of program.now) ir) }
    ensures keeps { IfOk result (λ ir. KeepsProgram (typing_of program.now) ir) }
    ensures fault { IfErr result (IsFault (typing_of program.now)) }
{
    program.law();
    let ir = inlined(alloc, program)?;
    ir.law();
    Ok(ir)
}
