// A program that takes several pixels a clock.

ghost use Rattle.std.specs.Prelude.{◌≡◌, ◌≤◌, ℕ, length, IfOk, IfErr, IfSome, OnOk};
ghost use Rattle.dk_types.specs.Typed.{Typing, typing_of};
ghost use Rattle.dk_compile.specs.Sources.{IsErrorBy};
ghost use Rattle.dk_compile.specs.Limits.{IsAcceptedAt, IsFaultAt};
ghost use Rattle.dk_compile.specs.Compiled.{HasLeastBits};
ghost use Rattle.dk_compile.specs.Widened.{IsWidened, HasWideMeasures, IsAble, IsWidenFault, IsWidenErrorBy};

use crate::{SourceError, one_at_age_law, planned};
use body_cuts::head_of;
use body_phases::phases_text;
use dk_base::{MAX_INPUTS, MAX_OUTPUTS, OutOfMemory};
use dk_types::TypedProgram;
use same_phases::have_phases;
use source_fault::WidenFault;
use std::alloc::{AllocError, Global};

/// Why a text was not widened: it was not read as a program, or its program has no text with phases.
#[derive(Clone, Copy, Debug, PartialEq, Eq, thiserror::Error)]
pub enum WidenError {
    #[error("{0}")]
    Source(SourceError),
    #[error("{0}")]
    Unable(WidenFault),
}

impl From<SourceError> for WidenError {
    ghost use Rattle.std.specs.Prelude.{◌≡◌};
    ghost use Rattle.dk_compile.specs.declared.widening.WidenError.TheVariants as error;

    ghost from_gives = { λ e f. f ≡ error.Source e };

    fn from(error: SourceError) -> Self {
        WidenError::Source(error)
    }
}

impl From<WidenFault> for WidenError {
    ghost use Rattle.std.specs.Prelude.{◌≡◌};
    ghost use Rattle.dk_compile.specs.declared.widening.WidenError.TheVariants as error;

    ghost from_gives = { λ e f. f ≡ error.Unable e };

    fn from(fault: WidenFault) -> Self {
        WidenError::Unable(fault)
    }
}

impl From<OutOfMemory> for WidenError {
    ghost use Rattle.std.specs.Prelude.{◌≡◌};
    ghost use Rattle.dk_compile.specs.declared.fault.SourceError.TheVariants as source;
    ghost use Rattle.dk_compile.specs.declared.widening.WidenError.TheVariants as error;

    ghost from_gives = { λ e f. f ≡ error.Source source.OutOfMemory };

    fn from(_error: OutOfMemory) -> Self {
        WidenError::Source(SourceError::OutOfMemory)
    }
}

/// What is counted of a text with phases: its definitions, and the buffer bits at age 0 of the text and of the source.
#[derive(Clone, Copy, Debug, PartialEq, Eq)]
pub struct WideMeasures {
    pub definitions: u32,
    pub bits: u64,
    pub bits_before: u64,
}

/// A text with the phases of a program, and what is counted of it.
#[derive(Drop)]
pub struct WideText {
    pub text: Vec<u8>,
    pub measures: WideMeasures,
}

/// A law: a program has at most one reason that there is no text with its phases. Where it has its phases, only the text is left to fail.
pub fn one_widening_law()
    ensures reason { (phases : ℕ) (p : Typing) (f g : WidenFault) → IsWidenFault phases p f → IsWidenFault phases p g → f ≡ g }
    ensures able { (phases : ℕ) (p : Typing) (f : WidenFault) → IsAble phases p → IsWidenFault phases p f → f ≡ WidenFault.Limits }
{}

// The typed program of a text, and the buffer bits of its plan at age 0.
#[derive(Drop)]
struct SizedProgram {
    program: TypedProgram,
    bits: u64,
}

// The program of a text and its buffer bits, or the text's first fault at age 0.
fn sized(alloc: Global, text: &[u8]) -> Result<SizedProgram, SourceError>
    ensures program { IfOk result (λ s. IsAcceptedAt text.now 0 (typing_of s.program)) }
    ensures bits { IfOk result (λ s. HasLeastBits text.now s.bits) }
    ensures fault { IfErr result (IsErrorBy (IsFaultAt text.now 0)) }
{
    one_at_age_law();
    let known = planned(alloc, text, 0)?;
    let bits = known.plan.bits();
    Ok(SizedProgram {
        program: known.program,
        bits,
    })
}

// Whether a program has as many columns as its phases need, and few enough inputs and outputs.
fn fits_phases(program: &TypedProgram, phases: u32) -> Result<(), WidenFault>
    requires some { 2 ≤ phases }
    requires most { phases ≤ 8 }
    ensures able { OnOk result (IsAble phases (typing_of program.now)) }
    ensures fault { IfErr result (IsWidenFault phases (typing_of program.now)) }
{
    program.law();
    let width = program.size().width;
    if width % phases != 0 {
        return Err(WidenFault::Width { width });
    }
    let inputs = phases * program.inputs().len() as u32;
    if MAX_INPUTS < inputs as usize {
        return Err(WidenFault::Inputs { count: inputs });
    }
    let outputs = phases * program.outputs().len() as u32;
    if MAX_OUTPUTS < outputs as usize {
        return Err(WidenFault::Outputs { count: outputs });
    }
    Ok(())
}

fn definition_count(program: &TypedProgram) -> u32
    ensures { result ≡ length (typing_of program.now).definitions }
{
    program.law();
    program.definitions().len() as u32
}

// The text with the phases of a program; None if it is over a limit of programs, or the check does not confirm it.
fn confirmed(
    alloc: Global,
    source: &[u8],
    old: &SizedProgram,
    phases: u32,
) -> Result<Option<WideText>, OutOfMemory>
    requires some { 2 ≤ phases }
    requires most { phases ≤ 8 }
    requires program { IsAcceptedAt source.now 0 (typing_of old.now.program) }
    requires bits { HasLeastBits source.now old.now.bits }
    ensures widened { IfOk result (λ found. IfSome found (λ w. IsWidened source.now phases w.text.items)) }
    ensures measured { IfOk result (λ found. IfSome found (λ w. HasWideMeasures source.now w.text.items w.measures)) }
{
    let text = phases_text(alloc, head_of(source), source, &old.program, phases)?;
    let new = match sized(alloc, &text) {
        Ok(new) => new,
        Err(SourceError::Fault(_)) => return Ok(None),
        Err(SourceError::OutOfMemory) => return Err(AllocError),
    };
    if !have_phases(alloc, phases, &old.program, &new.program)? {
        return Ok(None);
    }
    let definitions = definition_count(&new.program);
    let measures = WideMeasures {
        definitions,
        bits: new.bits,
        bits_before: old.bits,
    };
    Ok(Some(WideText { text, measures }))
}

/// A text whose program takes and shows the phases of the source's pictures: `phases` pixels a clock, 2 to 8. The text is accepted at age 0. It fails with the first fault of the source at age 0, or else with the reason that there is no such text.
///
/// The frame of the text is that of the source with a width of one part in `phases`. Input and output k of the source become inputs and outputs `k * phases` to `k * phases + phases - 1`.
pub fn widen(alloc: Global, source: &[u8], phases: u8) -> Result<WideText, WidenError>
    requires some { 2 ≤ phases }
    requires most { phases ≤ 8 }
    ensures widened { IfOk result (λ w. IsWidened source.now phases w.text.items) }
    ensures measured { IfOk result (λ w. HasWideMeasures source.now w.text.items w.measures) }
    ensures able { OnOk result ((p : Typing) × IsAcceptedAt source.now 0 p × IsAble phases p) }
    ensures fault { IfErr result (IsWidenErrorBy source.now phases) }
{
    let count = phases as u32;
    let old = sized(alloc, source)?;
    fits_phases(&old.program, count)?;
    match confirmed(alloc, source, &old, count)? {
        Some(wide) => Ok(wide),
        None => Err(WidenError::Unable(WidenFault::Limits)),
    }
}
