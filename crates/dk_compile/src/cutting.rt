// A program whose bodies are cut.

ghost use Rattle.std.specs.Prelude.{◌≤◌, max, IsTrue, IfOk, IfErr, OnOk};
ghost use Rattle.dk_types.specs.Typed.{Typing, typing_of};
ghost use Rattle.dk_compile.specs.Sources.{IsAccepted, IsErrorBy};
ghost use Rattle.dk_compile.specs.Limits.{IsAcceptedAt, IsFaultAt};
ghost use Rattle.pointwise_ir.specs.Programs.{bodies_of};
ghost use Rattle.body_levels.specs.Levels.{greatest_level as greatest_of};
ghost use Rattle.body_levels.specs.Deep.{IsShallower};
ghost use Rattle.dk_compile.specs.Cuts.{IsCutOf, IsInlinedText, KeepsPictures, HasMeasures};
ghost use Rattle.dk_compile.specs.Judged.{HasForm, IsJudged, IsDeepSource, IsOutcome};

use crate::measures::{Measures, measures_of};
use crate::reading::inlined;
use crate::{PlannedProgram, SourceError, front, one_at_age_law, planned};
use body_cuts::{cut_program, head_of};
use body_levels::{greatest_level, is_shallower};
use dk_base::{MAX_DEFINITIONS, OutOfMemory};
use dk_types::TypedProgram;
use pointwise_ir::Program;
use same_pictures::{Comparison, compared};
use std::alloc::{AllocError, Global};

/// The text of a program whose bodies are cut, and what it has.
#[derive(Drop)]
pub struct CutText {
    pub text: Vec<u8>,
    pub measures: Measures,
}

// What the check finds of a proposed text: its program, which shows the pictures of the source's program; or the first image of the source's program for which the text has none of the same picture; or that it is no such text for another reason.
#[derive(Drop)]
enum Judgement {
    Same(TypedProgram),
    OtherImage(u32),
    Refused,
}

// What the check finds of a text beside a program.
fn judged(alloc: Global, old: &Program, text: &[u8]) -> Result<Judgement, OutOfMemory>
    ensures { IfOk result (IsJudged old.now text.now) }
{
    match front(alloc, text) {
        Ok(new) => match compared(alloc, old, &new.ir)? {
            Comparison::Same => Ok(Judgement::Same(new.program)),
            Comparison::OtherImage(image) => Ok(Judgement::OtherImage(image)),
            Comparison::OtherFrame => Ok(Judgement::Refused),
        },
        Err(SourceError::Fault(_)) => Ok(Judgement::Refused),
        Err(SourceError::OutOfMemory) => Err(AllocError),
    }
}

// A text that was chosen, and the program that it has with its inline images substituted.
#[derive(Drop)]
struct Chosen {
    text: Vec<u8>,
    form: Program,
}

// A source with its program and its plan, its program with its inline images substituted, and the levels that its bodies are to have.
#[derive(Clone, Copy)]
struct Source<'a> {
    text: &'a [u8],
    old: &'a PlannedProgram,
    form: &'a Program,
    levels: u8,
}

// What a source is cut to, if to anything.
#[derive(Drop)]
enum Outcome {
    Cut(Chosen),
    Whole,
}

// Whether the program has no more levels than the old one or than `most`, no body with more, and one above `most` with fewer.
fn improves(old: &Program, new: &Program, most: u32) -> bool
    ensures levels { IsTrue result → greatest_of (bodies_of new.now) ≤ max most (greatest_of (bodies_of old.now)) }
    ensures bodies { IsTrue result → IsShallower most old.now new.now }
{
    if most.max(greatest_level(old)) < greatest_level(new) {
        return false;
    }
    is_shallower(old, new, most)
}

// The cut text, which has this program, if it improves the source.
fn improved(
    alloc: Global,
    source: &Source<'_>,
    text: Vec<u8>,
    program: &TypedProgram,
) -> Result<Outcome, OutOfMemory>
    requires source { IsDeepSource source.now.text.now source.now.old.now source.now.form.now source.now.levels }
    requires keeps { KeepsPictures source.now.text.now text.items }
    requires program { IsAccepted text.items (typing_of program.now) }
    ensures { IfOk result (IsOutcome source.now.text.now source.now.levels) }
{
    let after = inlined(alloc, program)?;
    let most = u32::from(source.levels);
    if !improves(source.form, &after, most) {
        return Ok(Outcome::Whole);
    }
    Ok(Outcome::Cut(Chosen { text, form: after }))
}

// What the source is cut to, by one proposal after another. A body that the check refuses stays whole.
fn proposed(alloc: Global, source: &Source<'_>) -> Result<Outcome, OutOfMemory>
    requires source { IsDeepSource source.now.text.now source.now.old.now source.now.form.now source.now.levels }
    ensures { IfOk result (IsOutcome source.now.text.now source.now.levels) }
{
    let mut whole = Vec::new(alloc);
    for _ in 0..=MAX_DEFINITIONS {
        let most = u32::from(source.levels);
        let cut = cut_program(
            alloc,
            head_of(source.text),
            &source.old.program,
            most,
            &whole,
        )?;
        match judged(alloc, &source.old.ir, &cut)? {
            Judgement::Same(program) => return improved(alloc, source, cut, &program),
            Judgement::OtherImage(image) => {
                if whole.contains(&image) {
                    return Ok(Outcome::Whole);
                }
                whole.push(image)?;
            }
            Judgement::Refused => return Ok(Outcome::Whole),
        }
    }
    Ok(Outcome::Whole)
}

// What the source is cut to: the cut text where that has fewer levels, else the source.

fn cut_to(
    alloc: Global,
    source: &[u8],
    old: &PlannedProgram,
    levels: u8,
) -> Result<Chosen, OutOfMemory>
    requires form { HasForm source.now (typing_of old.now.program) old.now.ir }
    ensures is_cut { IfOk result (λ c. IsCutOf source.now levels c.text.items) }
    ensures form { IfOk result (λ c. IsInlinedText c.text.items c.form) }
{
    let form = inlined(alloc, &old.program)?;
    if u32::from(levels) < greatest_level(&form) {
        let from = Source {
            text: source,
            old,
            form: &form,
            levels,
        };
        match proposed(alloc, &from)? {
            Outcome::Cut(chosen) => return Ok(chosen),
            Outcome::Whole => {}
        }
    }
    let text = Vec::from_slice(alloc, source)?;
    Ok(Chosen { text, form })
}

/// A text whose program shows the pictures of the source's program, with bodies of at most `levels` levels of operators as far as they can be cut and the limits of a program allow; or the first fault of the source, as for `compile` at age 0. Its bodies have no more levels than `levels` or than those of the source. It is the source as it is where that has no more levels than `levels`, and where the cut program does not pass its check or has no body of fewer levels.
pub fn cut(alloc: Global, source: &[u8], levels: u8) -> Result<CutText, SourceError>
    ensures is_cut { IfOk result (λ c. IsCutOf source.now levels c.text.items) }
    ensures measured { IfOk result (λ c. HasMeasures c.text.items levels c.measures) }
    ensures good { OnOk result ((p : Typing) × IsAcceptedAt source.now 0 p) }
    ensures fault { IfErr result (IsErrorBy (IsFaultAt source.now 0)) }
{
    one_at_age_law();
    let old = planned(alloc, source, 0)?;
    let chosen = cut_to(alloc, source, &old, levels)?;
    let measures = measures_of(alloc, &chosen.form, u32::from(levels))?;
    Ok(CutText {
        text: chosen.text,
        measures,
    })
}
