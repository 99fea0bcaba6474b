// Texts that are cut, narrowed or widened, with the lines that report them.

ghost use Rattle.std.specs.Prelude.{◌≡◌, ◌≤◌, ◌++◌, IfOk, IfErr, OnOk, decimal, flat_map};
ghost use Rattle.dk_types.specs.Typed.{Typing};
ghost use Rattle.dk_compile.specs.Cuts.{IsCutOf};
ghost use Rattle.dk_compile.specs.Limits.{IsAcceptedAt, IsFaultAt};
ghost use Rattle.dk_compile.specs.NarrowLines.{wider_line};
ghost use Rattle.dk_compile.specs.Narrowed.{IsNarrowed};
ghost use Rattle.dk_compile.specs.Reported.{AreCutLines, AreNarrowLines, IsWidenLine, cut_lines, narrow_line, widen_line, over_line, deep_words, reason_word as word_of_reason};
ghost use Rattle.dk_compile.specs.Sources.{IsErrorBy};
ghost use Rattle.dk_compile.specs.Widened.{IsAble, IsWidened, IsWidenErrorBy};

use crate::{
    DeepBody, Measures, NarrowText, Reason, SourceError, WideMeasures, WidenError, cut, narrow,
    push_wider, widen,
};
use dk_base::OutOfMemory;
use itoa::Buffer;
use std::alloc::Global;

/// A text that a source was rewritten to, and the lines that report it.
#[derive(Drop)]
pub struct Rewritten {
    pub text: Vec<u8>,
    pub lines: Vec<u8>,
}

// Adds a number, in decimal.
fn push_number(out: &mut Vec<u8>, number: u64) -> Result<(), OutOfMemory>
    ensures { OnOk result (out.new.items ≡ out.old.items ++ decimal number) }
{
    let mut digits = Buffer::new();
    out.extend_from_slice(digits.format(number).as_bytes())?;
    Ok(())
}

// The word of a reason.
fn reason_word(reason: Reason) -> &'static [u8]
    ensures { result.now ≡ word_of_reason reason }
{
    match reason {
        Reason::Operator => b"operator".as_slice(),
        Reason::Name => b"name".as_slice(),
        Reason::Limit => b"limit".as_slice(),
        Reason::Moved => b"moved".as_slice(),
        Reason::Unconfirmed => b"unconfirmed".as_slice(),
    }
}

// Adds a definition's name and the reason why it has more levels.
fn push_deep(out: &mut Vec<u8>, body: &DeepBody) -> Result<(), OutOfMemory>
    ensures { OnOk result (out.new.items ≡ out.old.items ++ deep_words body.now) }
{
    out.extend_from_slice(b" ")?;
    out.extend_from_slice(body.name.as_bytes())?;
    out.extend_from_slice(b" ")?;
    out.extend_from_slice(reason_word(body.reason))?;
    Ok(())
}

// Adds these definitions.
fn push_each(out: &mut Vec<u8>, deep: &[DeepBody]) -> Result<(), OutOfMemory>
    ensures { OnOk result (out.new.items ≡ out.old.items ++ flat_map deep_words deep.now) }
{
    for body in deep {
        push_deep(out, body)?;
    }
    Ok(())
}

// Adds the line of the definitions of more than `most` levels, if there are any.
fn push_over(out: &mut Vec<u8>, most: u8, deep: &[DeepBody]) -> Result<(), OutOfMemory>
    ensures { OnOk result (out.new.items ≡ out.old.items ++ over_line most deep.now) }
{
    if deep.is_empty() {
        return Ok(());
    }
    out.extend_from_slice(b"cut: over ")?;
    push_number(out, u64::from(most))?;
    out.extend_from_slice(b":")?;
    push_each(out, deep)?;
    out.extend_from_slice(b"\n")?;
    Ok(())
}

// The lines of a text that was cut.
fn lines_of_cut(alloc: Global, most: u8, measures: &Measures) -> Result<Vec<u8>, OutOfMemory>
    ensures { IfOk result (λ lines. lines.items ≡ cut_lines most measures.now) }
{
    let mut lines = Vec::new(alloc);
    lines.extend_from_slice(b"cut: definitions ")?;
    push_number(&mut lines, u64::from(measures.definitions))?;
    lines.extend_from_slice(b" levels ")?;
    push_number(&mut lines, u64::from(measures.levels))?;
    lines.extend_from_slice(b"\n")?;
    push_over(&mut lines, most, &measures.deep)?;
    Ok(lines)
}

// The lines of a text that was narrowed.
fn lines_of_narrow(alloc: Global, found: &NarrowText) -> Result<Vec<u8>, OutOfMemory>
    ensures { IfOk result (λ lines. lines.items
        ≡ narrow_line found.now.bits found.now.bits_before ++ wider_line found.now.wider.items) }
{
    let mut lines = Vec::new(alloc);
    lines.extend_from_slice(b"narrow: bits ")?;
    push_number(&mut lines, found.bits)?;
    lines.extend_from_slice(b" from ")?;
    push_number(&mut lines, found.bits_before)?;
    lines.extend_from_slice(b"\n")?;
    push_wider(&mut lines, &found.wider)?;
    Ok(lines)
}

// The line of a text that was widened.
fn line_of_widen(alloc: Global, measures: &WideMeasures) -> Result<Vec<u8>, OutOfMemory>
    ensures { IfOk result (λ line. line.items ≡ widen_line measures.now) }
{
    let mut line = Vec::new(alloc);
    line.extend_from_slice(b"widen: definitions ")?;
    push_number(&mut line, u64::from(measures.definitions))?;
    line.extend_from_slice(b" bits ")?;
    push_number(&mut line, measures.bits)?;
    line.extend_from_slice(b" from ")?;
    push_number(&mut line, measures.bits_before)?;
    line.extend_from_slice(b"\n")?;
    Ok(line)
}

/// What a text is cut to, as `cut` does it, with the lines that report it.
pub fn cut_reported(alloc: Global, source: &[u8], levels: u8) -> Result<Rewritten, SourceError>
    ensures is_cut { IfOk result (λ r. IsCutOf source.now levels r.text.items) }
    ensures lines { IfOk result (λ r. AreCutLines r.text.items levels r.lines.items) }
    ensures good { OnOk result ((p : Typing) × IsAcceptedAt source.now 0 p) }
    ensures fault { IfErr result (IsErrorBy (IsFaultAt source.now 0)) }
{
    let found = cut(alloc, source, levels)?;
    let lines = lines_of_cut(alloc, levels, &found.measures)?;
    Ok(Rewritten {
        text: found.text,
        lines,
    })
}

/// What a text is narrowed to, as `narrow` does it, with the lines that report it.
pub fn narrow_reported(alloc: Global, source: &[u8]) -> Result<Rewritten, SourceError>
    ensures narrowed { IfOk result (λ r. IsNarrowed source.now r.text.items) }
    ensures lines { IfOk result (λ r. AreNarrowLines source.now r.text.items r.lines.items) }
    ensures good { OnOk result ((p : Typing) × IsAcceptedAt source.now 0 p) }
    ensures fault { IfErr result (IsErrorBy (IsFaultAt source.now 0)) }
{
    let found = narrow(alloc, source)?;
    let lines = lines_of_narrow(alloc, &found)?;
    Ok(Rewritten {
        text: found.text,
        lines,
    })
}

/// What a text is widened to, as `widen` does it, with the line that reports it.
pub fn widen_reported(alloc: Global, source: &[u8], phases: u8) -> Result<Rewritten, WidenError>
    requires some { 2 ≤ phases }
    requires most { phases ≤ 8 }
    ensures widened { IfOk result (λ r. IsWidened source.now phases r.text.items) }
    ensures lines { IfOk result (λ r. IsWidenLine source.now r.text.items r.lines.items) }
    ensures able { OnOk result ((p : Typing) × IsAcceptedAt source.now 0 p × IsAble phases p) }
    ensures fault { IfErr result (IsWidenErrorBy source.now phases) }
{
    let found = widen(alloc, source, phases)?;
    let lines = line_of_widen(alloc, &found.measures)?;
    Ok(Rewritten {
        text: found.text,
        lines,
    })
}
