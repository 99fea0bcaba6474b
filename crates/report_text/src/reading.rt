// The report that a text denotes.

ghost use Rattle.std.specs.Prelude.{◌≡◌, ◌&&◌, ◌≤◌, ◌<◌, [], ◌∷◌, length, take, drop, MatchOption, MatchResult, ⊤, ℕ};
ghost use Rattle.std.specs.List.{prefix_len};
ghost use Rattle.report_text.specs.Reports.{Report as TheReport, parts_of};
ghost use Rattle.dk_grammar.specs.Lines.{cut};
ghost use Rattle.report_text.specs.Texts.{StandsFor, IsFaultyLine};
ghost use Rattle.report_text.specs.Reading.{reading, nothing as no_parts, is_final as final, is_empty};
ghost use Rattle.report_text.specs.Answers.{Refuses, Gives, Tells};
ghost use Rattle.report_text.specs.Steps.{Finds, is_inside};

use crate::report::{Limits, Report};
use crate::step::{Stage, step};
use std::alloc::Global;

/// Why a text gives no report.
#[derive(Clone, Copy, Debug, PartialEq, Eq, thiserror::Error)]
pub enum ReportFault {
    /// The first line that continues no report, counted from 1. Where the text ends too early, the line that is missing or that has no LF.
    #[error("line {number}")]
    Line { number: u64 },
    #[error("out of memory")]
    OutOfMemory,
}

// How many bytes come before the first LF.
fn inside_length(text: &[u8]) -> usize
    ensures is { result ≡ prefix_len is_inside text.now }
    ensures within { result ≤ length text.now }
{
    text.iter().take_while(|byte| **byte != b'\n').count()
}

// How many bytes the first line has, with its LF. None where there is no LF.
fn line_length(text: &[u8]) -> Option<usize>
    ensures cut { MatchOption result (cut text.now ≡ text.now ∷ []) (λ n. cut text.now ≡ take n text.now ∷ cut (drop n text.now)) }
    ensures some { MatchOption result ⊤ (λ n. (0 < n) × (n ≤ length text.now)) }
{
    let length = inside_length(text);
    if length < text.len() {
        Some(length + 1)
    } else {
        None
    }
}

fn is_final(stage: Stage, version: u8) -> bool
    ensures { result ≡ final stage version }
{
    match stage {
        Stage::End => true,
        Stage::Bits => version == 1,
        Stage::Flow => version == 1,
        _ => false,
    }
}

// Whether a report ends after a line of this kind, with these bytes left.
fn is_whole(stage: Stage, version: u8, rest: &[u8]) -> bool
    ensures { result ≡ (is_empty rest.now && final stage version) }
{
    rest.is_empty() && is_final(stage, version)
}

// The report before the first line.
fn nothing(alloc: Global) -> Report
    ensures { parts_of result ≡ no_parts }
{
    Report {
        version: 1,
        limits: Limits {
            bits: 0,
            latency: 0,
        },
        age: 0,
        width: 0,
        height: 0,
        images: Vec::new(alloc),
        latencies: Vec::new(alloc),
        clocks: 0,
        bits: 0,
        reads: 0,
        flow: Vec::new(alloc),
    }
}

// What is read, line by line.
fn all(alloc: Global, text: &[u8]) -> Result<Report, ReportFault>
    ensures { Finds (reading 1 Stage.Start no_parts (cut text.now)) result }
{
    let mut report = nothing(alloc);
    let mut stage = Stage::Start;
    let mut rest = text;
    let mut number: u64 = 1;
    'lines: while let Some(length) = line_length(rest) {
        let (line, after) = rest.split_at(length);
        match step(alloc, &mut report, stage, line) {
            Err(_) => return Err(ReportFault::OutOfMemory),
            Ok(None) => return Err(ReportFault::Line { number }),
            Ok(Some(next)) => stage = next,
        }
        rest = after;
        number += 1;
    }
    if is_whole(stage, report.version, rest) {
        Ok(report)
    } else {
        Err(ReportFault::Line { number })
    }
}

/// The report that a text denotes, or the first line that continues no report.
pub fn read(alloc: Global, text: &[u8]) -> Result<Report, ReportFault>
    ensures judged { MatchResult result (λ report. StandsFor text.now (parts_of report)) (λ fault. Refuses text.now fault) }
    ensures accepts { (r : TheReport) → StandsFor text.now r → Gives r result }
    ensures tells { (n : ℕ) → IsFaultyLine text.now n → Tells n result }
{
    all(alloc, text)
}
