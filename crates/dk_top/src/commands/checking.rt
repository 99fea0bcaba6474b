//! `check`: whether a report holds of a program.

ghost use Rattle.std.specs.Prelude.{◌≡◌, ◌≢◌, ◌≤◌, ℕ, List, ⊤, Err, IfOk, IfErr, length};
ghost use Rattle.dk_top.specs.Command.{check as check_command};
ghost use Rattle.dk_compile.specs.Sources.{IsSourceFault};
ghost use Rattle.dk_top.specs.Reports.{IsChecked, IsCheckAnswer};
ghost use Rattle.dk_top.specs.State.{IsFresh};
ghost use Rattle.dk_top.specs.Reading.{ReadsBoth, IsJudgement, IsSourceEnding};
ghost use Rattle.dk_top.specs.Reporting.{HasFront, HasProgram, IsReportEnding, OfFront};

use crate::files::write_report;
use crate::reading::{ending_of, read_text, read_whole};
use crate::work::Work;
use dk_base::MAX_REPORT_BYTES;
use dk_compile::{Front, front};
use dk_desk::{Desk, InSlot};
use dk_endings::{Ending, ReportFault, holds_line};
use dk_plan::{CheckFault, Claim, judge_report};
use dk_words::CheckWords;
use std::alloc::Global;

// The program of a text, with its live reads.
fn accepted(alloc: Global, text: &[u8]) -> Result<Front, Ending>
    ensures accepted { IfOk result (λ front. HasFront text.now front.ir front.stencils) }
    ensures fault { IfErr result (IsSourceEnding (IsSourceFault text.now)) }
    ensures judged { result ≢ Err Ending.ReadFault }
{
    match front(alloc, text) {
        Ok(front) => Ok(front),
        Err(error) => Err(ending_of(error)),
    }
}

// The claim of a report within its limit, if it holds of an accepted program.
fn judged(alloc: Global, front: &Front, report: &[u8]) -> Result<Claim, Ending>
    requires within { length report.now ≤ MAX_REPORT_BYTES }
    requires accepted { (source : List ℕ) × HasFront source front.now.ir front.now.stencils }
    ensures holds { IfOk result (λ claim. OfFront front.now
        (λ source. IsChecked source report.now claim)) }
    ensures fault { IfErr result (λ e. OfFront front.now
        (λ source. IsReportEnding source report.now e)) }
    ensures judged { IfErr result IsJudgement }
{
    match judge_report(alloc, &front.ir, &front.stencils, report) {
        Ok(claim) => Ok(claim),
        Err(CheckFault::Line { number }) => Err(Ending::Rejected(ReportFault::Line { number })),
        Err(CheckFault::OutOfMemory) => Err(Ending::Memory),
    }
}

// Reads and judges the program, and then the report.
fn read_claim<D: Desk>(alloc: Global, desk: &mut D, words: &CheckWords) -> Result<Claim, Ending>
    requires { IsFresh (D.outside desk.old) }
    ensures { ReadsBoth words.now.program.now words.now.report.now HasProgram IsChecked (λ claim. ⊤) IsCheckAnswer result
        (D.outside desk.old) (D.outside desk.new) }
{
    let text = read_text(alloc, desk, words.program)?;
    let front = accepted(alloc, &text)?;
    let too_long = Ending::Rejected(ReportFault::TooLong);
    let limit = MAX_REPORT_BYTES;
    let report = read_whole(alloc, desk, InSlot::Image, words.report, limit, too_long)?;
    judged(alloc, &front, &report)
}

/// Judges a report from any source. If it holds, its claim is written to Report.
impl Work for CheckWords<'_> {
    ghost command = { λ words. check_command words.program.now words.report.now };

    fn perform<D: Desk>(&self, alloc: Global, desk: &mut D) -> Result<(), Ending> {
        let claim = read_claim(alloc, desk, self)?;
        write_report(desk, holds_line(claim.bits, claim.latency).as_bytes())?;
        Ok(())
    }
}
