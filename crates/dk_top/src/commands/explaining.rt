//! `explain`: the first fault of a program, with what helps.

ghost use Rattle.std.specs.Prelude.{◌≡◌, ◌⊎◌, ◌≤◌, Some, Err, IfOk, IfErr, length};
ghost use Rattle.dk_base.specs.declared.TheConstants.{MAX_SOURCE_BYTES};
ghost use Rattle.dk_desk.specs.Calls.{IsIfTold, OpensOnly};
ghost use Rattle.dk_top.specs.Command.{explain as explain_command};
ghost use Rattle.dk_top.specs.State.{IsFresh};
ghost use Rattle.dk_top.specs.Reading.{OfFile, TellsRead};
ghost use Rattle.dk_top.specs.Refusals.{IsJudgedAs, IsRefusedFor, TellsNoLength, LeavesJudged};

use crate::files::write_report;
use crate::reading::read_text;
use crate::work::Work;
use dk_base::MAX_SOURCE_BYTES;
use dk_compile::{SourceFault, first_fault};
use dk_desk::{Desk, InSlot};
use dk_endings::Ending;
use dk_words::ExplainWords;
use fault_messages::explanation;
use std::alloc::Global;

/// The first fault of a program that is not accepted, and its explanation.
#[derive(Drop)]
pub(super) struct Refusal {
    pub(super) fault: SourceFault,
    pub(super) text: Vec<u8>,
}

/// What a program is found to be.
#[derive(Drop)]
pub(super) enum Judged {
    Accepted,
    Refused(Refusal),
}

// A fault with its explanation.
fn explained(alloc: Global, name: &str, text: &[u8], fault: SourceFault) -> Result<Judged, Ending>
    ensures refused { IfOk result (IsRefusedFor name.now text.now fault) }
    ensures memory { IfErr result (λ e. e ≡ Ending.Memory) }
{
    match explanation(alloc, name, text, fault) {
        Ok(text) => Ok(Judged::Refused(Refusal { fault, text })),
        Err(_) => Err(Ending::Memory),
    }
}

// Judges a text at age 0.
fn judge_text(alloc: Global, name: &str, text: &[u8]) -> Result<Judged, Ending>
    ensures judged { IfOk result (IsJudgedAs name.now text.now) }
    ensures untold { length text.now ≤ MAX_SOURCE_BYTES → IfOk result TellsNoLength }
    ensures memory { IfErr result (λ e. e ≡ Ending.Memory) }
{
    match first_fault(alloc, text) {
        Err(_) => Err(Ending::Memory),
        Ok(None) => Ok(Judged::Accepted),
        Ok(Some(fault)) => explained(alloc, name, text, fault),
    }
}

// Reads and judges the program. Of a program that is too long no text is there.
fn read_judged<D: Desk>(alloc: Global, desk: &mut D, name: &str) -> Result<Judged, Ending>
    requires { IsFresh (D.outside desk.old) }
    ensures judged { IfOk result (λ j. OfFile (D.outside desk.old) name.now
        (λ source. IsJudgedAs name.now source j)) }
    ensures left { IfOk result (λ j. OfFile (D.outside desk.old) name.now
        (λ source. LeavesJudged j source (D.outside desk.new).program)) }
    ensures failed { IfErr result (λ e. (e ≡ Ending.ReadFault) ⊎ (e ≡ Ending.Memory)) }
    ensures name { IsIfTold (D.outside desk.new).program.name (Some name.now) }
    ensures only { OpensOnly InSlot.Program (D.outside desk.old) (D.outside desk.new) }
    ensures cause { TellsRead result (D.outside desk.old) (D.outside desk.new) }
{
    match read_text(alloc, desk, name) {
        Ok(text) => judge_text(alloc, name, &text),
        Err(Ending::Source(_)) => explained(alloc, name, &[], SourceFault::TooLong),
        Err(ending) => Err(ending),
    }
}

/// Writes the explanation of the program's first fault to Report, if it has one.
impl Work for ExplainWords<'_> {
    ghost command = { λ words. explain_command words.program.now };

    fn perform<D: Desk>(&self, alloc: Global, desk: &mut D) -> Result<(), Ending> {
        let Judged::Refused(refusal) = read_judged(alloc, desk, self.program)? else {
            return Ok(());
        };
        write_report(desk, &refusal.text)?;
        Err(Ending::Source(refusal.fault))
    }
}
