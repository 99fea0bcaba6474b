//! What a command does.

ghost use Rattle.std.specs.Prelude.{◌≡◌, Some};
ghost use Rattle.dk_top.specs.Command.{Command, IsInRange};
ghost use Rattle.dk_top.specs.State.{IsFresh};
ghost use Rattle.dk_top.specs.Performing.{OfEnding, Performs, PerformsWork};

use dk_desk::Desk;
use dk_endings::Ending;
use std::alloc::Global;

// A command with its words. Each does what `PerformsWork` states of it, and leaves Fault.
pub trait Work {
    // The command, with its words.
    ghost command: { Self → Command };

    // Does what the words request, except for the line to Fault. An error is how the call ends.
    fn perform<D: Desk>(&self, alloc: Global, desk: &mut D) -> Result<(), Ending>
        requires ranges { IsInRange (command self.now) }
        requires fresh { IsFresh (D.outside desk.old) }
        ensures { OfEnding result (λ e. PerformsWork (command self.now) e (D.outside desk.old)
            (D.outside desk.new)) };
}

// Does what the words of a command request, and leaves Fault.
pub fn performed<W: Work, D: Desk>(words: &W, alloc: Global, desk: &mut D) -> Ending
    requires ranges { IsInRange (W.command words.now) }
    requires fresh { IsFresh (D.outside desk.old) }
    ensures performs { Performs (Some (W.command words.now)) result (D.outside desk.old)
        (D.outside desk.new) }
    ensures fault { (D.outside desk.new).fault ≡ (D.outside desk.old).fault }
    ensures fault_count { (D.outside desk.new).fault_failures
        ≡ (D.outside desk.old).fault_failures }
{
    match words.perform(alloc, desk) {
        Ok(()) => Ending::Done,
        Err(ending) => ending,
    }
}
