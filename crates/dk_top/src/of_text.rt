//! What a command makes of its program's text: one read, and then a function of bytes.

ghost use Rattle.std.specs.Prelude.{◌≤◌, ℕ, List, IfOk, IfErr, OnOk, length};
ghost use Rattle.dk_base.specs.declared.TheConstants.{MAX_SOURCE_BYTES};
ghost use Rattle.dk_endings.specs.declared.ending.Ending.{Ending};
ghost use Rattle.dk_top.specs.State.{IsFresh};
ghost use Rattle.dk_top.specs.Reading.{ReadsText, IsUnreadText, IsJudgement};

use crate::reading::read_text;
use dk_desk::Desk;
use dk_endings::Ending;
use std::alloc::Global;

// The words of a command that makes something of a program's text.
pub trait OfText {
    type Made;

    // What the words have to be.
    ghost ranges: { Self → Type 0 };

    // What is made of a text.
    ghost makes: { Self → List ℕ → Self.Made → Type 0 };

    // What is so of a text of which something is made.
    ghost good: { Self → List ℕ → Type 0 };

    // How a call ends for a text of which nothing is made.
    ghost ends: { Self → List ℕ → Ending → Type 0 };

    // Makes it, and touches no file.
    fn make(&self, alloc: Global, text: &[u8]) -> Result<Self::Made, Ending>
        requires ranges { ranges self.now }
        requires within { length text.now ≤ MAX_SOURCE_BYTES }
        ensures made { IfOk result (makes self.now text.now) }
        ensures good { OnOk result (good self.now text.now) }
        ensures ended { IfErr result (ends self.now text.now) }
        ensures judged { IfErr result IsJudgement };

    // A text that is not read whole has its ending.
    ghost unread: { (words : Self) (text : List ℕ) (e : Ending) → IsUnreadText text e
        → ends words text e };
}

// Reads the program, and makes of it what the words request.
pub fn read_with<W: OfText, D: Desk>(
    alloc: Global,
    desk: &mut D,
    name: &str,
    words: &W,
) -> Result<W::Made, Ending>
    requires ranges { W.ranges words.now }
    requires fresh { IsFresh (D.outside desk.old) }
    ensures { ReadsText name.now (W.makes words.now) (W.good words.now) (W.ends words.now) result
        (D.outside desk.old) (D.outside desk.new) }
{
    let text = read_text(alloc, desk, name)?;
    words.make(alloc, &text)
}
