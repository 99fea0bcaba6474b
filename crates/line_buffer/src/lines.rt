// Delay lines: arrays of which a word is read and then written in each clock.

ghost use Rattle.std.specs.Prelude.{IfOk};
ghost use Rattle.net_build.specs.Logic.{AddsLogic};
ghost use Rattle.net_build.specs.Counters.{AreChoices, IsChoice, unless_held};
ghost use Rattle.line_buffer.specs.Fills.{IsUnlessHeld};
ghost use Rattle.line_buffer.specs.Feeds.{CanFeed};
ghost use Rattle.line_buffer.specs.Shares.{Makes, SharesLine};
ghost use Rattle.line_buffer.specs.SharedCounters.{AreTurns};

use crate::sharing::{Turns, turning_index};
use dk_base::OutOfMemory;
use net_build::Builder;
use wiring::{Atom, Net, Right};

// An array, its index, and the word that is read there before it is written.
#[derive(Clone, Copy)]
pub struct DelayLine {
    pub array: usize,
    pub index: Net,
    pub word: Net,
}

// What an array takes: in a held clock the word that is there, and else the net.
pub fn stored_net(b: &mut Builder, now: Net, next: Net, bits: u8) -> Result<Net, OutOfMemory>
    requires { AreChoices b.old bits now next }
    ensures logic { AddsLogic b.new b.old }
    ensures net { IfOk result (IsChoice b.new b.old now next bits (unless_held b.old.enable)) }
    ensures right { IfOk result (IsUnlessHeld b.new now next) }
{
    if b.has_en() {
        let en = b.en();
        let net = b.op(Right::Choose(Atom::Net(en), Atom::Net(next), Atom::Net(now)))?;
        return Ok(net);
    }
    Ok(next)
}

// An array of n words, at least one: `value`, of `width` bits, goes in at its index, and comes out there n counted clocks later. The index is 0 in a reset clock and does not change in a held one. Arrays of as many words share it. Fails only if out of memory.
pub fn delay_line(
    b: &mut Builder,
    turns: &mut Turns,
    width: u8,
    words: u32,
    value: Net,
) -> Result<DelayLine, OutOfMemory>
    requires feed { CanFeed b.old width words value }
    requires turns { AreTurns b.old turns.old }
    ensures { Makes b.new b.old result
        (SharesLine b.new b.old turns.new turns.old width words value) }
{
    let index = turning_index(b, turns, words)?;
    b.law();
    let array = b.array(width, words)?;
    let word = b.op(Right::Word(array, Atom::Net(index)))?;
    let stored = stored_net(b, word, value, width)?;
    b.put(array, index, stored);
    Ok(DelayLine { array, index, word })
}
