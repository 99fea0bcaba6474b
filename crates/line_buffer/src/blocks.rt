// Delay lines in block memory: arrays that are read one clock ahead, into a register.

ghost use Rattle.std.specs.Prelude.{◌≤◌};
ghost use Rattle.line_buffer.specs.Feeds.{CanFeed};
ghost use Rattle.line_buffer.specs.Lines.{AreIndices};
ghost use Rattle.line_buffer.specs.Shares.{AddsBlockLine, Makes};

use crate::lines::stored_net;
use dk_base::OutOfMemory;
use net_build::{Builder, Indices, loaded};
use wiring::{Atom, Net, Right};

// An array of n words, at least two, and the register that copies its word one clock ahead: `value`, of `width` bits, goes in, and the register holds it n counted clocks later. Fails only if out of memory.
pub fn block_line(
    b: &mut Builder,
    width: u8,
    words: u32,
    value: Net,
    at: Indices,
) -> Result<Net, OutOfMemory>
    requires feed { CanFeed b.old width words value }
    requires some { 2 ≤ words }
    requires indices { AreIndices b.old words at }
    ensures { Makes b.new b.old result (AddsBlockLine b.new b.old width words value) }
{
    b.law();
    let array = b.array(width, words)?;
    let copy = b.reg(width)?;
    let ahead = b.op(Right::Word(array, Atom::Net(at.next)))?;
    let taken = loaded(b, copy, ahead, width)?;
    let stored = stored_net(b, copy, value, width)?;
    b.set(copy, taken);
    b.put(array, at.now, stored);
    Ok(copy)
}
