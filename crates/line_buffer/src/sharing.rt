// The counters of arrays: arrays of the same number of words share one.

ghost use Rattle.std.specs.Prelude.{◌≡◌, ◌==◌, ℕ, [], IfOk, IfSome};
ghost use Rattle.std.specs.Option.{is_some};
ghost use Rattle.std.specs.List.{list_any};
ghost use Rattle.wiring.specs.Netlist.{Netlist};
ghost use Rattle.wiring.specs.Sizes.{IsDepth};
ghost use Rattle.net_build.specs.Logic.{AddsLogic};
ghost use Rattle.line_buffer.specs.Lines.{AreIndices};
ghost use Rattle.line_buffer.specs.Shares.{AddsTurn, AddsTurns, Makes, SharesTurn, SharesTurns};
ghost use Rattle.line_buffer.specs.SharedCounters.{IsTurn, AreTurns, line_words, block_words};

use dk_base::OutOfMemory;
use net_build::{Builder, Indices, counter, cycle, gate, number};
use std::alloc::Global;
use wiring::{Net, Right};

/// The counters that were made, each with the number of words of its arrays: those of arrays that are read and then written at one index, and those of arrays that are read one clock ahead.
#[derive(Drop)]
pub struct Turns {
    pub lines: Vec<(u32, Net)>,
    pub blocks: Vec<(u32, Indices)>,
}

impl Turns {
    /// No counters.
    pub fn new(alloc: Global) -> Turns
        ensures turns { (b : Netlist) → AreTurns b result }
        ensures lines { line_words result ≡ [] }
        ensures blocks { block_words result ≡ [] }
    {
        Turns {
            lines: Vec::new(alloc),
            blocks: Vec::new(alloc),
        }
    }
}

// The counter of arrays of this many words, if there is one.
fn line_turn(turns: &Turns, words: u32) -> Option<Net>
    ensures found { IfSome result (λ n. (b : Netlist) → AreTurns b turns.now → IsTurn b words n) }
    ensures listed { is_some result ≡ list_any (λ (y : ℕ). y == words) (line_words turns.now) }
{
    for k in 0..turns.lines.len() {
        let (count, net) = turns.lines[k];
        if count == words {
            return Some(net);
        }
    }
    None
}

// The same of arrays that are read one clock ahead.
fn block_turn(turns: &Turns, words: u32) -> Option<Indices>
    ensures found { IfSome result (λ at. (b : Netlist) → AreTurns b turns.now
        → AreIndices b words at) }
    ensures listed { is_some result ≡ list_any (λ (y : ℕ). y == words) (block_words turns.now) }
{
    for k in 0..turns.blocks.len() {
        let (count, at) = turns.blocks[k];
        if count == words {
            return Some(at);
        }
    }
    None
}

// The one index of an array of one word: 0, without a register.
fn no_turn(b: &mut Builder) -> Result<Net, OutOfMemory>
    ensures logic { AddsLogic b.new b.old }
    ensures turn { IfOk result (IsTurn b.new 1) }
{
    let net = gate(b, Right::Copy(number(1, 0)))?;
    Ok(net)
}

// An index that goes through this many words, a word in each counted clock, from the first on after a reset.
fn new_turn(b: &mut Builder, words: u32) -> Result<Net, OutOfMemory>
    requires { IsDepth words }
    ensures { Makes b.new b.old result (AddsTurn b.new b.old words) }
{
    if words == 1 {
        let net = no_turn(b)?;
        return Ok(net);
    }
    let last = u64::from(words) - 1;
    let index = counter(b, last)?;
    Ok(index)
}

// The index of arrays of this many words: the one that there is, or a new one.
pub fn turning_index(b: &mut Builder, turns: &mut Turns, words: u32) -> Result<Net, OutOfMemory>
    requires words { IsDepth words }
    requires turns { AreTurns b.old turns.old }
    ensures { Makes b.new b.old result (SharesTurn b.new b.old turns.new turns.old words) }
{
    if let Some(net) = line_turn(turns, words) {
        return Ok(net);
    }
    let net = new_turn(b, words)?;
    turns.lines.push((words, net))?;
    Ok(net)
}

// The indices of arrays of this many words that are read one clock ahead. In a reset clock that of the write is the last, so that 0 follows.
pub fn turning_indices(
    b: &mut Builder,
    turns: &mut Turns,
    words: u32,
) -> Result<Indices, OutOfMemory>
    requires words { IsDepth words }
    requires turns { AreTurns b.old turns.old }
    ensures { Makes b.new b.old result (SharesTurns b.new b.old turns.new turns.old words) }
{
    if let Some(at) = block_turn(turns, words) {
        return Ok(at);
    }
    let at = new_turns(b, words)?;
    turns.blocks.push((words, at))?;
    Ok(at)
}

// New ones.
fn new_turns(b: &mut Builder, words: u32) -> Result<Indices, OutOfMemory>
    requires { IsDepth words }
    ensures { Makes b.new b.old result (AddsTurns b.new b.old words) }
{
    let last = u64::from(words) - 1;
    let indices = cycle(b, last)?;
    Ok(indices)
}
