// Rings: one array for an image, of which a word is read for each age.

ghost use Rattle.std.specs.Prelude.{◌≡◌, ℕ, ◌<◌, ◌≤◌, [], ◌∷◌, length, slice_get, Some, All, IfOk};
ghost use Rattle.dk_base.specs.declared.TheConstants.{MAX_BUFFER_BITS};
ghost use Rattle.wiring.specs.declared.netlist.Net.{Net};
ghost use Rattle.wiring.specs.Sizes.{IsDepth};
ghost use Rattle.net_build.specs.Depth.{IsOver};
ghost use Rattle.net_build.specs.Logic.{AddsLogic};
ghost use Rattle.line_buffer.specs.Buffers.{CanBeBuffered};
ghost use Rattle.line_buffer.specs.Feeds.{CanGoBack};
ghost use Rattle.line_buffer.specs.Places.{depth_of};
ghost use Rattle.line_buffer.specs.Rings.{AddsTaps, AreTapsOf, IsPlaceBehind, IsRingOf, IsTapOf};
ghost use Rattle.line_buffer.specs.Shares.{AddsRing, Makes};
ghost use Rattle.line_buffer.specs.SharedCounters.{AreTurns};

use crate::images::BufferedImage;
use crate::lines::{DelayLine, delay_line};
use crate::sharing::Turns;
use dk_base::{OutOfMemory, bits_for};
use net_build::{Builder, gate, number};
use std::alloc::Global;
use wiring::{Atom, Net, Operator, Right};

// The index of the word that was written `age` clocks before the one at the index, in a ring of this many words.
fn index_behind(
    b: &mut Builder,
    index: Net,
    bits: u8,
    words: u64,
    age: u64,
) -> Result<Net, OutOfMemory>
    requires { CanGoBack b.old index bits words age }
    ensures logic { AddsLogic b.new b.old }
    ensures net { IfOk result (IsPlaceBehind b.new b.old index bits words age) }
    ensures depth { IfOk result (IsOver b.new b.old 2 (index ∷ [])) }
{
    let low = gate(
        b,
        Right::Binary(Operator::Less, Atom::Net(index), number(bits, age)),
    )?;
    let up = gate(
        b,
        Right::Binary(Operator::Add, Atom::Net(index), number(bits, words - age)),
    )?;
    let down = gate(
        b,
        Right::Binary(Operator::Subtract, Atom::Net(index), number(bits, age)),
    )?;
    let place = gate(
        b,
        Right::Choose(Atom::Net(low), Atom::Net(up), Atom::Net(down)),
    )?;
    Ok(place)
}

// A delay line for the net of an image, with the number of bits of its index and its number of words.
#[derive(Clone, Copy)]
struct RingLine {
    line: DelayLine,
    value: Net,
    bits: u8,
    words: u64,
}

// The word that was written `age` clocks before the one at the index.
fn word_behind(b: &mut Builder, ring: RingLine, age: u64) -> Result<Net, OutOfMemory>
    requires ring { IsRingOf b.old ring }
    requires some { 0 < age }
    requires short { age < ring.words }
    ensures taps { AddsTaps b.new b.old ring.line.array }
    ensures tap { IfOk result (IsTapOf b.new ring age) }
{
    let place = index_behind(b, ring.line.index, ring.bits, ring.words, age)?;
    let word = b.op(Right::Word(ring.line.array, Atom::Net(place)))?;
    Ok(word)
}

// The net of one age: the image's own, the oldest word, or one before the index.
fn ring_tap(b: &mut Builder, ring: RingLine, age: u64) -> Result<Net, OutOfMemory>
    requires ring { IsRingOf b.old ring }
    requires deep { age ≤ ring.words }
    ensures taps { AddsTaps b.new b.old ring.line.array }
    ensures tap { IfOk result (IsTapOf b.new ring age) }
{
    if age == 0 {
        return Ok(ring.value);
    }
    if age == ring.words {
        return Ok(ring.line.word);
    }
    let tap = word_behind(b, ring, age)?;
    Ok(tap)
}

// A net for each age.
fn ring_taps(
    alloc: Global,
    b: &mut Builder,
    ring: RingLine,
    ages: &[u64],
) -> Result<Vec<Net>, OutOfMemory>
    requires ring { IsRingOf b.old ring }
    requires deep { All (λ age. age ≤ ring.words) ages.now }
    ensures taps { AddsTaps b.new b.old ring.line.array }
    ensures one_each { IfOk result (λ taps. length taps.items ≡ length ages.now) }
    ensures are { IfOk result (λ taps. AreTapsOf b.new ring ages.now taps.items) }
{
    let mut nets = Vec::new(alloc);
    for age in ages {
        let tap = ring_tap(b, ring, *age)?;
        nets.push(tap)?;
    }
    Ok(nets)
}

// The last of ages that ascend, 0 without any.
fn greatest(ages: &[u64]) -> u64
    requires { All (λ age. age ≤ MAX_BUFFER_BITS) ages.now }
    ensures depth { result ≡ depth_of ages.now }
    ensures most { result ≤ MAX_BUFFER_BITS }
{
    let mut last = 0;
    for age in ages {
        last = *age;
    }
    last
}

// The image's own net for each age, if none is above 0.
fn still_taps(alloc: Global, value: Net, ages: &[u64]) -> Result<Vec<Net>, OutOfMemory>
    ensures one_each { IfOk result (λ taps. length taps.items ≡ length ages.now) }
    ensures same { IfOk result (λ taps. (k : ℕ) (tap : Net) → slice_get taps.items k ≡ Some tap
        → tap ≡ value) }
{
    let mut nets = Vec::new(alloc);
    for _ in ages {
        nets.push(value)?;
    }
    Ok(nets)
}

// The array of a ring, and its taps.
fn ring_array(
    alloc: Global,
    b: &mut Builder,
    turns: &mut Turns,
    words: u32,
    image: BufferedImage,
) -> Result<Vec<Net>, OutOfMemory>
    requires words { IsDepth words }
    requires depth { words ≡ depth_of image.ages.now }
    requires image { CanBeBuffered b.old image.net image.width image.ages.now }
    requires turns { AreTurns b.old turns.old }
    ensures { Makes b.new b.old result (λ taps. AddsRing b.new b.old turns.new turns.old
        image.entry.width image.entry.net image.entry.ages.now taps.items) }
{
    let line = delay_line(b, turns, image.width, words, image.net)?;
    let count = u64::from(words);
    let bits = bits_for(count - 1);
    let ring = RingLine {
        line,
        value: image.net,
        bits,
        words: count,
    };
    let taps = ring_taps(alloc, b, ring, image.ages)?;
    Ok(taps)
}

/// The buffer of an image, as a ring: for each of its ages a net, the image's net of that many counted clocks before.
///
/// The ages ascend. There is one array of as many words as the greatest age, and none if that is 0. Fails only if out of memory; the builder then still has what it had.
pub fn ring(
    alloc: Global,
    b: &mut Builder,
    turns: &mut Turns,
    image: BufferedImage,
) -> Result<Vec<Net>, OutOfMemory>
    requires image { CanBeBuffered b.old image.net image.width image.ages.now }
    requires turns { AreTurns b.old turns.old }
    ensures { Makes b.new b.old result (λ taps. AddsRing b.new b.old turns.new turns.old
        image.entry.width image.entry.net image.entry.ages.now taps.items) }
{
    let depth = greatest(image.ages);
    if depth == 0 {
        let still = still_taps(alloc, image.net, image.ages)?;
        return Ok(still);
    }
    let taps = ring_array(alloc, b, turns, depth as u32, image)?;
    Ok(taps)
}
