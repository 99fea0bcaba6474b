// Chains: an array for each two neighbouring ages, of which one word is read and then written in each clock, or read one clock ahead.

ghost use Rattle.std.specs.Prelude.{◌≡◌, ◌≤◌, ℕ, Bool, true, false, Some};
ghost use Rattle.line_buffer.specs.Buffers.{CanBeBuffered};
ghost use Rattle.line_buffer.specs.Feeds.{CanFeed, CanGoOn};
ghost use Rattle.line_buffer.specs.Indices.{is_long};
ghost use Rattle.line_buffer.specs.Shares.{AddsChain, Makes, SharesChain, SharesSegment, SharesStep};
ghost use Rattle.line_buffer.specs.SharedCounters.{AreTurns};

use crate::blocks::block_line;
use crate::images::BufferedImage;
use crate::lines::delay_line;
use crate::sharing::{Turns, turning_indices};
use dk_base::OutOfMemory;
use net_build::Builder;
use std::alloc::Global;
use wiring::Net;

// A net, and how many clocks its pixel is after the image's.
#[derive(Clone, Copy)]
pub struct Tap {
    pub age: u64,
    pub net: Net,
}

// Whether an array of this many words is long.
fn is_long(words: u32, least: Option<u32>) -> bool
    ensures { result ≡ is_long least words }
{
    match least {
        Some(fewest) => fewest <= words,
        None => false,
    }
}

// A segment whose word is read at the index of its write.
fn line_segment(
    b: &mut Builder,
    turns: &mut Turns,
    width: u8,
    words: u32,
    from: Net,
) -> Result<Net, OutOfMemory>
    requires feed { CanFeed b.old width words from }
    requires turns { AreTurns b.old turns.old }
    ensures { Makes b.new b.old result (λ n. (long : ℕ → Bool) → long words ≡ false
        → SharesSegment b.new b.old turns.new turns.old width words long from n) }
{
    let line = delay_line(b, turns, width, words, from)?;
    Ok(line.word)
}

// A segment whose word is read one clock ahead, into a register.
fn block_segment(
    b: &mut Builder,
    turns: &mut Turns,
    width: u8,
    words: u32,
    from: Net,
) -> Result<Net, OutOfMemory>
    requires feed { CanFeed b.old width words from }
    requires some { 2 ≤ words }
    requires turns { AreTurns b.old turns.old }
    ensures { Makes b.new b.old result (λ n. (long : ℕ → Bool) → long words ≡ true
        → SharesSegment b.new b.old turns.new turns.old width words long from n) }
{
    let at = turning_indices(b, turns, words)?;
    let net = block_line(b, width, words, from, at)?;
    Ok(net)
}

// The net of n clocks later, which comes out of a segment.
fn segment(
    b: &mut Builder,
    turns: &mut Turns,
    width: u8,
    words: u32,
    from: Net,
    least: Option<u32>,
) -> Result<Net, OutOfMemory>
    requires feed { CanFeed b.old width words from }
    requires two { (n : ℕ) → least ≡ Some n → 2 ≤ n }
    requires turns { AreTurns b.old turns.old }
    ensures { Makes b.new b.old result (SharesSegment b.new b.old turns.new turns.old width words
        (is_long least) from) }
{
    if is_long(words, least) {
        let net = block_segment(b, turns, width, words, from)?;
        return Ok(net);
    }
    let net = line_segment(b, turns, width, words, from)?;
    Ok(net)
}

// The net of an age that is no less.
fn next_tap(
    b: &mut Builder,
    turns: &mut Turns,
    width: u8,
    from: Tap,
    age: u64,
    least: Option<u32>,
) -> Result<Tap, OutOfMemory>
    requires next { CanGoOn b.old width from age }
    requires two { (n : ℕ) → least ≡ Some n → 2 ≤ n }
    requires turns { AreTurns b.old turns.old }
    ensures { Makes b.new b.old result (SharesStep b.new b.old turns.new turns.old width
        (is_long least) from age) }
{
    if age == from.age {
        return Ok(from);
    }
    let words = (age - from.age) as u32;
    let net = segment(b, turns, width, words, from.net, least)?;
    Ok(Tap { age, net })
}

// A net for each age, from the segments of a chain.
fn chained(
    alloc: Global,
    b: &mut Builder,
    turns: &mut Turns,
    image: BufferedImage,
    least: Option<u32>,
) -> Result<Vec<Net>, OutOfMemory>
    requires image { CanBeBuffered b.old image.net image.width image.ages.now }
    requires two { (n : ℕ) → least ≡ Some n → 2 ≤ n }
    requires turns { AreTurns b.old turns.old }
    ensures { Makes b.new b.old result (λ taps. SharesChain b.new b.old turns.new turns.old
        image.entry.width (is_long least) image.entry.net image.entry.ages.now taps.items) }
{
    let mut nets = Vec::new(alloc);
    let mut last = Tap {
        age: 0,
        net: image.net,
    };
    for age in image.ages {
        last = next_tap(b, turns, image.width, last, *age, least)?;
        nets.push(last.net)?;
    }
    Ok(nets)
}

/// The buffer of an image, as a chain: for each of its ages a net, the image's net of that many counted clocks before.
///
/// The ages ascend. There is one array for each age above 0, of as many words as lie between this age and the one before. Fails only if out of memory; the builder then still has what it had.
pub fn chain(
    alloc: Global,
    b: &mut Builder,
    turns: &mut Turns,
    image: BufferedImage,
) -> Result<Vec<Net>, OutOfMemory>
    requires image { CanBeBuffered b.old image.net image.width image.ages.now }
    requires turns { AreTurns b.old turns.old }
    ensures { Makes b.new b.old result (λ taps. AddsChain b.new b.old turns.new turns.old
        image.entry.width image.entry.net image.entry.ages.now taps.items) }
{
    let nets = chained(alloc, b, turns, image, None)?;
    Ok(nets)
}

/// The buffer of an image, as a chain in which each array of at least `least` words can be a block memory: it is read one clock ahead, into a register that copies its word. The arrays and their words are those of `chain`.
pub fn block_chain(
    alloc: Global,
    b: &mut Builder,
    turns: &mut Turns,
    image: BufferedImage,
    least: u32,
) -> Result<Vec<Net>, OutOfMemory>
    requires image { CanBeBuffered b.old image.net image.width image.ages.now }
    requires two { 2 ≤ least }
    requires turns { AreTurns b.old turns.old }
    ensures { Makes b.new b.old result (λ taps. SharesChain b.new b.old turns.new turns.old
        image.entry.width (is_long (Some least)) image.entry.net image.entry.ages.now taps.items) }
{
    let nets = chained(alloc, b, turns, image, Some(least))?;
    Ok(nets)
}
