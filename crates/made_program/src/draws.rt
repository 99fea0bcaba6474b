// The numbers that are drawn.

ghost use Rattle.std.specs.Prelude.{◌≡◌, ◌<◌};
ghost use Rattle.made_program.specs.Draws.{next, drawn, after, made_even, kind_of, offset_of, reads_of, is_inlinable, draws_of};

// What a definition makes of its two reads.
#[derive(Clone, Copy)]
pub(crate) enum BodyKind {
    // Half their sum.
    Mean,
    // The greater one.
    Greater,
    // How far they lie apart.
    Difference,
    // The first one where it is less, else three parts of it and one of the second.
    Weighted,
}

// An offset, each part drawn 2 above itself.
#[derive(Clone, Copy)]
pub(crate) struct DrawnOffset {
    pub(crate) dx: u32,
    pub(crate) dy: u32,
}

// The two reads of an image.
#[derive(Clone, Copy)]
pub(crate) struct Reads {
    // The offset in the image before.
    pub(crate) first: DrawnOffset,
    // The image of the second read.
    pub(crate) source: u32,
    pub(crate) second: DrawnOffset,
}

// What is drawn for an image.
#[derive(Clone, Copy)]
pub(crate) struct Draws {
    pub(crate) kind: BodyKind,
    pub(crate) reads: Reads,
    // The image may be inline.
    pub(crate) inlinable: bool,
}

// Draws a number below `most`, by a linear congruential generator.
pub(crate) fn draw(state: &mut u16, most: u32) -> u32
    requires { 0 < most }
    ensures drawn { result ≡ drawn most state.old }
    ensures below { result < most }
    ensures state { state.new ≡ next state.old }
{
    let next = (25_173 * u32::from(*state) + 13_849) % 65_536;
    *state = next as u16;
    next / 8 % most
}

// Draws a kind.
fn draw_kind(state: &mut u16) -> BodyKind
    ensures kind { result ≡ kind_of (drawn 4 state.old) }
    ensures state { state.new ≡ next state.old }
{
    match draw(state, 4) {
        0 => BodyKind::Mean,
        1 => BodyKind::Greater,
        2 => BodyKind::Difference,
        _ => BodyKind::Weighted,
    }
}

// Draws an offset, along the row first.
fn draw_offset(state: &mut u16) -> DrawnOffset
    ensures offset { result ≡ offset_of state.old }
    ensures state { state.new ≡ after 2 state.old }
{
    let dx = draw(state, 5);
    let dy = draw(state, 5);
    DrawnOffset { dx, dy }
}

// Draws an image before image k, of even number: no inline image has one.
fn draw_source(state: &mut u16, k: u32) -> u32
    requires { 0 < k }
    ensures source { result ≡ made_even (drawn k state.old) }
    ensures before { result < k }
    ensures state { state.new ≡ next state.old }
{
    let source = draw(state, k);
    source - source % 2
}

// Draws the two reads of image k.
fn draw_reads(state: &mut u16, k: u32) -> Reads
    requires { 0 < k }
    ensures reads { result ≡ reads_of k state.old }
    ensures before { result.source < k }
    ensures state { state.new ≡ after 5 state.old }
{
    let first = draw_offset(state);
    let source = draw_source(state, k);
    let second = draw_offset(state);
    Reads {
        first,
        source,
        second,
    }
}

// Draws the mark of image k, and returns whether the image may be inline.
fn draw_mark(state: &mut u16, k: u32) -> bool
    ensures mark { result ≡ is_inlinable k (drawn 4 state.old) }
    ensures state { state.new ≡ next state.old }
{
    let mark = draw(state, 4);
    k % 2 == 1 && mark == 0
}

// Draws what belongs to image k, whether it is used or not.
pub(crate) fn draw_image(state: &mut u16, k: u32) -> Draws
    requires { 0 < k }
    ensures draws { result ≡ draws_of k state.old }
    ensures before { result.reads.source < k }
    ensures state { state.new ≡ after 7 state.old }
{
    let kind = draw_kind(state);
    let reads = draw_reads(state, k);
    let inlinable = draw_mark(state, k);
    Draws {
        kind,
        reads,
        inlinable,
    }
}
