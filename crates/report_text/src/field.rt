// Words, numbers and names at the front of a line.

ghost use Rattle.std.specs.Prelude.{◌≡◌, ◌≤◌, ◌+◌, ◌*◌, ◌-◌, ◌^◌, Some, None, MatchOption, IfOk, length, codes, position};
ghost use Rattle.std.specs.List.{prefix_len};
ghost use Rattle.dk_base.specs.Ascii.{is_digit as digit};
ghost use Rattle.std.specs.Str.{bytes_eq};
ghost use Rattle.dk_base.specs.Ascii.{value_of};
ghost use Rattle.report_text.specs.Reading.{strip as strip_of, is_end as end, is_canonical as canonical, numeral as numeral_of, number_at as number_of, offset_at as offset_of, unsigned_at, negative_at, word_at as word_of, number_line_at, pair_line_at, image_at, find as find_of, amount_at};

use crate::report::ImageLine;
use crate::word::same;
use dk_base::{MAX_SIDE, OutOfMemory, Text, digits_length, word_length};
use source_words::is_name;
use std::alloc::Global;

// The greatest size of an offset, to either side.
const MAX_OFFSET: u64 = MAX_SIDE as u64 - 1;

// The bytes after a word.
pub(crate) fn strip<'a>(word: &[u8], bytes: &'a [u8]) -> Option<&'a [u8]>
    ensures { MatchOption result (strip_of word.now bytes.now ≡ None) (λ rest. strip_of word.now bytes.now ≡ Some rest.now) }
{
    bytes.strip_prefix(word)
}

// Whether the bytes are an LF and nothing else.
fn is_end(bytes: &[u8]) -> bool
    ensures { result ≡ end bytes.now }
{
    match bytes {
        [last] => *last == b'\n',
        _ => false,
    }
}

// A number with one digit more, unless it passes 64 bits.
fn with_digit(value: u64, digit: u8) -> Option<u64>
    ensures { MatchOption result (2 ^ 64 ≤ 10 * value + (digit - 48)) (λ v. v ≡ 10 * value + (digit - 48)) }
{
    value
        .checked_mul(10)?
        .checked_add(u64::from(digit.saturating_sub(b'0')))
}

// The number of these digits, unless it passes 64 bits.
fn value(digits: &[u8]) -> Option<u64>
    ensures { MatchOption result (2 ^ 64 ≤ value_of digits.now) (λ v. v ≡ value_of digits.now) }
{
    let mut value: u64 = 0;
    for digit in digits {
        value = with_digit(value, *digit)?;
    }
    Some(value)
}

fn is_canonical(digits: &[u8]) -> bool
    ensures { result ≡ canonical digits.now }
{
    match digits {
        [] => false,
        [_] => true,
        [first, ..] => *first != b'0',
    }
}

fn numeral(digits: &[u8]) -> Option<u64>
    ensures { MatchOption result (numeral_of digits.now ≡ None) (λ n. numeral_of digits.now ≡ Some n) }
{
    if !is_canonical(digits) {
        return None;
    }
    value(digits)
}

// The number at the front, without leading zeros, and the bytes after it.
#[tactic(auto, unfolding(crate::specs::Reading::number_at))]
fn number_at(bytes: &[u8]) -> Option<(u64, &[u8])>
    ensures { MatchOption result (number_of bytes.now ≡ None) (λ x. number_of bytes.now ≡ Some (x.0, x.1.now)) }
{
    let (digits, rest) = bytes.split_at(digits_length(bytes));
    match numeral(digits) {
        None => None,
        Some(value) => Some((value, rest)),
    }
}

fn unsigned(bytes: &[u8]) -> Option<(i32, &[u8])>
    ensures { MatchOption result (unsigned_at bytes.now ≡ None) (λ x. unsigned_at bytes.now ≡ Some (x.0, x.1.now)) }
{
    let (value, rest) = number_at(bytes)?;
    if value > MAX_OFFSET {
        return None;
    }
    Some((value as i32, rest))
}

fn negative(bytes: &[u8]) -> Option<(i32, &[u8])>
    ensures { MatchOption result (negative_at bytes.now ≡ None) (λ x. negative_at bytes.now ≡ Some (x.0, x.1.now)) }
{
    let (value, rest) = number_at(bytes)?;
    if value == 0 || value > MAX_OFFSET {
        return None;
    }
    Some((-(value as i32), rest))
}

// The offset at the front, and the bytes after it.
#[tactic(auto, unfolding(crate::specs::Reading::offset_at))]
pub(crate) fn offset_at(bytes: &[u8]) -> Option<(i32, &[u8])>
    ensures { MatchOption result (offset_of bytes.now ≡ None) (λ x. offset_of bytes.now ≡ Some (x.0, x.1.now)) }
{
    match strip(b"-", bytes) {
        None => unsigned(bytes),
        Some(after) => negative(after),
    }
}

// The letters, digits and `_` at the front, and the bytes after them.
pub(crate) fn word_at(bytes: &[u8]) -> (&[u8], &[u8])
    ensures word { result.0.now ≡ (word_of bytes.now).0 }
    ensures rest { result.1.now ≡ (word_of bytes.now).1 }
{
    bytes.split_at(word_length(bytes))
}

// The number of a line that is a word and a number.
#[tactic(auto, unfolding(crate::specs::Reading::number_line_at))]
pub(crate) fn number_line(word: &[u8], line: &[u8]) -> Option<u64>
    ensures { MatchOption result (number_line_at word.now line.now ≡ None) (λ n. number_line_at word.now line.now ≡ Some n) }
{
    let rest = strip(word, line)?;
    let (number, after) = number_at(rest)?;
    if is_end(after) { Some(number) } else { None }
}

// The numbers of a line that is a word and two numbers.
#[tactic(auto, unfolding(crate::specs::Reading::pair_line_at))]
pub(crate) fn pair_line(word: &[u8], line: &[u8]) -> Option<(u64, u64)>
    ensures { MatchOption result (pair_line_at word.now line.now ≡ None) (λ x. pair_line_at word.now line.now ≡ Some x) }
{
    let rest = strip(word, line)?;
    let (first, after) = number_at(rest)?;
    let second = number_line(b" ", after)?;
    Some((first, second))
}

// A flow of at least 1, after a blank.
pub(crate) fn amount(bytes: &[u8]) -> Option<u64>
    ensures { MatchOption result (amount_at bytes.now ≡ None) (λ n. amount_at bytes.now ≡ Some n) }
{
    let flow = number_line(b" ", bytes)?;
    if flow > 0 { Some(flow) } else { None }
}

// The parts of an image line.
#[derive(Clone, Copy, Drop)]
pub(crate) struct ImageParts<'a> {
    pub name: &'a [u8],
    pub width: u8,
    pub delay: u64,
    pub depth: u64,
}

// An image line, its name not owned yet.
#[tactic(auto, unfolding(crate::specs::Reading::image_at))]
pub(crate) fn image_parts(line: &[u8]) -> Option<ImageParts<'_>>
    ensures { MatchOption result (image_at line.now ≡ None) (λ i. image_at line.now
        ≡ Some (record { name = i.name.now; width = i.width; delay = i.delay; depth = i.depth })) }
{
    let rest = strip(b"image ", line)?;
    let (name, behind) = word_at(rest);
    let after = strip(b" ", behind)?;
    let (width, bits) = number_at(after)?;
    let (delay, depth) = pair_line(b" ", bits)?;
    if is_name(name) && width > 0 && width < 65 {
        Some(ImageParts {
            name,
            width: width as u8,
            delay,
            depth,
        })
    } else {
        None
    }
}

// The image line of these parts.
pub(crate) fn owned(alloc: Global, parts: &ImageParts<'_>) -> Result<ImageLine, OutOfMemory>
    ensures { IfOk result (λ i. i ≡ record { name = parts.now.name.now; width = parts.now.width; delay = parts.now.delay; depth = parts.now.depth }) }
{
    Ok(ImageLine {
        name: Text::new(Vec::from_slice(alloc, parts.name)?),
        width: parts.width,
        delay: parts.delay,
        depth: parts.depth,
    })
}

fn first_place(images: &[ImageLine], name: &[u8]) -> Option<usize>
    ensures { result ≡ position (λ i. bytes_eq i.name name.now) images.now }
{
    images
        .iter()
        .position(|image| same(image.name.as_bytes(), name))
}

// The place of the image line of this name.
pub(crate) fn find(images: &[ImageLine], name: &[u8]) -> Option<usize>
    ensures { MatchOption result (find_of images.now name.now ≡ None) (λ k. find_of images.now name.now ≡ Some k) }
{
    first_place(images, name)
}
