// Excerpts of a text.

use crate::position::{front, last_line, place_of};
use crate::text::PlainText;
use dk_base::{OutOfMemory, Span};
use std::alloc::Global;

// The greatest width of what an excerpt shows of a line, in columns.
const LINE_COLUMNS: usize = 100;

// The greatest width of what it shows before the span, where the line is longer.
const FRONT_COLUMNS: usize = 40;

// The least width of a line number.
const NUMBER_COLUMNS: usize = 4;

// How a byte of a line is shown.
enum Shown {
    Itself,
    Blank,
    Escape,
}

// A line of a text, with a place in it.
#[derive(Clone, Copy)]
struct Line<'a> {
    number: u64,
    // What is shown before the place, and after it.
    front: &'a [u8],
    back: &'a [u8],
    // Whether the line goes on to either side.
    is_cut_before: bool,
    is_cut_after: bool,
}

fn appearance(byte: u8) -> Shown {
    if byte == b'\t' {
        Shown::Blank
    } else if byte < 32 || 126 < byte {
        Shown::Escape
    } else {
        Shown::Itself
    }
}

// The number of columns in which a byte is shown.
fn columns_of(byte: u8) -> usize {
    match appearance(byte) {
        Shown::Itself | Shown::Blank => 1,
        Shown::Escape => 4,
    }
}

// The number of columns in which bytes are shown.
fn columns(bytes: &[u8]) -> usize {
    let mut count: usize = 0;
    for byte in bytes {
        count = count.saturating_add(columns_of(*byte));
    }
    count
}

// The last bytes, as many as the columns hold.
fn last_columns(bytes: &[u8], room: usize) -> &[u8] {
    let mut left = columns(bytes);
    for (k, byte) in bytes.iter().enumerate() {
        if left <= room {
            let (_, back) = bytes.split_at(k);
            return back;
        }
        left = left.saturating_sub(columns_of(*byte));
    }
    front(bytes, 0)
}

// The first bytes, as many as the columns hold.
fn first_columns(bytes: &[u8], room: usize) -> &[u8] {
    let mut used: usize = 0;
    for (k, byte) in bytes.iter().enumerate() {
        used = used.saturating_add(columns_of(*byte));
        if room < used {
            return front(bytes, k);
        }
    }
    bytes
}

// The bytes of a text from a place on.
fn back(text: &[u8], at: usize) -> &[u8] {
    let (_, back) = text.split_at(at.min(text.len()));
    back
}

// The bytes before the first line end. A CR before it belongs to the end.
fn first_line(text: &[u8]) -> &[u8] {
    let count = text.iter().take_while(|byte| **byte != b'\n').count();
    let line = front(text, count);
    match line.split_last() {
        Some((b'\r', line)) => line,
        _ => line,
    }
}

// The line of a place of a text, cut to the greatest width.
fn line_at(text: &[u8], at: usize) -> Line<'_> {
    let before = last_line(front(text, at));
    let after = first_line(back(text, at));
    let spare = LINE_COLUMNS.saturating_sub(columns(after));
    let shown_front = last_columns(before, spare.max(FRONT_COLUMNS));
    let room = LINE_COLUMNS.saturating_sub(columns(shown_front));
    let shown_back = first_columns(after, room);
    Line {
        number: place_of(text, at).line,
        front: shown_front,
        back: shown_back,
        is_cut_before: shown_front.len() < before.len(),
        is_cut_after: shown_back.len() < after.len(),
    }
}

// The digit of a number below 16.
fn hexadecimal(value: u8) -> u8 {
    if value < 10 {
        value.saturating_add(b'0')
    } else {
        value.saturating_add(b'a' - 10)
    }
}

// Adds a byte of a line.
fn push_shown(to: &mut PlainText, byte: u8) -> Result<(), OutOfMemory> {
    match appearance(byte) {
        Shown::Itself => to.push_byte(byte)?,
        Shown::Blank => to.push_byte(b' ')?,
        Shown::Escape => {
            to.push("\\x")?;
            to.push_byte(hexadecimal(byte / 16))?;
            to.push_byte(hexadecimal(byte % 16))?;
        }
    }
    Ok(())
}

// Adds bytes of a line.
fn push_all_shown(to: &mut PlainText, bytes: &[u8]) -> Result<(), OutOfMemory> {
    for byte in bytes {
        push_shown(to, *byte)?;
    }
    Ok(())
}

// Adds the number of a line, with blanks before it.
fn push_aligned(to: &mut PlainText, number: u64) -> Result<(), OutOfMemory> {
    to.push_times(b' ', NUMBER_COLUMNS.saturating_sub(digits(number)))?;
    to.push_number(number)?;
    Ok(())
}

// The number of decimal digits of a number.
fn digits(number: u64) -> usize {
    let mut bound: u64 = 10;
    let mut count: usize = 1;
    for _ in 1..20 {
        if number < bound {
            return count;
        }
        bound = bound.saturating_mul(10);
        count = count.saturating_add(1);
    }
    count
}

// Whether nothing of the line is shown.
fn is_empty(line: Line<'_>) -> bool {
    line.front.is_empty() && line.back.is_empty()
}

// Adds the source line.
fn push_line(to: &mut PlainText, line: Line<'_>) -> Result<(), OutOfMemory> {
    to.push("\n")?;
    push_aligned(to, line.number)?;
    to.push(" |")?;
    to.push(if is_empty(line) { "" } else { " " })?;
    to.push(if line.is_cut_before { ".. " } else { "" })?;
    push_all_shown(to, line.front)?;
    push_all_shown(to, line.back)?;
    to.push(if line.is_cut_after { " .." } else { "" })?;
    Ok(())
}

// Adds the line below it, with carets below its first bytes after the place, at least one.
fn push_carets(to: &mut PlainText, line: Line<'_>, marked: usize) -> Result<(), OutOfMemory> {
    to.push("\n")?;
    to.push_times(b' ', digits(line.number).max(NUMBER_COLUMNS))?;
    to.push(" | ")?;
    to.push(if line.is_cut_before { "   " } else { "" })?;
    to.push_times(b' ', columns(line.front))?;
    to.push_times(b'^', columns(front(line.back, marked)).max(1))?;
    Ok(())
}

/// The source line in which a span begins, and a line with carets below the span, each after an LF. A line of more than 100 columns is cut around the span, with `..` where it is cut. A tab is shown as a blank, and a byte that is not printable ASCII as `\x` and two digits. A span that goes on after its first line is marked to the end of that line.
pub fn excerpt(alloc: Global, text: &[u8], span: Span) -> Result<PlainText, OutOfMemory> {
    let line = line_at(text, span.start);
    let mut shown = PlainText::new(alloc);
    push_line(&mut shown, line)?;
    push_carets(&mut shown, line, span.stop.saturating_sub(span.start))?;
    Ok(shown)
}
