// Names of files, as a terminal can show them.

ghost use Rattle.std.specs.Prelude.{◌≡◌, IfOk, string_bytes};
ghost use Rattle.source_places.specs.Names as names;

use dk_base::OutOfMemory;
use std::alloc::Global;

fn is_among(first: char, last: char, c: char) -> bool
    ensures { result ≡ names.is_among first last c }
{
    first <= c && c <= last
}

fn is_control(c: char) -> bool
    ensures { result ≡ names.is_control c }
{
    is_among('\0', '\x1f', c) || is_among('\x7f', '\u{9f}', c)
}

fn breaks_or_turns(c: char) -> bool
    ensures { result ≡ names.breaks_or_turns c }
{
    is_among('\u{2028}', '\u{202e}', c)
}

fn is_formless(c: char) -> bool
    ensures { result ≡ names.is_formless c }
{
    is_among('\u{ad}', '\u{ad}', c)
        || is_among('\u{34f}', '\u{34f}', c)
        || is_among('\u{61c}', '\u{61c}', c)
        || is_among('\u{115f}', '\u{1160}', c)
        || is_among('\u{17b4}', '\u{17b5}', c)
        || is_among('\u{180b}', '\u{180f}', c)
        || is_among('\u{200b}', '\u{200f}', c)
        || is_among('\u{2060}', '\u{206f}', c)
        || is_among('\u{3164}', '\u{3164}', c)
        || is_among('\u{fe00}', '\u{fe0f}', c)
        || is_among('\u{feff}', '\u{feff}', c)
        || is_among('\u{ffa0}', '\u{ffa0}', c)
        || is_among('\u{fff0}', '\u{fffb}', c)
}

fn is_formless_above(c: char) -> bool
    ensures { result ≡ names.is_formless_above c }
{
    is_among('\u{1bca0}', '\u{1bca3}', c)
        || is_among('\u{1d173}', '\u{1d17a}', c)
        || is_among('\u{e0000}', '\u{e0fff}', c)
}

fn is_hidden(c: char) -> bool
    ensures { result ≡ names.is_hidden c }
{
    is_control(c) || breaks_or_turns(c) || is_formless(c) || is_formless_above(c)
}

fn shown_character(c: char) -> char
    ensures { result ≡ names.shown_character c }
{
    if is_hidden(c) { '?' } else { c }
}

/// A name with `?` for each character that does not show itself: a control, among them line ends; a separator or a mark of direction, which would reorder the line; and what Unicode 15 calls ignorable by default. All others stay, so that an editor finds the file.
pub fn shown_name(alloc: Global, name: &str) -> Result<String, OutOfMemory>
    ensures { IfOk result (λ s. string_bytes s ≡ names.shown_name name.now) }
{
    name.chars().map(|c| shown_character(c)).collect(alloc)
}
