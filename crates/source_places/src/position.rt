// Lines and columns.

ghost use Rattle.std.specs.Prelude.{◌≡◌, suc, take, count_by};
ghost use Rattle.source_places.specs.Places.{is_line_end as line_end, begins_character as begins, last_line as the_last_line};

/// A place in a text. Both numbers begin at 1. A column is a character of UTF-8.
#[derive(Clone, Copy)]
pub struct TextPosition {
    pub line: u64,
    pub column: u64,
}

// The first bytes of a text, at most `count`.
pub(crate) fn front(text: &[u8], count: usize) -> &[u8]
    ensures { result.now ≡ take count text.now }
{
    if text.len() <= count {
        return text;
    }
    let (front, _) = text.split_at(count);
    front
}

// The bytes after the last line end.
pub(crate) fn last_line(text: &[u8]) -> &[u8]
    ensures { result.now ≡ the_last_line text.now }
{
    let mut line = text;
    for (k, byte) in text.iter().enumerate() {
        if *byte == b'\n' {
            let (_, after) = text.split_at(k + 1);
            line = after;
        }
    }
    line
}

/// The place of a byte of a text. A byte past the end has the place of the end.
pub fn place_of(text: &[u8], at: usize) -> TextPosition
    ensures line { result.line ≡ suc (count_by line_end (take at text.now)) }
    ensures column { result.column ≡ suc (count_by begins (the_last_line (take at text.now))) }
{
    let before = front(text, at);
    let line_ends = before.iter().filter(|byte| **byte == b'\n').count();
    let line = last_line(before);
    let characters = line
        .iter()
        .filter(|byte| **byte < 128 || 191 < **byte)
        .count();
    TextPosition {
        line: line_ends as u64 + 1,
        column: characters as u64 + 1,
    }
}
