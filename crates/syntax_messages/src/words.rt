// What a message has after its head, and words that sentences share.

use dk_base::OutOfMemory;
use source_places::{PlainText, place_of};
use std::alloc::{AllocError, Global};

/// What a message has after its head: a sentence, an excerpt and help. Once memory is out it has gaps, and `finished` is an error.
#[derive(Drop)]
pub struct Detail {
    text: PlainText,
    has_gaps: bool,
}

impl Detail {
    /// None of it yet. It takes no memory.
    pub fn new(alloc: Global) -> Detail {
        Detail {
            text: PlainText::new(alloc),
            has_gaps: false,
        }
    }

    /// The whole text.
    pub fn finished(self) -> Result<PlainText, OutOfMemory> {
        if self.has_gaps {
            return Err(AllocError);
        }
        Ok(self.text)
    }

    // Notes whether something was added.
    fn note(&mut self, added: Result<(), OutOfMemory>) {
        if added.is_err() {
            self.has_gaps = true;
        }
    }

    /// Adds a text.
    pub fn push(&mut self, text: &str) {
        let added = self.text.push(text);
        self.note(added);
    }

    /// Adds bytes.
    pub fn push_bytes(&mut self, bytes: &[u8]) {
        let added = self.text.push_bytes(bytes);
        self.note(added);
    }

    /// Adds a number in decimal.
    pub fn push_number(&mut self, number: u64) {
        let added = self.text.push_number(number);
        self.note(added);
    }

    /// Adds a text that was made apart, if there was memory for it.
    pub(crate) fn append(&mut self, made: Result<PlainText, OutOfMemory>) {
        match made {
            Ok(text) => self.push_bytes(text.as_bytes()),
            Err(_) => self.has_gaps = true,
        }
    }

    /// Notes that memory is out.
    pub(crate) fn fail(&mut self) {
        self.has_gaps = true;
    }
}

/// Adds bytes of the source between quotes.
pub fn push_quoted(to: &mut Detail, bytes: &[u8]) {
    to.push("`");
    to.push_bytes(bytes);
    to.push("`");
}

/// Adds a sentence with a number in it.
pub fn push_numbered(to: &mut Detail, before: &str, number: u64, after: &str) {
    to.push(before);
    to.push_number(number);
    to.push(after);
}

/// Begins a line of help.
pub fn begin_help(to: &mut Detail) {
    to.push("\n     = help: ");
}

/// Adds a line of help.
pub fn push_help(to: &mut Detail, text: &str) {
    begin_help(to);
    to.push(text);
}

/// Adds the place of a byte of a text.
pub fn push_place(to: &mut Detail, text: &[u8], at: usize) {
    let at = place_of(text, at);
    push_numbered(to, "at line ", at.line, ", column ");
    to.push_number(at.column);
}
