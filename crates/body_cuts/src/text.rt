// Texts that are put together.

use body_terms::{push_number, push_type};
use dk_base::{OutOfMemory, Ty};
use std::alloc::{AllocError, Global};

// A text. Once memory is out it has gaps, and `finished` is an error.
#[derive(Drop)]
pub(crate) struct GrowingText {
    bytes: Vec<u8>,
    has_gaps: bool,
}

impl GrowingText {
    // The empty text.
    pub(crate) fn new(alloc: Global) -> GrowingText {
        GrowingText {
            bytes: Vec::new(alloc),
            has_gaps: false,
        }
    }

    // Notes whether something was added.
    fn note(&mut self, added: Result<(), OutOfMemory>) {
        if added.is_err() {
            self.has_gaps = true;
        }
    }

    // Adds bytes.
    pub(crate) fn push(&mut self, bytes: &[u8]) {
        let added = self.bytes.extend_from_slice(bytes);
        self.note(added);
    }

    // Adds a number in decimal.
    pub(crate) fn push_number(&mut self, number: u32) {
        let added = push_number(&mut self.bytes, u64::from(number));
        self.note(added);
    }

    // Adds a type after a colon.
    pub(crate) fn push_typing(&mut self, ty: Ty) {
        self.push(b" : ");
        let added = push_type(&mut self.bytes, ty);
        self.note(added);
    }

    // Adds another text.
    pub(crate) fn append(&mut self, other: &GrowingText) {
        self.push(&other.bytes);
        if other.has_gaps {
            self.has_gaps = true;
        }
    }

    // The bytes of the text.
    pub(crate) fn finished(self) -> Result<Vec<u8>, OutOfMemory> {
        if self.has_gaps {
            return Err(AllocError);
        }
        Ok(self.bytes)
    }
}
