// Text that any terminal can show.

ghost use Rattle.std.specs.Prelude.{◌≡◌, ◌≤◌, [], IsTrue, ◌↔◌, length, IfOk};
ghost use Rattle.source_places.specs.Plain.{is_plain as plain};

use crate::MAX_PLAIN_BYTES;
use dk_base::OutOfMemory;
use itoa::Buffer;
use std::alloc::Global;
use std::marker::Model;

/// Text that any terminal can show: each byte is LF or printable ASCII, and there are at most `MAX_PLAIN_BYTES`. What is added and is not plain, or does not fit, is left out.
#[derive(Drop)]
pub struct PlainText {
    bytes: Vec<u8>,
}

impl Model for PlainText {
    ghost use Rattle.std.specs.Prelude.{ℕ, List};
    ghost use Rattle.source_places.specs.Plain.{IsPlainText};

    ghost Value = { List ℕ };

    ghost view = { λ t. t.bytes.items };

    ghost invariant = { λ t. IsPlainText t.bytes.items };
}

// Whether a terminal can show the byte.
pub(crate) fn is_plain(byte: u8) -> bool
    ensures { result ≡ plain byte }
{
    byte == b'\n' || (31 < byte && byte < 127)
}

impl PlainText {
    ghost use Rattle.std.specs.Prelude.{◌≡◌, []};
    ghost use Rattle.source_places.specs.Plain.{IsPlainText};

    /// A text with no bytes. It takes no memory.
    pub fn new(alloc: Global) -> PlainText
        ensures { result ≡ [] }
    {
        PlainText {
            bytes: Vec::new(alloc),
        }
    }

    /// The bytes.
    pub fn as_bytes(&self) -> &[u8]
        ensures bytes { result.now ≡ self.now }
        ensures plain { IsPlainText self.now }
    {
        &self.bytes
    }

    /// Adds a byte.
    pub fn push_byte(&mut self, byte: u8) -> Result<(), OutOfMemory> {
        if is_plain(byte) && self.bytes.len() < MAX_PLAIN_BYTES {
            self.bytes.push(byte)?;
        }
        Ok(())
    }

    /// Adds bytes.
    pub fn push_bytes(&mut self, bytes: &[u8]) -> Result<(), OutOfMemory> {
        for byte in bytes {
            self.push_byte(*byte)?;
        }
        Ok(())
    }

    /// Adds a text.
    pub fn push(&mut self, text: &str) -> Result<(), OutOfMemory> {
        self.push_bytes(text.as_bytes())?;
        Ok(())
    }

    /// Adds a number in decimal.
    pub fn push_number(&mut self, number: u64) -> Result<(), OutOfMemory> {
        let mut digits = Buffer::new();
        self.push(digits.format(number))?;
        Ok(())
    }

    /// Adds a byte as many times as `count` states.
    pub fn push_times(&mut self, byte: u8, count: usize) -> Result<(), OutOfMemory> {
        for _ in 0..count.min(MAX_PLAIN_BYTES) {
            self.push_byte(byte)?;
        }
        Ok(())
    }
}
