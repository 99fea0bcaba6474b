// What helps where it depends on more than the mistake.

use crate::words::{Detail, push_help, push_quoted};
use source_words::Keyword;

/// What helps where an operator has too many operands.
pub(crate) fn too_many_help(function: Keyword) -> &'static str {
    match function {
        Keyword::Min => "`min` has two operands: write `min(min(p, q), r)` for three",
        Keyword::Max => "`max` has two operands: write `max(max(p, q), r)` for three",
        Keyword::Abs | Keyword::Sat | Keyword::Select => too_few_help(function),
        Keyword::Size | Keyword::Input | Keyword::Let | Keyword::Inline | Keyword::Im => "",
        Keyword::End | Keyword::Output | Keyword::As | Keyword::X | Keyword::Y => "",
        Keyword::Edge | Keyword::Clamp => "",
    }
}

/// What helps where an operator has too few operands.
pub(crate) fn too_few_help(function: Keyword) -> &'static str {
    match function {
        Keyword::Min => "`min` has two operands: `min(p, q)`",
        Keyword::Max => "`max` has two operands: `max(p, q)`",
        Keyword::Abs => "`abs` has one operand: `abs(p)`",
        Keyword::Sat => "`sat` has one operand and a type: `sat(p, u8)`",
        Keyword::Select => {
            "`select` has three operands: `select(c, p, q)` is p where c is 1, and q elsewhere"
        }
        Keyword::Size | Keyword::Input | Keyword::Let | Keyword::Inline | Keyword::Im => "",
        Keyword::End | Keyword::Output | Keyword::As | Keyword::X | Keyword::Y => "",
        Keyword::Edge | Keyword::Clamp => "",
    }
}

// The digit that a byte is.
fn digit(byte: u8) -> Option<u8> {
    match byte {
        b'0'..=b'9' => byte.checked_sub(b'0'),
        b'a'..=b'f' => byte.checked_sub(b'a' - 10),
        b'A'..=b'F' => byte.checked_sub(b'A' - 10),
        _ => None,
    }
}

// The number of these digits.
fn value(digits: &[u8], base: u64) -> Option<u64> {
    let mut value: u64 = 0;
    for byte in digits {
        let digit = u64::from(digit(*byte)?);
        if base <= digit {
            return None;
        }
        value = value.checked_mul(base)?.checked_add(digit)?;
    }
    Some(value)
}

// The base of a letter after a 0.
fn base(letter: u8) -> u64 {
    match letter {
        b'x' | b'X' => 16,
        b'o' | b'O' => 8,
        _ => 2,
    }
}

// The number of a word after a 0, if it has digits.
fn radix_value(word: &[u8]) -> Option<u64> {
    let (letter, digits) = word.split_first()?;
    if digits.is_empty() {
        return None;
    }
    value(digits, base(*letter))
}

/// Adds the help on a number of another base, with the one in decimal that a word after a 0 denotes.
pub(crate) fn push_radix(to: &mut Detail, word: &[u8]) {
    push_help(to, "numbers are decimal");
    let Some(value) = radix_value(word) else {
        return;
    };
    to.push(": write ");
    to.push_number(value);
    to.push(" for `0");
    to.push_bytes(word);
    to.push("`");
}

/// Whether a word is one of these, with a blank between them.
pub(crate) fn is_among(words: &str, word: &[u8]) -> bool {
    for other in words.split(' ') {
        if other.as_bytes() == word {
            return true;
        }
    }
    false
}

// Types of other languages, and that of the language for them.
const KNOWN_TYPES: [(&str, &str); 9] = [
    ("bool bit logic wire reg", "u1"),
    ("byte char uchar uint8 uint8_t U8", "u8"),
    ("int8 int8_t i8 S8", "s8"),
    ("short int16 int16_t i16", "s16"),
    ("ushort uint16 uint16_t U16", "u16"),
    ("int int32 int32_t i32", "s32"),
    ("uint uint32 uint32_t unsigned", "u32"),
    ("long int64 int64_t i64", "s64"),
    ("ulong uint64 uint64_t", "u64"),
];

// The type beside the word in a table. None if it is not there.
fn known_type(table: &[(&'static str, &'static str)], word: &[u8]) -> Option<&'static str> {
    for entry in table {
        if is_among(entry.0, word) {
            return Some(entry.1);
        }
    }
    None
}

/// Adds the help on a word that is no type, with the one that is written for that of another language.
pub(crate) fn push_type_guess(to: &mut Detail, word: &[u8]) {
    push_help(
        to,
        "types are `u1` to `u64`, unsigned, and `s1` to `s64`, signed",
    );
    let Some(known) = known_type(&KNOWN_TYPES, word) else {
        return;
    };
    to.push("; write `");
    to.push(known);
    to.push("` for ");
    push_quoted(to, word);
}
