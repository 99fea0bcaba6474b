// Faults of tokens.

use dk_base::{MAX_NAME_BYTES, Span};
use dk_lexer::{LexFault, LexKind};
use syntax_messages::{Detail, bytes_of, push_help, push_numbered, push_quoted};

// What stands at a byte that begins no token.
#[derive(Clone, Copy)]
enum Bytes {
    /// A character of ASCII that can be shown.
    Printable(u8),
    /// The mark that some editors write at the front of a text.
    ByteOrderMark,
    /// A text of two bytes a character.
    Wide,
    Nul,
    Control,
    NotAscii,
}

// Whether the text begins with these bytes, and the span with it.
fn is_front(text: &[u8], span: Span, mark: &[u8]) -> bool {
    span.start == 0 && text.starts_with(mark)
}

fn bytes_at(text: &[u8], span: Span) -> Bytes {
    if is_front(text, span, b"\xef\xbb\xbf") {
        return Bytes::ByteOrderMark;
    }
    if is_front(text, span, b"\xff\xfe") || is_front(text, span, b"\xfe\xff") {
        return Bytes::Wide;
    }
    match text.get(span.start) {
        None | Some(0) => Bytes::Nul,
        Some(byte) if *byte < 32 || *byte == 127 => Bytes::Control,
        Some(byte) if 127 < *byte => Bytes::NotAscii,
        Some(byte) => Bytes::Printable(*byte),
    }
}

// Adds the sentence on a byte that begins no token.
fn push_byte(to: &mut Detail, text: &[u8], span: Span) {
    match bytes_at(text, span) {
        Bytes::Printable(_) => {
            push_quoted(to, bytes_of(text, span));
            to.push(" begins no token");
        }
        Bytes::ByteOrderMark => to.push("the text begins with a byte order mark"),
        Bytes::Wide => to.push("the text is in UTF-16"),
        Bytes::Nul => to.push("a byte 0 begins no token"),
        Bytes::Control => to.push("a control character begins no token"),
        Bytes::NotAscii => to.push("a character that is not ASCII begins no token"),
    }
}

// What helps with a character of ASCII.
fn character_help(byte: u8) -> &'static str {
    match byte {
        b';' => "nothing separates definitions or ends a line: leave `;` out",
        b'?' => "write `select(c, p, q)` for `c ? p : q`",
        b'.' =>
            "numbers are whole: scale them, as `p/4` for 0.25 times p or `(p*77)>>8` for 0.3 times p",
        b'#' => "a comment begins with `--` and ends with the line",
        b'%' => "there is no remainder: `p & 3` is the remainder of p by 4, for an unsigned p",
        b'~' => "there is no `~`: write `p ^ 255` for a p of `u8`, or `!p` for a p of `u1`",
        b'[' | b']' => "reads and groups have round brackets: `a(x+1,y)`",
        b'{' | b'}' =>
            "a definition has no braces, and ends with `end`: `let f = im(x,y) a(x,y) end`",
        b'\'' => "a number has decimal digits only: write 255 for `8'hff`",
        b'@' | b'$' | b'`' | b'\\' | b'"' => "names have letters, digits and `_` only",
        _ => "",
    }
}

// What helps with a byte that begins no token.
fn byte_help(text: &[u8], span: Span) -> &'static str {
    match bytes_at(text, span) {
        Bytes::Printable(byte) => character_help(byte),
        Bytes::ByteOrderMark => "save the text as UTF-8 without a byte order mark",
        Bytes::Wide | Bytes::Nul => "save the text as ASCII or UTF-8",
        Bytes::Control => "only blanks, tabs and ends of lines may be between tokens",
        Bytes::NotAscii => {
            "names have ASCII letters, digits and `_` only; comments may have any character"
        }
    }
}

/// Adds the sentence on a fault of tokens.
pub(crate) fn push_lexical(to: &mut Detail, text: &[u8], fault: LexFault) {
    let length = bytes_of(text, fault.span).len() as u64;
    match fault.kind {
        LexKind::BadByte => push_byte(to, text, fault.span),
        LexKind::NumberTooGreat => {
            to.push("the number is above the greatest one, 2^64 - 1 = 18446744073709551615")
        }
        LexKind::NameTooLong => {
            push_numbered(to, "the word has ", length, " bytes, and ");
            push_numbered(to, "", MAX_NAME_BYTES as u64, " are allowed");
        }
    }
}

/// Adds the help on a fault of tokens.
pub(crate) fn push_lexical_help(to: &mut Detail, text: &[u8], fault: LexFault) {
    let help = match fault.kind {
        LexKind::BadByte => byte_help(text, fault.span),
        LexKind::NumberTooGreat => "",
        LexKind::NameTooLong => "",
    };
    if !help.is_empty() {
        push_help(to, help);
    }
}
