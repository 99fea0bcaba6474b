// The words of the source language.

ghost use Rattle.std.specs.Prelude.{◌≡◌, Some};
ghost use Rattle.std.specs.List.{find, Contains};
ghost use Rattle.std.specs.Str.{bytes_eq};
ghost use Rattle.source_words.specs.declared.word.Keyword.{Keyword};
ghost use Rattle.source_words.specs.Words.{is_word as word, spelling_of, is_function as names_function, keywords, keyword_of, width_of, type_of_word, is_name as name};

use dk_base::{MAX_NAME_BYTES, MAX_WIDTH, Ty, is_letter, word_length};

/// A reserved word.
#[derive(Clone, Copy, PartialEq, Eq)]
pub enum Keyword {
    Size,
    Input,
    Let,
    Inline,
    Im,
    End,
    Output,
    As,
    Select,
    Min,
    Max,
    Abs,
    Sat,
    X,
    Y,
    Edge,
    Clamp,
}

/// The reserved words, in the order of the grammar's list.
pub const KEYWORDS: [Keyword; 17] = [
    Keyword::Size,
    Keyword::Input,
    Keyword::Let,
    Keyword::Inline,
    Keyword::Im,
    Keyword::End,
    Keyword::Output,
    Keyword::As,
    Keyword::Select,
    Keyword::Min,
    Keyword::Max,
    Keyword::Abs,
    Keyword::Sat,
    Keyword::X,
    Keyword::Y,
    Keyword::Edge,
    Keyword::Clamp,
];

impl Keyword {
    /// Its bytes in a text.
    pub fn spelling(self) -> &'static str
        ensures { result.now ≡ spelling_of self }
    {
        match self {
            Keyword::Size => "size",
            Keyword::Input => "input",
            Keyword::Let => "let",
            Keyword::Inline => "inline",
            Keyword::Im => "im",
            Keyword::End => "end",
            Keyword::Output => "output",
            Keyword::As => "as",
            Keyword::Select => "select",
            Keyword::Min => "min",
            Keyword::Max => "max",
            Keyword::Abs => "abs",
            Keyword::Sat => "sat",
            Keyword::X => "x",
            Keyword::Y => "y",
            Keyword::Edge => "edge",
            Keyword::Clamp => "clamp",
        }
    }

    /// Whether it names an operator with its operands in brackets.
    pub fn is_function(self) -> bool
        ensures { result ≡ names_function self }
    {
        match self {
            Keyword::Size => false,
            Keyword::Input => false,
            Keyword::Let => false,
            Keyword::Inline => false,
            Keyword::Im => false,
            Keyword::End => false,
            Keyword::Output => false,
            Keyword::As => false,
            Keyword::Select => true,
            Keyword::Min => true,
            Keyword::Max => true,
            Keyword::Abs => true,
            Keyword::Sat => true,
            Keyword::X => false,
            Keyword::Y => false,
            Keyword::Edge => false,
            Keyword::Clamp => false,
        }
    }
}

// The first of these reserved words with these bytes.
fn among(words: &[Keyword], bytes: &[u8]) -> Option<Keyword>
    ensures { result ≡ find (λ k. bytes_eq bytes.now (spelling_of k)) words.now }
{
    words
        .iter()
        .copied()
        .find(|word| bytes == word.spelling().as_bytes())
}

/// The reserved word with these bytes.
pub fn find_keyword(bytes: &[u8]) -> Option<Keyword>
    ensures { result ≡ keyword_of bytes.now }
{
    among(&KEYWORDS, bytes)
}

/// Each reserved word is read as itself, and the list has each.
pub fn spellings_law()
    ensures read { (k : Keyword) → keyword_of (spelling_of k) ≡ Some k }
    ensures listed { (k : Keyword) → Contains keywords k }
{}

// 1 to 64 in decimal, without a leading zero.
fn width(digits: &[u8]) -> Option<u8>
    ensures { result ≡ width_of digits.now }
{
    match digits {
        [ones @ b'1'..=b'9'] => Some(*ones - b'0'),
        [tens @ b'1'..=b'9', ones @ b'0'..=b'9'] => {
            let bits = 10 * (*tens - b'0') + (*ones - b'0');
            if bits <= MAX_WIDTH { Some(bits) } else { None }
        }
        _ => None,
    }
}

/// The type with this type word: `u` or `s`, and a number of bits.
pub fn read_type(bytes: &[u8]) -> Option<Ty>
    ensures { result ≡ type_of_word bytes.now }
{
    match bytes {
        [b'u', digits @ ..] => Some(Ty::Unsigned(width(digits)?)),
        [b's', digits @ ..] => Some(Ty::Signed(width(digits)?)),
        _ => None,
    }
}

fn is_word(bytes: &[u8]) -> bool
    ensures { result ≡ word bytes.now }
{
    match bytes {
        [] => false,
        [first, rest @ ..] => is_letter(*first) && word_length(rest) == rest.len(),
    }
}

/// Whether the bytes are a name: a word of at most 64 bytes that is neither a reserved word nor a type word.
pub fn is_name(bytes: &[u8]) -> bool
    ensures { result ≡ name bytes.now }
{
    is_word(bytes)
        && bytes.len() <= MAX_NAME_BYTES
        && find_keyword(bytes).is_none()
        && read_type(bytes).is_none()
}
