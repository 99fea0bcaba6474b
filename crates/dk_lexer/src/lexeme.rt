// The token at the front of a text.

ghost use Rattle.std.specs.Prelude.{◌≡◌, ◌<◌, ◌≤◌, ◌+◌, ◌-◌, ◌*◌, ◌∷◌, [], suc, length, take, drop, MatchOption, MatchResult, ◌^◌};
ghost use Rattle.std.specs.List.{prefix_len};
ghost use Rattle.std.specs.Map.{lookup};
ghost use Rattle.std.specs.Str.{bytes_eq};
ghost use Rattle.dk_base.specs.Ascii.{is_letter as letter, is_digit as digit, is_word_byte as word_byte, is_white as white, value_of};
ghost use Rattle.dk_lexer.specs.Bytes.{is_in_line, symbols};
ghost use Rattle.dk_lexer.specs.Answer.{Answers, FitsIn};
ghost use Rattle.dk_lexer.specs.Lexis.{lexeme as lexeme_of, word_here, number_here, symbol_here, Gap, Solid};

use crate::fault::{LexKind, NoToken};
use crate::token::{Symbol, TokenKind};
use dk_base::{MAX_NAME_BYTES, Text, digits_length, is_digit, is_letter, is_white, word_length};
use std::alloc::Global;

fn line_length(bytes: &[u8]) -> usize
    ensures is { result ≡ prefix_len is_in_line bytes.now }
    ensures within { result ≤ length bytes.now }
{
    bytes.iter().take_while(|byte| **byte != b'\n').count()
}

fn two_byte_symbol(first: u8, second: u8) -> Option<Symbol>
    ensures { result ≡ lookup (bytes_eq (first ∷ second ∷ [])) symbols }
{
    match (first, second) {
        (b'<', b'<') => Some(Symbol::ShiftLeft),
        (b'<', b'=') => Some(Symbol::LessEqual),
        (b'>', b'>') => Some(Symbol::ShiftRight),
        (b'>', b'=') => Some(Symbol::GreaterEqual),
        (b'=', b'=') => Some(Symbol::EqualEqual),
        (b'!', b'=') => Some(Symbol::NotEqual),
        _ => None,
    }
}

fn one_byte_symbol(byte: u8) -> Option<Symbol>
    ensures { result ≡ lookup (bytes_eq (byte ∷ [])) symbols }
{
    match byte {
        b'<' => Some(Symbol::Less),
        b'>' => Some(Symbol::Greater),
        b'=' => Some(Symbol::Equal),
        b'!' => Some(Symbol::Bang),
        b'|' => Some(Symbol::Bar),
        b'^' => Some(Symbol::Caret),
        b'&' => Some(Symbol::Ampersand),
        b'+' => Some(Symbol::Plus),
        b'-' => Some(Symbol::Minus),
        b'*' => Some(Symbol::Star),
        b'/' => Some(Symbol::Slash),
        b'(' => Some(Symbol::Open),
        b')' => Some(Symbol::Close),
        b',' => Some(Symbol::Comma),
        b':' => Some(Symbol::Colon),
        _ => None,
    }
}

// The first byte and the bytes after it.
pub(crate) fn front(bytes: &[u8]) -> Option<(u8, &[u8])>
    ensures { MatchOption result (bytes.now ≡ []) (λ x. bytes.now ≡ x.0 ∷ x.1.now) }
{
    let (first, after) = bytes.split_first()?;
    Some((*first, after))
}

// A number with one digit more, unless it passes 64 bits.
fn with_digit(value: u64, digit: u8) -> Option<u64>
    ensures { MatchOption result (2 ^ 64 ≤ 10 * value + (digit - 48)) (λ v. v ≡ 10 * value + (digit - 48)) }
{
    value
        .checked_mul(10)?
        .checked_add(u64::from(digit.saturating_sub(b'0')))
}

// The number of these digits, unless it passes 64 bits.
fn value(digits: &[u8]) -> Option<u64>
    ensures { MatchOption result (2 ^ 64 ≤ value_of digits.now) (λ v. v ≡ value_of digits.now) }
{
    let mut value: u64 = 0;
    for digit in digits {
        value = with_digit(value, *digit)?;
    }
    Some(value)
}

fn number(bytes: &[u8]) -> Result<(TokenKind, usize), NoToken>
    ensures answer { Answers (number_here bytes.now) result }
    ensures some { MatchResult result (λ x. x.1 ≡ prefix_len digit bytes.now) (λ e. FitsIn (length bytes.now) e) }
    ensures within { prefix_len digit bytes.now ≤ length bytes.now }
{
    let length = digits_length(bytes);
    match value(&bytes[..length]) {
        Some(value) => Ok((TokenKind::Number(value), length)),
        None => Err(NoToken::Fault(LexKind::NumberTooGreat, length)),
    }
}

fn word(alloc: Global, bytes: &[u8]) -> Result<(TokenKind, usize), NoToken>
    ensures answer { Answers (word_here bytes.now) result }
    ensures some { MatchResult result (λ x. x.1 ≡ prefix_len word_byte bytes.now) (λ e. FitsIn (length bytes.now) e) }
    ensures within { prefix_len word_byte bytes.now ≤ length bytes.now }
{
    let length = word_length(bytes);
    if length > MAX_NAME_BYTES {
        return Err(NoToken::Fault(LexKind::NameTooLong, length));
    }
    let text = Vec::from_slice(alloc, &bytes[..length])?;
    Ok((TokenKind::Word(Text::new(text)), length))
}

// The longest symbol, looked for at two bytes and then at one.
#[tactic(auto, using(crate::proofs::Symbols::is_two, crate::proofs::Symbols::is_one_before, crate::proofs::Symbols::is_one_last))]
fn symbol(first: u8, after: &[u8]) -> Result<(TokenKind, usize), NoToken>
    ensures answer { Answers (symbol_here (first ∷ after.now)) result }
    ensures some { MatchResult result (λ x. (0 < x.1) × (x.1 ≤ suc (length after.now))) (λ e. FitsIn (suc (length after.now)) e) }
{
    if let Some((second, _)) = front(after) {
        if let Some(symbol) = two_byte_symbol(first, second) {
            return Ok((TokenKind::Symbol(symbol), 2));
        }
    }
    match one_byte_symbol(first) {
        Some(symbol) => Ok((TokenKind::Symbol(symbol), 1)),
        None => Err(NoToken::Fault(LexKind::BadByte, 1)),
    }
}

// What is at the front of the bytes, the first byte and those after it.
#[tactic(auto, unfolding(crate::specs::Lexis::lexeme))]
pub(crate) fn lexeme(
    alloc: Global,
    bytes: &[u8],
    first: u8,
    after: &[u8],
) -> Result<(TokenKind, usize), NoToken>
    requires { bytes.now ≡ first ∷ after.now }
    ensures answer { Answers (lexeme_of first after.now) result }
    ensures some { MatchResult result (λ x. (0 < x.1) × (x.1 ≤ length bytes.now)) (λ e. FitsIn (length bytes.now) e) }
{
    if is_letter(first) {
        word(alloc, bytes)
    } else if is_digit(first) {
        number(bytes)
    } else {
        symbol(first, after)
    }
}

// The bytes from the end of the line on.
fn behind_line(bytes: &[u8]) -> &[u8]
    ensures { result.now ≡ drop (prefix_len is_in_line bytes.now) bytes.now }
{
    let (_, behind) = bytes.split_at(line_length(bytes));
    behind
}

// The bytes after the white space and comments at the front.
pub(crate) fn skip(bytes: &[u8]) -> &[u8]
    ensures gap { Gap bytes.now result.now }
    ensures solid { Solid result.now }
{
    let mut rest = bytes;
    'gap: loop {
        let Some((first, after)) = front(rest) else {
            return rest;
        };
        if is_white(first) {
            rest = after;
            continue;
        }
        if first != b'-' {
            return rest;
        }
        let Some((second, line)) = front(after) else {
            return rest;
        };
        if second != b'-' {
            return rest;
        }
        rest = behind_line(line);
    }
}
