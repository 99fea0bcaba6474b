// The token at the front of a text.

ghost use Rattle.std.specs.Prelude.{◌≡◌, ◌<◌, ◌≤◌, ◌∷◌, [], suc, length, drop, MatchOption, None, Some};
ghost use Rattle.std.specs.List.{prefix_len};
ghost use Rattle.net_names.specs.Words.{is_word_byte as word_byte};
ghost use Rattle.verilog_text.specs.Bytes.{is_in_line as in_line, is_in_number as in_number, is_in_constant as in_constant};
ghost use Rattle.verilog_text.specs.Lexis.{lexeme as lexeme_of, word_here, number_here, symbol_here, is_tick_first, behind_block as behind_block_of, Gap, Solid};
ghost use Rattle.verilog_lexer.specs.Fits.{FitsIn};

use crate::byte::{is_digit, is_in_constant, is_letter, is_white, is_word_byte};
use crate::number::{constant, digits_first, value};
use crate::symbol::{is_block_open, one_byte_symbol, two_byte_symbol};
use crate::word::word_kind;
use dk_base::MAX_NAME_BYTES;
use verilog_text::{LexKind, TokenKind};

fn word_length(bytes: &[u8]) -> usize
    ensures is { result ≡ prefix_len word_byte bytes.now }
    ensures within { result ≤ length bytes.now }
{
    bytes.iter().take_while(|byte| is_word_byte(**byte)).count()
}

fn constant_length(bytes: &[u8]) -> usize
    ensures is { result ≡ prefix_len in_constant bytes.now }
    ensures within { result ≤ length bytes.now }
{
    bytes
        .iter()
        .take_while(|byte| is_in_constant(**byte))
        .count()
}

fn line_length(bytes: &[u8]) -> usize
    ensures is { result ≡ prefix_len in_line bytes.now }
    ensures within { result ≤ length bytes.now }
{
    bytes.iter().take_while(|byte| **byte != b'\n').count()
}

// The first byte and the bytes after it.
pub(crate) fn front(bytes: &[u8]) -> Option<(u8, &[u8])>
    ensures { MatchOption result (bytes.now ≡ []) (λ x. bytes.now ≡ x.0 ∷ x.1.now) }
{
    let (first, after) = bytes.split_first()?;
    Some((*first, after))
}

fn word(bytes: &[u8]) -> Result<(TokenKind, usize), (LexKind, usize)>
    requires { 0 < prefix_len word_byte bytes.now }
    ensures answer { result ≡ word_here bytes.now }
    ensures fits { FitsIn (length bytes.now) result }
{
    let length = word_length(bytes);
    if length > MAX_NAME_BYTES {
        return Err((LexKind::NameTooLong, length));
    }
    Ok((word_kind(&bytes[..length]), length))
}

fn is_tick(bytes: &[u8]) -> bool
    ensures { result ≡ is_tick_first bytes.now }
{
    match front(bytes) {
        Some((first, _)) => first == b'\'',
        None => false,
    }
}

fn number(bytes: &[u8]) -> Result<(TokenKind, usize), (LexKind, usize)>
    requires digits { 0 < prefix_len in_number bytes.now }
    requires run { 0 < prefix_len in_constant bytes.now }
    ensures answer { result ≡ number_here bytes.now }
    ensures fits { FitsIn (length bytes.now) result }
{
    let (digits, behind) = digits_first(bytes);
    if is_tick(behind) {
        let length = constant_length(bytes);
        match constant(&bytes[..length]) {
            Some(constant) => Ok((TokenKind::Sized(constant), length)),
            None => Err((LexKind::BadConstant, length)),
        }
    } else {
        match value(10, digits) {
            Some(value) => Ok((TokenKind::Plain(value), digits.len())),
            None => Err((LexKind::NumberTooGreat, digits.len())),
        }
    }
}

// The longest symbol, looked for at two bytes and then at one.
#[tactic(auto, using(crate::proofs::Symbols::is_open, crate::proofs::Symbols::is_two, crate::proofs::Symbols::is_one_before, crate::proofs::Symbols::is_one_last))]
fn symbol(first: u8, after: &[u8]) -> Result<(TokenKind, usize), (LexKind, usize)>
    ensures answer { result ≡ symbol_here (first ∷ after.now) }
    ensures fits { FitsIn (suc (length after.now)) result }
{
    if let Some((second, _)) = front(after) {
        if is_block_open(first, second) {
            return Err((LexKind::BadByte, 1));
        }
        if let Some(symbol) = two_byte_symbol(first, second) {
            return Ok((TokenKind::Symbol(symbol), 2));
        }
    }
    match one_byte_symbol(first) {
        Some(symbol) => Ok((TokenKind::Symbol(symbol), 1)),
        None => Err((LexKind::BadByte, 1)),
    }
}

// What is at the front of the bytes, the first byte and those after it.
#[tactic(auto, using(crate::proofs::Runs::word_run, crate::proofs::Runs::number_run, crate::proofs::Runs::constant_run), unfolding(verilog_text::specs::Lexis::lexeme))]
pub(crate) fn lexeme(
    bytes: &[u8],
    first: u8,
    after: &[u8],
) -> Result<(TokenKind, usize), (LexKind, usize)>
    requires { bytes.now ≡ first ∷ after.now }
    ensures answer { result ≡ lexeme_of first after.now }
    ensures fits { FitsIn (length bytes.now) result }
{
    if is_letter(first) {
        word(bytes)
    } else if is_digit(first) {
        number(bytes)
    } else {
        symbol(first, after)
    }
}

// The bytes from the end of the line on.
fn behind_line(bytes: &[u8]) -> &[u8]
    ensures { result.now ≡ drop (prefix_len in_line bytes.now) bytes.now }
{
    let (_, behind) = bytes.split_at(line_length(bytes));
    behind
}

// What follows the first `*/`.
fn behind_block(text: &[u8]) -> Option<&[u8]>
    ensures { MatchOption result (behind_block_of text.now ≡ None) (λ rest. behind_block_of text.now ≡ Some rest.now) }
{
    let mut rest = text;
    'bytes: loop {
        let (first, after) = front(rest)?;
        let (second, behind) = front(after)?;
        if first == b'*' && second == b'/' {
            return Some(behind);
        }
        rest = after;
    }
}

// The bytes after the white space and comments at the front.
pub(crate) fn skip(bytes: &[u8]) -> &[u8]
    ensures gap { Gap bytes.now result.now }
    ensures solid { Solid result.now }
{
    let mut rest = bytes;
    'gap: loop {
        let Some((first, after)) = front(rest) else {
            return rest;
        };
        if is_white(first) {
            rest = after;
            continue;
        }
        if first != b'/' {
            return rest;
        }
        let Some((second, inner)) = front(after) else {
            return rest;
        };
        if second == b'/' {
            rest = behind_line(inner);
            continue;
        }
        if second != b'*' {
            return rest;
        }
        let Some(behind) = behind_block(inner) else {
            return rest;
        };
        rest = behind;
    }
}
