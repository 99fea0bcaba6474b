// Plain numbers and sized constants.

ghost use Rattle.std.specs.Prelude.{◌≡◌, ◌<◌, ◌≤◌, ◌^◌, IsTrue, MatchOption, Some, length, take, drop};
ghost use Rattle.std.specs.List.{prefix_len};
ghost use Rattle.verilog_text.specs.Bytes.{is_in_number as in_number, digit_value as digit_value_of, is_digit_of as is_digit_in, with_digit as with_digit_of, value_of, are_digits as are_all_digits, is_numeral as numeral, base_of as base_named, fitting as fitting_of, in_base as in_base_of, of_size as of_size_of, constant_of};

use crate::byte::is_in_number;
use wiring::{Constant, Width};

// The value of a digit, letters from ten on.
fn digit_value(byte: u8) -> u8
    ensures { result ≡ digit_value_of byte }
{
    match byte {
        b'0'..=b'9' => byte - b'0',
        b'A'..=b'F' => byte - b'A' + 10,
        b'a'..=b'f' => byte - b'a' + 10,
        _ => 16,
    }
}

fn is_digit_of(base: u8, byte: u8) -> bool
    ensures { result ≡ is_digit_in base byte }
{
    digit_value(byte) < base
}

// A number with one digit more, unless it passes 64 bits.
fn with_digit(base: u8, value: u64, digit: u8) -> Option<u64>
    ensures { MatchOption result (2 ^ 64 ≤ with_digit_of base value digit) (λ v. v ≡ with_digit_of base value digit) }
{
    if digit == b'_' {
        return Some(value);
    }
    let higher = value.checked_mul(u64::from(base))?;
    higher.checked_add(u64::from(digit_value(digit)))
}

// The number of these digits, unless it passes 64 bits.
pub(crate) fn value(base: u8, digits: &[u8]) -> Option<u64>
    requires base { 1 ≤ base }
    ensures { MatchOption result (2 ^ 64 ≤ value_of base digits.now) (λ v. v ≡ value_of base digits.now) }
{
    let mut value: u64 = 0;
    for digit in digits {
        value = with_digit(base, value, *digit)?;
    }
    Some(value)
}

fn are_digits(base: u8, digits: &[u8]) -> bool
    ensures { result ≡ are_all_digits base digits.now }
{
    for digit in digits {
        if !is_digit_of(base, *digit) && *digit != b'_' {
            return false;
        }
    }
    true
}

fn is_numeral(base: u8, digits: &[u8]) -> bool
    ensures { result ≡ numeral base digits.now }
{
    let Some((first, others)) = digits.split_first() else {
        return false;
    };
    is_digit_of(base, *first) && are_digits(base, others)
}

fn base_of(byte: u8) -> Option<u8>
    ensures { result ≡ base_named byte }
{
    match byte {
        b'd' | b'D' => Some(10),
        b'h' | b'H' => Some(16),
        b'b' | b'B' => Some(2),
        _ => None,
    }
}

// The constant of this size and value, where there is one.
fn fitting(size: u64, value: u64) -> Option<Constant>
    ensures { result ≡ fitting_of size value }
{
    let width = Width::checked(u8::try_from(size).ok()?)?;
    Constant::checked(width, value)
}

fn in_base(size: u64, base: u8, digits: &[u8]) -> Option<Constant>
    requires base { 1 ≤ base }
    ensures { result ≡ in_base_of size (Some base) digits.now }
{
    if !is_numeral(base, digits) {
        return None;
    }
    fitting(size, value(base, digits)?)
}

// What follows a size: `'`, a base, digits.
fn of_size(size: u64, rest: &[u8]) -> Option<Constant>
    ensures { result ≡ of_size_of size rest.now }
{
    let (_, after) = rest.split_first()?;
    let (base, digits) = after.split_first()?;
    let Some(base) = base_of(*base) else {
        return None;
    };
    in_base(size, base, digits)
}

// The sized constant that a run is as a whole.
pub(crate) fn constant(run: &[u8]) -> Option<Constant>
    ensures { result ≡ constant_of run.now }
{
    let (size, rest) = digits_first(run);
    of_size(value(10, size)?, rest)
}

fn number_length(bytes: &[u8]) -> usize
    ensures is { result ≡ prefix_len in_number bytes.now }
    ensures within { result ≤ length bytes.now }
{
    bytes.iter().take_while(|byte| is_in_number(**byte)).count()
}

// The longest run of digits and underscores, and what follows it.
pub(crate) fn digits_first(bytes: &[u8]) -> (&[u8], &[u8])
    ensures front { result.0.now ≡ take (prefix_len in_number bytes.now) bytes.now }
    ensures back { result.1.now ≡ drop (prefix_len in_number bytes.now) bytes.now }
    ensures length { length result.0.now ≡ prefix_len in_number bytes.now }
    ensures within { prefix_len in_number bytes.now ≤ length bytes.now }
{
    bytes.split_at(number_length(bytes))
}
