// Lines that are read.

ghost use Rattle.std.specs.Prelude.{◌≡◌, ◌≤◌, ◌<◌, ◌^◌, ◌+◌, ◌++◌, ◌∷◌, ℕ, List, [], IfOk, OnOk, MatchOption, IsTrue};
ghost use Rattle.dk_base.specs.Numbers.{IsBitCount};
ghost use Rattle.vcd_trace.specs.Layout.{binary, id_of, value_line, time_line};
ghost use Rattle.vcd_trace.specs.Steps.{bits_after};

use crate::clock::{TIME_LINE_BYTES, push_time, room_for_line};
use crate::number::push_value;
use dk_base::{OutOfMemory, bits_for};
use netlist::Width;

// The bytes after a front.
pub(crate) fn strip<'a>(front: &[u8], bytes: &'a [u8]) -> Option<&'a [u8]>
    ensures { MatchOption result ((more : List ℕ) → bytes.now ≡ front.now ++ more → ⊥) (λ rest. bytes.now ≡ front.now ++ rest.now) }
{
    bytes.strip_prefix(front)
}

// A number with one binary digit more after it, or None if the byte is not a digit. A number of more than 64 bits is any number.
fn with_bit(value: u64, byte: u8) -> Option<u64>
    ensures { MatchOption result ((bytes : List ℕ) → bits_after value (byte ∷ bytes) ≡ value) (λ next. (bytes : List ℕ)
        → bits_after value (byte ∷ bytes) < 2 ^ 64 → bits_after next bytes ≡ bits_after value (byte ∷ bytes)) }
{
    match byte {
        b'0' => Some(value.saturating_mul(2)),
        b'1' => Some(value.saturating_mul(2).saturating_add(1)),
        _ => None,
    }
}

// The number of the binary digits at the front, if it has at most 64 bits.
fn bits_value(bytes: &[u8]) -> u64
    ensures { bits_after 0 bytes.now < 2 ^ 64 → result ≡ bits_after 0 bytes.now }
{
    let mut value: u64 = 0;
    for byte in bytes {
        match with_bit(value, *byte) {
            None => return value,
            Some(next) => value = next,
        }
    }
    value
}

// The only value of a variable of one bit whose line may be at the front.
fn bit_value(bytes: &[u8]) -> u64
    ensures { (v : ℕ) (rest : List ℕ) → v < 2 → bytes.now ≡ (48 + v) ∷ rest → result ≡ v }
{
    match bytes {
        [b'1', ..] => 1,
        _ => 0,
    }
}

// The only value of a variable of several bits whose line may be at the front.
fn wide_value(bytes: &[u8]) -> u64
    ensures { (v : ℕ) (rest : List ℕ) → v < 2 ^ 64 → bytes.now ≡ 98 ∷ (binary v ++ 32 ∷ rest) → result ≡ v }
{
    match bytes.split_first() {
        None => 0,
        Some((_letter, digits)) => bits_value(digits),
    }
}

// The only value of a variable of this width whose line may be at the front.
fn value_at(width: Width, bytes: &[u8]) -> u64
    ensures { (i v : ℕ) (rest : List ℕ) → v < 2 ^ width → bytes.now ≡ (value_line width i v ++ 10 ∷ []) ++ rest → result ≡ v }
{
    if width.bits() == 1 {
        bit_value(bytes)
    } else {
        wide_value(bytes)
    }
}

// Whether a number has at most this width.
fn fits(width: Width, value: u64) -> bool
    ensures yes { IsTrue result → value < 2 ^ width }
    ensures no { value < 2 ^ width → IsTrue result }
{
    bits_for(value) <= width.bits()
}

// Writes the line of a variable.
#[tactic(auto, using(crate::proofs::Rooms::line_fits))]
fn write_value(
    line: &mut Vec<u8>,
    width: Width,
    place: usize,
    value: u64,
) -> Result<(), OutOfMemory>
    requires { value < 2 ^ width }
    ensures { OnOk result (line.new.items ≡ value_line width place value ++ 10 ∷ []) }
{
    line.clear();
    line.try_reserve(room_for_line(width, place))?;
    push_value(line, width, place, value);
    Ok(())
}

// The value of a variable by the line at the front, and the bytes after that line. None if it is not a line of this variable.
pub(crate) fn told<'a>(
    line: &mut Vec<u8>,
    width: Width,
    place: usize,
    bytes: &'a [u8],
) -> Result<Option<(u64, &'a [u8])>, OutOfMemory>
    ensures { IfOk result (λ r. MatchOption r ((v : ℕ) (more : List ℕ) → v < 2 ^ width → bytes.now ≡ (value_line width place v ++ 10 ∷ []) ++ more
        → ⊥) (λ x. (x.0 < 2 ^ width) × (bytes.now ≡ (value_line width place x.0 ++ 10 ∷ []) ++ x.1.now))) }
{
    let value = value_at(width, bytes);
    if !fits(width, value) {
        return Ok(None);
    }
    write_value(line, width, place, value)?;
    match strip(line.as_slice(), bytes) {
        None => Ok(None),
        Some(rest) => Ok(Some((value, rest))),
    }
}

// Writes the line of a time.
fn write_time(line: &mut Vec<u8>, time: u64) -> Result<(), OutOfMemory>
    ensures { OnOk result (line.new.items ≡ time_line time ++ 10 ∷ []) }
{
    line.clear();
    line.try_reserve(TIME_LINE_BYTES)?;
    push_time(line, time);
    Ok(())
}

// The bytes after the line of a time, if that line is at the front.
pub(crate) fn after_time<'a>(
    line: &mut Vec<u8>,
    time: u64,
    bytes: &'a [u8],
) -> Result<Option<&'a [u8]>, OutOfMemory>
    ensures { IfOk result (λ r. MatchOption r ((more : List ℕ) → bytes.now ≡ (time_line time ++ 10 ∷ []) ++ more
        → ⊥) (λ rest. bytes.now ≡ (time_line time ++ 10 ∷ []) ++ rest.now)) }
{
    write_time(line, time)?;
    match strip(line.as_slice(), bytes) {
        None => Ok(None),
        Some(rest) => Ok(Some(rest)),
    }
}
