// A clock of a trace that is read.

ghost use Rattle.std.specs.Prelude.{◌≡◌, ◌≤◌, ◌<◌, ◌+◌, ◌^◌, ◌++◌, [], ◌∷◌, length, true, false, IfOk, IfErr, IfSome, OnOk, IsTrue, MatchResult, MatchOption};
ghost use Rattle.vcd_trace.specs.Layout.{AreValues, time_line};
ghost use Rattle.vcd_trace.specs.Steps.{stays as stays_at};
ghost use Rattle.vcd_trace.specs.Answers.{ReadsValue, RefusesValue, ReadsClock, RefusesClock, EndsAt, RefusesTime, GoesOnAt, RefusesAt};

use crate::fault::VcdError;
use crate::reading::{after_time, told};
use netlist::Width;
use std::alloc::Global;

// Whether a clock has no line for a variable that has this value.
fn stays(first: bool, before: u64, value: u64) -> bool
    ensures { result ≡ stays_at first before value }
{
    if first { false } else { before == value }
}

// A variable before a clock: its place among all, its width and its value.
#[derive(Clone, Copy)]
struct Variable {
    place: usize,
    width: Width,
    value: u64,
}

// All variables before a clock: their widths, their values, and whether no clock was read yet.
#[derive(Clone, Copy)]
pub(crate) struct Variables<'a> {
    pub first: bool,
    pub widths: &'a [Width],
    pub values: &'a [u64],
}

// A value, the bytes after its line, and their line's number.
#[derive(Clone, Copy, Drop)]
pub(crate) struct ReadValue<'a> {
    pub value: u64,
    pub rest: &'a [u8],
    pub number: u64,
}

// The value of a variable whose line is at the front, or else the value that it had.
fn read_value<'a>(
    line: &mut Vec<u8>,
    first: bool,
    before: Variable,
    bytes: &'a [u8],
    number: u64,
) -> Result<ReadValue<'a>, VcdError>
    requires before { before.value < 2 ^ before.width }
    requires count { number + length bytes.now < 2 ^ 64 }
    ensures value { MatchResult result (λ r. ReadsValue first before.place before.width before.value bytes.now number r.value r.rest.now r.number)
        (λ e. RefusesValue first before.place before.width before.value bytes.now number e) }
    ensures fits { IfOk result (λ r. r.value < 2 ^ before.width) }
    ensures count { IfOk result (λ r. r.number + length r.rest.now ≤ number + length bytes.now) }
    ensures shorter { IfOk result (λ r. length r.rest.now ≤ length bytes.now) }
{
    match told(line, before.width, before.place, bytes) {
        Err(_) => Err(VcdError::OutOfMemory),
        Ok(None) => {
            if first {
                return Err(VcdError::Fault { line: number });
            }
            Ok(ReadValue {
                value: before.value,
                rest: bytes,
                number,
            })
        }
        Ok(Some((value, rest))) => {
            if stays(first, before.value, value) {
                return Err(VcdError::Fault { line: number });
            }
            Ok(ReadValue {
                value,
                rest,
                number: number + 1,
            })
        }
    }
}

// The values of a clock, the bytes after its lines, and the number of the line there.
#[derive(Drop)]
pub(crate) struct ReadClock<'a> {
    pub values: Vec<u64>,
    pub rest: &'a [u8],
    pub number: u64,
}

// The values of a clock whose time was read.
fn read_clock<'a>(
    alloc: Global,
    line: &mut Vec<u8>,
    before: &Variables<'_>,
    bytes: &'a [u8],
    number: u64,
) -> Result<ReadClock<'a>, VcdError>
    requires before { AreValues before.now.widths.now before.now.values.now }
    requires count { number + length bytes.now < 2 ^ 64 }
    ensures clock { MatchResult result
        (λ r. ReadsClock before.now.first before.now.widths.now before.now.values.now bytes.now number r.values.items r.rest.now r.number)
        (λ e. RefusesClock before.now.first before.now.widths.now before.now.values.now bytes.now number e) }
    ensures fits { IfOk result (λ r. AreValues before.now.widths.now r.values.items) }
    ensures count { IfOk result (λ r. r.number + length r.rest.now ≤ number + length bytes.now) }
    ensures shorter { IfOk result (λ r. length r.rest.now ≤ length bytes.now) }
{
    let mut values = Vec::new(alloc);
    let mut rest = bytes;
    let mut line_number = number;
    for (place, width) in before.widths.iter().enumerate() {
        let value = before.values[place];
        let variable = Variable {
            place,
            width: *width,
            value,
        };
        let read = match read_value(line, before.first, variable, rest, line_number) {
            Err(fault) => return Err(fault),
            Ok(read) => read,
        };
        if values.push(read.value).is_err() {
            return Err(VcdError::OutOfMemory);
        }
        rest = read.rest;
        line_number = read.number;
    }
    Ok(ReadClock {
        values,
        rest,
        number: line_number,
    })
}

// The bytes after the line of a time.
fn read_time<'a>(
    line: &mut Vec<u8>,
    time: u64,
    bytes: &'a [u8],
    number: u64,
) -> Result<&'a [u8], VcdError>
    ensures time { MatchResult result (λ rest. bytes.now ≡ (time_line time ++ 10 ∷ []) ++ rest.now) (λ e. RefusesTime time bytes.now number e) }
    ensures shorter { IfOk result (λ rest. length rest.now < length bytes.now) }
{
    match after_time(line, time, bytes) {
        Err(_) => Err(VcdError::OutOfMemory),
        Ok(None) => Err(VcdError::Fault { line: number }),
        Ok(Some(rest)) => Ok(rest),
    }
}

fn is_done(bytes: &[u8]) -> bool
    ensures yes { IsTrue result → bytes.now ≡ [] }
    ensures no { bytes.now ≡ [] → IsTrue result }
{
    bytes.is_empty()
}

// A trace may end after the line of a time if a clock was read before: the reset clock is in every trace.
fn may_end(first: bool, number: u64) -> Result<(), VcdError>
    ensures begun { OnOk result (first ≡ false) }
    ensures missing { IfErr result (λ e. (first ≡ true) × (e ≡ VcdError.Fault number)) }
{
    let begun = !first;
    if begun {
        Ok(())
    } else {
        Err(VcdError::Fault { line: number })
    }
}

// The clock at a time, from the line of that time on. None if the text ends after that line and a clock was read before.
pub(crate) fn read_at<'a>(
    alloc: Global,
    line: &mut Vec<u8>,
    before: &Variables<'_>,
    time: u64,
    bytes: &'a [u8],
    number: u64,
) -> Result<Option<ReadClock<'a>>, VcdError>
    requires before { AreValues before.now.widths.now before.now.values.now }
    requires count { number + length bytes.now < 2 ^ 64 }
    ensures clock { MatchResult result
        (λ o. MatchOption o (EndsAt before.now.first time before.now.widths.now before.now.values.now bytes.now number)
        (λ r. GoesOnAt before.now.first time before.now.widths.now before.now.values.now bytes.now number r.values.items r.rest.now r.number))
        (λ e. RefusesAt before.now.first time before.now.widths.now before.now.values.now bytes.now number e) }
    ensures fits { IfOk result (λ o. IfSome o (λ r. AreValues before.now.widths.now r.values.items)) }
    ensures count { IfOk result (λ o. IfSome o (λ r. r.number + length r.rest.now ≤ number + length bytes.now)) }
    ensures shorter { IfOk result (λ o. IfSome o (λ r. length r.rest.now < length bytes.now)) }
{
    let after = match read_time(line, time, bytes, number) {
        Err(fault) => return Err(fault),
        Ok(after) => after,
    };
    if is_done(after) {
        match may_end(before.first, number + 1) {
            Err(fault) => return Err(fault),
            Ok(()) => return Ok(None),
        }
    }
    match read_clock(alloc, line, before, after, number + 1) {
        Err(fault) => Err(fault),
        Ok(clock) => Ok(Some(clock)),
    }
}
