// A trace that is read again.

ghost use Rattle.std.specs.Prelude.{◌≡◌, ◌≤◌, ◌<◌, ◌+◌, ◌^◌, ◌++◌, ◌∷◌, [], ℕ, List, length, nat_eq, if◌then◌else◌, IfOk, IfErr, OnOk, MatchResult, ⊤};
ghost use Rattle.cycle_sim.specs.Slots.{words_of};
ghost use Rattle.vcd_trace.specs.Layout.{AreValues};
ghost use Rattle.vcd_trace.specs.Replayed.{IsTraceOf, Refuses, Gives};
ghost use Rattle.vcd_trace.specs.Steps.{common_lines as common_of};
ghost use Rattle.vcd_trace.specs.Answers.{ReadsAll, RefusesAll, ReadsText, RefusesText};

use crate::fault::VcdError;
use crate::heading::header;
use crate::reading::strip;
use crate::steps::{Variables, read_at};
use crate::trace::widths_of;
use dk_base::OutOfMemory;
use netlist::{Module, Width};
use std::alloc::Global;

// A value of 0 for each variable.
fn zeros(alloc: Global, widths: &[Width]) -> Result<Vec<u64>, VcdError>
    ensures { IfOk result (λ values. AreValues widths.now values.items) }
{
    let mut values = Vec::new(alloc);
    match values.resize(widths.len(), 0u64) {
        Err(_) => Err(VcdError::OutOfMemory),
        Ok(()) => Ok(values),
    }
}

fn add_row(alloc: Global, rows: &mut Vec<Vec<u64>>, row: &[u64]) -> Result<(), OutOfMemory>
    ensures { OnOk result (words_of rows.new.items ≡ words_of rows.old.items ++ row.now ∷ []) }
{
    let copy = Vec::from_slice(alloc, row)?;
    rows.push(copy)?;
    Ok(())
}

// The clocks of a trace, after its header.
fn read_clocks(
    alloc: Global,
    widths: &[Width],
    bytes: &[u8],
    number: u64,
) -> Result<Vec<Vec<u64>>, VcdError>
    requires { number + length bytes.now < 2 ^ 64 }
    ensures { MatchResult result (λ rows. ReadsAll widths.now bytes.now number (words_of rows.items)) (λ e. RefusesAll widths.now bytes.now number e) }
{
    let mut line = Vec::new(alloc);
    let mut rows = Vec::new(alloc);
    let mut before = match zeros(alloc, widths) {
        Err(_) => return Err(VcdError::OutOfMemory),
        Ok(before) => before,
    };
    let mut rest = bytes;
    let mut line_number = number;
    let mut first = true;
    let mut time: u64 = 0;
    'clocks: loop {
        let variables = Variables {
            first,
            widths,
            values: before.as_slice(),
        };
        let clock = match read_at(alloc, &mut line, &variables, time, rest, line_number) {
            Err(fault) => return Err(fault),
            Ok(None) => return Ok(rows),
            Ok(Some(clock)) => clock,
        };
        if add_row(alloc, &mut rows, &clock.values).is_err() {
            return Err(VcdError::OutOfMemory);
        }
        before = clock.values;
        rest = clock.rest;
        line_number = clock.number;
        first = false;
        time += 1;
    }
}

// A line number, after a byte.
fn next_number(number: u64, byte: u8) -> u64
    requires { number + 1 < 2 ^ 64 }
    ensures number { result ≡ (if nat_eq byte 10 then number + 1 else number) }
    ensures few { result ≤ number + 1 }
{
    if byte == b'\n' { number + 1 } else { number }
}

// The number of the line at which a text differs from a header.
#[tactic(auto, using(crate::proofs::Headings::common_stop))]
fn common_lines(head: &[u8], text: &[u8]) -> u64
    ensures number { result ≡ common_of 1 head.now text.now }
    ensures few { result ≤ length head.now + 1 }
{
    let mut number: u64 = 1;
    for (place, byte) in head.iter().enumerate() {
        if place >= text.len() {
            return number;
        }
        if text[place] != *byte {
            return number;
        }
        number = next_number(number, *byte);
    }
    number
}

// The clocks of a trace with this header.
fn read_text(
    alloc: Global,
    head: &[u8],
    widths: &[Width],
    text: &[u8],
) -> Result<Vec<Vec<u64>>, VcdError>
    ensures { MatchResult result (λ rows. ReadsText head.now widths.now text.now (words_of rows.items)) (λ e. RefusesText head.now widths.now text.now e) }
{
    let number = common_lines(head, text);
    match strip(head, text) {
        None => Err(VcdError::Fault { line: number }),
        Some(rest) => match read_clocks(alloc, widths, rest, number) {
            Err(fault) => Err(fault),
            Ok(rows) => Ok(rows),
        },
    }
}

/// The values of the variables at each clock that a trace of the module shows, or the first line that continues no trace of it.
pub fn replay(alloc: Global, module: &Module, text: &[u8]) -> Result<Vec<Vec<u64>>, VcdError>
    ensures values { IfOk result (λ rows. IsTraceOf «module».now (words_of rows.items) text.now) }
    ensures only { IfOk result (λ rows. (clocks : List (List ℕ)) → IsTraceOf «module».now clocks text.now → clocks ≡ words_of rows.items) }
    ensures fault { IfErr result (λ e. Refuses «module».now text.now e) }
    ensures accepts { (clocks : List (List ℕ)) → IsTraceOf «module».now clocks text.now → Gives clocks result }
{
    let head = match header(alloc, module) {
        Err(_) => return Err(VcdError::OutOfMemory),
        Ok(head) => head,
    };
    let widths = match widths_of(alloc, module) {
        Err(_) => return Err(VcdError::OutOfMemory),
        Ok(widths) => widths,
    };
    read_text(alloc, &head, &widths, text)
}
