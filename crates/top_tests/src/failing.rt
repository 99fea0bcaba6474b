//! Each call of the desk fails in turn, in pieces of one byte and of 4,096: what is left is what docs/PROMISES.md says.

ghost use Rattle.std.specs.Prelude.{◌<◌};

use crate::commands::{NONE, desk, words};
use dk_base::OutOfMemory;
use dk_desk::Desk;
use dk_top::dk_main;
use std::alloc::Global;
use std::test::Fail;

// What a call of the program leaves.
#[derive(Drop)]
struct Left {
    status: u8,
    file: Option<Vec<u8>>,
    report: Vec<u8>,
    fault: Vec<u8>,
}

// A call of the program, with the files that it reads.
#[derive(Clone, Copy)]
struct Call<'a> {
    line: &'a str,
    first: &'a [u8],
    second: &'a [u8],
}

fn copied(alloc: Global, file: Option<&[u8]>) -> Result<Option<Vec<u8>>, OutOfMemory> {
    match file {
        Some(bytes) => Ok(Some(Vec::from_slice(alloc, bytes)?)),
        None => Ok(None),
    }
}

// What is left where the call of the desk of this number fails.
fn leaves(alloc: Global, call: Call<'_>, failing: u64, piece: usize) -> Result<Left, OutOfMemory>
    requires { 0 < piece }
{
    let words = words(alloc, call.line)?;
    let mut desk = desk(alloc, call.first, call.second, failing, piece)?;
    let status = dk_main(alloc, &words, &mut desk).status();
    let file = copied(alloc, desk.file())?;
    let report = Vec::from_slice(alloc, desk.report())?;
    let fault = Vec::from_slice(alloc, desk.fault())?;
    Ok(Left {
        status,
        file,
        report,
        fault,
    })
}

// Whether a file is not there, or is a front of the one that is written where nothing fails.
fn is_front(file: Option<&[u8]>, whole: Option<&[u8]>) -> bool {
    match (file, whole) {
        (None, _) => true,
        (Some(part), Some(bytes)) => bytes.starts_with(part),
        (Some(_), None) => false,
    }
}

// Whether a failed read or write is specified and has left what it may. Only `run` of one input and one output has created something when it reads.
fn is_promised(left: &Left, whole: &Left, streams: bool) -> bool {
    let file = left.file.as_deref();
    let is_told = match left.status {
        7 => left.fault.as_slice() == b"cannot read\n".as_slice() && (streams || file.is_none()),
        8 => left.fault.as_slice() == b"cannot write\n".as_slice(),
        _ => false,
    };
    is_told && is_front(file, whole.file.as_deref()) && whole.report.starts_with(&left.report)
}

// How many calls of the desk end the call of the program with a failed read, with a failed write, and with its own ending and less than its whole line, if each fails in turn until none does.
fn counted(
    alloc: Global,
    call: Call<'_>,
    piece: usize,
    streams: bool,
) -> Result<(u64, u64, u64), Fail>
    requires { 0 < piece }
{
    let whole = leaves(alloc, call, NONE, piece)?;
    let mut reads: u64 = 0;
    let mut writes: u64 = 0;
    let mut lines: u64 = 0;
    for failing in 0..400u64 {
        let left = leaves(alloc, call, failing, piece)?;
        if left.status == whole.status && left.fault == whole.fault {
            return Ok((reads, writes, lines));
        }
        if left.status == whole.status && whole.fault.starts_with(&left.fault) {
            lines = lines.saturating_add(1);
        } else if !is_promised(&left, &whole, streams) {
            return Err(Fail::new("something else is left"));
        } else if left.status == 7 {
            reads = reads.saturating_add(1);
        } else {
            writes = writes.saturating_add(1);
        }
    }
    Err(Fail::new("calls go on failing"))
}

// The numbers of failed reads, of failed writes and of failed writes of the line in pieces of 4,096 bytes, and in pieces of one.
fn told(alloc: Global, call: Call<'_>, streams: bool) -> Result<String, Fail> {
    let (reads, writes, lines) = counted(alloc, call, 4096, streams)?;
    let (small_reads, small_writes, small_lines) = counted(alloc, call, 1, streams)?;
    Ok(format!(in alloc; "{reads} {writes} {lines}, {small_reads} {small_writes} {small_lines}")?)
}

const COPY: &[u8] = b"size 2 1 input a:u8 output a";

const SUM: &[u8] =
    b"size 2 1 input a:u8 input b:u8 let s=im(x,y) (a(x,y)+b(x,y)) as u8 end output s";

const PIXELS: &[u8] = b"P5 2 1 255\n\x01\x02";

const PAIR: &[u8] = b"P5 2 1 255\n\x01\x02P5 2 1 255\n\x0a\x14";

const COPY_TEXT: &[u8] =
    b"module m(input clk, input rst, input din, output valid, output dout); assign valid = ~rst; assign dout = din; endmodule";

const REPORT: &[u8] = b"plan 2
limits 67108864 67108864
age 0
size 2 1
image a 8 0 0
latency 0
clocks 2
bits 0
reads 0
flow hold a 8
end
";

const NO_FRAME: &[u8] = b"size 0 1 input a:u8 output a";

const NARROW: &[u8] = b"P5 1 1 255\n\x01";

const BITS: &[u8] = b"P5 2 1 1\n\x01\x00";

// `run` of one input reads the header byte by byte and then line by line, and writes each line when it is whole: a header of 11 bytes, one line, and the end of the images. With two inputs the images are read whole.
#[test]
fn runs_of_one_input_and_of_two(rt: HostRuntime) -> Result<(), Fail> {
    let alloc = rt.alloc();
    let line = "dk run first second out";
    let (first, second) = (COPY, PIXELS);
    let one = Call {
        line,
        first,
        second,
    };
    assert_eq!(rt; told(alloc, one, true)?.as_str(), "17 3 0, 45 14 0");
    let (first, second) = (SUM, PAIR);
    let two = Call {
        line,
        first,
        second,
    };
    assert_eq!(rt; told(alloc, two, false)?.as_str(), "6 2 0, 109 14 0");
    Ok(())
}

// Each input is opened and read to its end; then the output is created, if it is a file, and written: by `trace` the header, each clock and the last line.
#[test]
fn commands_on_texts_and_images(rt: HostRuntime) -> Result<(), Fail> {
    let alloc = rt.alloc();
    for (line, first, second, found) in [
        ("dk eval first second out", COPY, PIXELS, "6 2 0, 45 14 0"),
        (
            "dk sim first 2 second out",
            COPY_TEXT,
            BITS,
            "6 2 0, 134 12 0",
        ),
        (
            "dk trace first 2 second out",
            COPY_TEXT,
            BITS,
            "6 6 0, 134 215 0",
        ),
        ("dk check first second", COPY, REPORT, "6 1 0, 145 31 0"),
        ("dk plan first", COPY, PIXELS, "3 1 0, 30 113 0"),
        ("dk compile first out", COPY, PIXELS, "3 2 0, 30 167 0"),
        ("dk make 0", COPY, PIXELS, "0 1 0, 0 58 0"),
        // a program that is refused, and an image: the last calls write the line
        ("dk plan first", NO_FRAME, PIXELS, "3 0 1, 30 0 23"),
        ("dk eval first second out", COPY, NARROW, "6 0 1, 44 0 16"),
    ] {
        let call = Call {
            line,
            first,
            second,
        };
        assert_eq!(rt; told(alloc, call, false)?.as_str(), found);
    }
    Ok(())
}
