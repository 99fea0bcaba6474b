//! Calls of commands over a desk in memory: what is noted, which status comes where a call of the desk fails, and that `run` does what `compile` and then `sim` do.

ghost use Rattle.std.specs.Prelude.{◌<◌, IfOk};
ghost use Rattle.dk_top.specs.State.{IsFresh};

use dk_base::OutOfMemory;
use dk_desk::Desk;
use dk_desk::mem_desk::MemDesk;
use dk_desk::never_fails::NeverFails;
use dk_top::{Ending, dk_main};
use std::alloc::Global;
use std::collections::BTreeMap;
use std::test::Fail;

// A number that no call reaches.
pub const NONE: u64 = u64::MAX;

const TOGGLE: &[u8] = b"module m(input clk, input rst, input din, output valid, output dout);
  wire n0;
  reg r0;
  reg r1;
  assign n0 = rst | r1;
  assign valid = ~rst;
  assign dout = r0;
  always @(posedge clk) begin
    r0 <= n0;
    r1 <= r0;
  end
endmodule
";

const FOUR_ZEROS: &[u8] = b"P5 4 1 1\n\x00\x00\x00\x00";

const COPY: &[u8] = b"size 4 1 input a : u8 output a";

const MEAN: &[u8] =
    b"size 4 1 input a : u8 let f = im(x,y) ((a(x-1,y)+a(x,y)+a(x+1,y))/3) as u8 end output f";

pub fn words(alloc: Global, line: &str) -> Result<Vec<String>, OutOfMemory> {
    let mut words = Vec::new(alloc);
    for word in line.split(' ') {
        words.push(word.to_string(alloc)?)?;
    }
    Ok(words)
}

// The files `first` and `second`.
fn files(
    alloc: Global,
    first: &[u8],
    second: &[u8],
) -> Result<BTreeMap<String, Vec<u8>>, OutOfMemory> {
    let mut files = BTreeMap::new(alloc);
    let first = Vec::from_slice(alloc, first)?;
    files.insert(String::from_str(alloc, "first")?, first)?;
    let second = Vec::from_slice(alloc, second)?;
    files.insert(String::from_str(alloc, "second")?, second)?;
    Ok(files)
}

// A desk with the files `first` and `second`, on which the call of this number fails, and which takes and gives pieces of this many bytes.
pub fn desk(
    alloc: Global,
    first: &[u8],
    second: &[u8],
    failing: u64,
    piece: usize,
) -> Result<MemDesk, OutOfMemory>
    requires { 0 < piece }
    ensures { IfOk result (λ desk. IsFresh (⟦<MemDesk as Desk>⟧.outside desk)) }
{
    let files = files(alloc, first, second)?;
    let failing = Vec::from_slice(alloc, [failing].as_slice())?;
    MemDesk::new(alloc, files, failing, piece, 4000)
}

#[test]
fn clocks_are_noted(rt: HostRuntime) -> Result<(), Fail> {
    let alloc = rt.alloc();
    let words = words(alloc, "dk sim first 4 second out")?;
    let mut desk = desk(alloc, TOGGLE, FOUR_ZEROS, NONE, 4096)?;
    assert_eq!(rt; dk_main(alloc, &words, &mut desk).status(), 0);
    let notes = [(false, 0), (true, 1), (true, 0), (true, 1), (true, 0)];
    assert_eq!(rt; desk.notes(), Some(notes.as_slice()));
    Ok(())
}

// The desk on which nothing fails.
#[test]
fn runs_where_nothing_fails(rt: HostRuntime) -> Result<(), Fail> {
    let alloc = rt.alloc();
    let words = words(alloc, "dk run first second out")?;
    let image = b"P5\n4 1\n255\n\x0a\x14\x1e\x28".as_slice();
    let mut desk = NeverFails::new(alloc, files(alloc, COPY, image)?, 5, 300)?;
    assert_eq!(rt; dk_main(alloc, &words, &mut desk), Ending::Done);
    assert_eq!(rt; desk.file(), Some(image));
    Ok(())
}

// What File holds after `run` where the call of this number fails.
fn file_at(
    alloc: Global,
    program: &[u8],
    image: &[u8],
    failing: u64,
    piece: usize,
) -> Result<(u8, Option<Vec<u8>>), OutOfMemory>
    requires { 0 < piece }
{
    let words = words(alloc, "dk run first second out")?;
    let mut desk = desk(alloc, program, image, failing, piece)?;
    let status = dk_main(alloc, &words, &mut desk).status();
    match desk.file() {
        Some(bytes) => Ok((status, Some(Vec::from_slice(alloc, bytes)?))),
        None => Ok((status, None)),
    }
}

// `run` writes a line as soon as it is whole: a copy of two lines, and a mean whose latency is one clock, so that its first line is whole with the second one of the input, and its last one after all of them.
#[test]
fn lines_are_written_as_they_are_whole(rt: HostRuntime) -> Result<(), Fail> {
    let alloc = rt.alloc();
    let copy = b"size 2 2 input a : u8 output a".as_slice();
    let copied = b"P5\n2 2\n255\n\x01\x02\x03\x04".as_slice();
    let mean =
        b"size 3 2 input a : u8 let f = im(x,y) ((a(x-1,y)+a(x,y)+a(x+1,y))/3) as u8 end output f".as_slice();
    let means = b"P5\n3 2\n255\n\x03\x06\x05\x03\x06\x05".as_slice();
    // this many calls come before File is created: three for the program, one that opens the images, nine for the header
    let cases: [(&[u8], &[u8], &[u8], &[usize]); 2] = [
        (
            copy,
            b"P5 2 2 9\n\x01\x02\x03\x04",
            copied,
            [0, 11, 11, 13, 13, 15].as_slice(),
        ),
        (
            mean,
            b"P5 3 2 9\n\x03\x06\x09\x03\x06\x09",
            means,
            [0, 11, 11, 11, 14, 14].as_slice(),
        ),
    ];
    for (program, image, whole, lengths) in cases {
        for call in 0..14u64 {
            let (_, file) = file_at(alloc, program, image, call, 4096)?;
            assert!(rt; file.is_none());
        }
        for (place, length) in lengths.iter().enumerate() {
            let (_, file) = file_at(alloc, program, image, 14 + place as u64, 4096)?;
            assert_eq!(rt; file.as_deref(), whole.get(..*length));
        }
        for piece in [1, 4096usize] {
            let (status, file) = file_at(alloc, program, image, NONE, piece)?;
            assert_eq!(rt; (status, file.as_deref()), (0, Some(whole)));
        }
    }
    Ok(())
}

// What a call leaves: its status, what File holds, and the notes.
#[derive(Drop)]
struct Left {
    status: u8,
    file: Vec<u8>,
    notes: Vec<(bool, u64)>,
}

// Makes a call where nothing fails.
fn called(alloc: Global, line: &str, first: &[u8], second: &[u8]) -> Result<Left, OutOfMemory> {
    let words = words(alloc, line)?;
    let mut desk = desk(alloc, first, second, NONE, 4096)?;
    let status = dk_main(alloc, &words, &mut desk).status();
    let file = Vec::from_slice(alloc, desk.file().unwrap_or_default())?;
    let notes = Vec::from_slice(alloc, desk.notes().unwrap_or_default())?;
    Ok(Left {
        status,
        file,
        notes,
    })
}

// The module that `run` clocks shows, clock by clock, what the text of `compile` shows in `sim` over as many clocks.
#[test]
fn runs_the_text_that_it_compiles(rt: HostRuntime) -> Result<(), Fail> {
    let alloc = rt.alloc();
    let two =
        b"size 2 1 input a : u8 input b : u8 let s = im(x,y) (a(x,y)+b(x,y)) as u8 end output s output a".as_slice();
    let row = b"P5 4 1 255\n\x03\x06\x09\x0c".as_slice();
    let mean = b"P5\n4 1\n255\n\x03\x06\x09\x07".as_slice();
    let pair = b"P5 2 1 255\n\x01\x02P5 2 1 255\n\x0a\x14".as_slice();
    let sums = b"P5\n2 1\n255\n\x0b\x16P5\n2 1\n255\n\x01\x02".as_slice();
    let cases: [(u32, u32, &[u8], &[u8], &[u8]); 3] = [
        (0, 5, MEAN, row, mean),
        (1, 6, MEAN, row, mean),
        (0, 2, two, pair, sums),
    ];
    for (age, clocks, program, image, wanted) in cases {
        let line = format!(in alloc; "dk run --age {age} first second out")?;
        let run = called(alloc, &line, program, image)?;
        assert_eq!(rt; (run.status, run.file.as_slice()), (0, wanted));
        let line = format!(in alloc; "dk compile --age {age} first out")?;
        let compiled = called(alloc, &line, program, image)?;
        let line = format!(in alloc; "dk sim first {clocks} second out")?;
        let sim = called(alloc, &line, &compiled.file, image)?;
        assert_eq!(rt; (sim.status, sim.file.as_slice()), (0, wanted));
        assert_eq!(rt; sim.notes.as_slice(), run.notes.as_slice());
    }
    Ok(())
}

// The line and the number of notes of made programs: one note for each pixel and each clock of the latency, and one for the reset clock.
#[test]
fn made_programs_are_summed(rt: HostRuntime) -> Result<(), Fail> {
    let alloc = rt.alloc();
    let cases: [(&str, &[u8], usize); 3] = [
        (
            "dk make 0",
            b"make 0: size 1 1 images 1 reads 1 bits 0 latency 0 sum 35\n",
            2,
        ),
        (
            "dk make 1",
            b"make 1: size 2 1 images 1 reads 0 bits 0 latency 0 sum 0\n",
            3,
        ),
        (
            "dk make 3",
            b"make 3: size 4 1 images 1 reads 1 bits 8 latency 0 sum 0\n",
            5,
        ),
    ];
    for (line, wanted, notes) in cases {
        let words = words(alloc, line)?;
        let mut desk = desk(alloc, COPY, FOUR_ZEROS, NONE, 4096)?;
        assert_eq!(rt; dk_main(alloc, &words, &mut desk).status(), 0);
        assert_eq!(rt; desk.report(), wanted, "at {line}");
        assert_eq!(rt; desk.notes().unwrap_or_default().len(), notes, "at {line}");
    }
    Ok(())
}

// Where a write of the line fails, Report holds the pieces before it.
#[test]
fn a_line_may_break_off(rt: HostRuntime) -> Result<(), Fail> {
    let alloc = rt.alloc();
    let words = words(alloc, "dk make 0")?;
    let cases: [(u64, &[u8]); 2] = [(0, b""), (2, b"make 0: size 1 1")];
    for (failing, wanted) in cases {
        let mut desk = desk(alloc, COPY, FOUR_ZEROS, failing, 8)?;
        assert_eq!(rt; dk_main(alloc, &words, &mut desk).status(), 8);
        assert_eq!(rt; desk.report(), wanted);
    }
    Ok(())
}
