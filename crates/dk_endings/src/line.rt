//! The line that an ending writes to Fault.

ghost use Rattle.std.specs.Prelude.{◌≡◌, ◌≤◌, ◌+◌, ◌<◌, ◌++◌, length, decimal};
ghost use Rattle.std.specs.Fmt.{signed_decimal};
ghost use Rattle.dk_endings.specs.Lines.{spanned as spanned_text, numbered as numbered_text, twice_numbered as twice_numbered_text, fault_line, counted as counted_text, source_line as line_of_source, file_line as line_of_file, token_kind as token_word, limit_kind as limit_word, verilog_kind as verilog_word, verilog_line as line_of_verilog, index_line as index_text, count_line as count_text, stop_line as line_of_stop, report_line as line_of_report, widen_fault_line as line_of_widen, holds_line as holds_text};

use crate::ending::{Ending, ImageFault, ReportFault};
use crate::verilog::{VerilogFault, VerilogKind};
use arrayvec::ArrayString;
use dk_base::{
    MAX_FILE_IMAGES, MAX_HEADER_BYTES, MAX_PGM_BYTES, MAX_REPORT_BYTES, MAX_VERILOG_BYTES, Span,
};
use itoa::Buffer;
use pgm_rounds::FileFault;
use source_fault::{SourceFault, Subject, WidenFault};
use stimulus::Stop;
use verilog_text::{LexKind as TokenKind, LimitKind};

/// The room for a line to Fault, in bytes.
pub const LINE_BYTES: usize = 512;

/// A line to Fault, in room of its own.
pub type Line = ArrayString<LINE_BYTES>;

// A line of one text.
fn plain(text: &str) -> Line
    requires { length text.now ≤ 512 }
    ensures { result.bytes ≡ text.now }
{
    let mut line = Line::new();
    line.push_str(text);
    line
}

// Adds a number, in decimal.
fn push_number(line: &mut Line, number: u128)
    requires { length line.old.bytes + 39 ≤ 512 }
    ensures number { line.new.bytes ≡ line.old.bytes ++ decimal number }
    ensures room { length line.new.bytes ≤ length line.old.bytes + 39 }
{
    let mut digits = Buffer::new();
    line.push_str(digits.format(number));
}

// A line that ends in a number.
fn numbered(before: &str, number: u128) -> Line
    requires { length before.now ≤ 40 }
    ensures { result.bytes ≡ numbered_text before.now number }
{
    let mut line = plain(before);
    push_number(&mut line, number);
    line.push_str("\n");
    line
}

// A line that ends in two numbers.
fn twice_numbered(before: &str, first: u128, second: u128) -> Line
    requires { length before.now ≤ 40 }
    ensures { result.bytes ≡ twice_numbered_text before.now first second }
{
    let mut line = plain(before);
    push_number(&mut line, first);
    line.push_str(" ");
    push_number(&mut line, second);
    line.push_str("\n");
    line
}

// A line on some bytes of a text.
fn spanned(before: &str, span: Span, kind: &str) -> Line
    requires front { length before.now ≤ 10 }
    requires kind { length kind.now ≤ 20 }
    ensures { result.bytes ≡ spanned_text before.now span kind.now }
{
    let mut line = plain(before);
    push_number(&mut line, span.start as u128);
    line.push_str("-");
    push_number(&mut line, span.stop as u128);
    line.push_str(": ");
    line.push_str(kind);
    line.push_str("\n");
    line
}

// A line on a number of a whole program.
fn counted(word: &str, number: u64) -> Line
    requires { length word.now ≤ 20 }
    ensures { result.bytes ≡ counted_text word.now number }
{
    let mut line = plain("program: ");
    line.push_str(word);
    line.push_str(" ");
    push_number(&mut line, u128::from(number));
    line.push_str("\n");
    line
}

fn source_line(fault: SourceFault) -> Line
    ensures { result.bytes ≡ line_of_source fault }
{
    match fault.subject() {
        Subject::Bytes(span) => spanned("program ", span, fault.word()),
        Subject::Number(number) => counted(fault.word(), number),
    }
}

fn file_line(fault: &FileFault) -> Line
    ensures { result.bytes ≡ line_of_file fault.now }
{
    match fault {
        FileFault::Magic { offset } => numbered("image: Magic ", *offset as u128),
        FileFault::LongHeader => numbered("image: LongHeader ", MAX_HEADER_BYTES as u128),
        FileFault::Number { offset } => numbered("image: Number ", *offset as u128),
        FileFault::Range { offset } => numbered("image: Range ", *offset as u128),
        FileFault::Size { width, height } => {
            twice_numbered("image: Size ", u128::from(*width), u128::from(*height))
        }
        FileFault::Maxval { maxval } => numbered("image: Maxval ", u128::from(*maxval)),
        FileFault::SampleTooGreat { index } => numbered("image: SampleTooGreat ", *index as u128),
        FileFault::Short { held, need } => twice_numbered("image: Short ", *held, *need),
        FileFault::Count => numbered("image: Count ", u128::from(MAX_FILE_IMAGES)),
        FileFault::Round { held, need } => {
            twice_numbered("image: Round ", *held as u128, *need as u128)
        }
    }
}

fn token_kind(kind: TokenKind) -> &'static str
    ensures is { result.now ≡ token_word kind }
    ensures short { length result.now ≤ 20 }
{
    match kind {
        TokenKind::BadByte => "BadByte",
        TokenKind::BadConstant => "BadConstant",
        TokenKind::NumberTooGreat => "NumberTooGreat",
        TokenKind::NameTooLong => "NameTooLong",
    }
}

fn limit_kind(kind: LimitKind) -> &'static str
    ensures is { result.now ≡ limit_word kind }
    ensures short { length result.now ≤ 20 }
{
    match kind {
        LimitKind::Width => "Width",
        LimitKind::Words => "Words",
        LimitKind::ArrayBits => "ArrayBits",
        LimitKind::Repeat => "Repeat",
    }
}

fn verilog_kind(kind: VerilogKind) -> &'static str
    ensures is { result.now ≡ verilog_word kind }
    ensures short { length result.now ≤ 20 }
{
    match kind {
        VerilogKind::Token(kind) => token_kind(kind),
        VerilogKind::Syntax => "Syntax",
        VerilogKind::NotInSubset => "NotInSubset",
        VerilogKind::Limit(kind) => limit_kind(kind),
        VerilogKind::Duplicate => "Duplicate",
        VerilogKind::Ports => "Ports",
        VerilogKind::Unknown => "Unknown",
        VerilogKind::WrongSort => "WrongSort",
        VerilogKind::Divisor => "Divisor",
        VerilogKind::Width => "Width",
        VerilogKind::DrivenTwice => "DrivenTwice",
        VerilogKind::Undriven => "Undriven",
        VerilogKind::Cycle => "Cycle",
    }
}

fn verilog_line(fault: &VerilogFault) -> Line
    ensures { result.bytes ≡ line_of_verilog fault.now }
{
    match fault {
        VerilogFault::TooLong => numbered("verilog: TooLong ", MAX_VERILOG_BYTES as u128),
        VerilogFault::At { span, kind } => spanned("verilog ", *span, verilog_kind(*kind)),
    }
}

// Adds a number with its sign, in decimal.
fn push_signed(line: &mut Line, number: i64)
    requires { length line.old.bytes + 20 ≤ 512 }
    ensures number { line.new.bytes ≡ line.old.bytes ++ signed_decimal number }
    ensures room { length line.new.bytes ≤ length line.old.bytes + 20 }
{
    let mut digits = Buffer::new();
    line.push_str(digits.format(number));
}

// A line on an index past the end of its array.
fn index_line(clock: i64, array: usize, index: u64) -> Line
    ensures { result.bytes ≡ index_text clock array index }
{
    let mut line = plain("stopped: clock ");
    push_signed(&mut line, clock);
    line.push_str(" array ");
    push_number(&mut line, array as u128);
    line.push_str(" index ");
    push_number(&mut line, u128::from(index));
    line.push_str("\n");
    line
}

// A line on a picture of too few or too many samples.
fn count_line(shown: u64, wanted: u64) -> Line
    ensures { result.bytes ≡ count_text shown wanted }
{
    let mut line = plain("stopped: count ");
    push_number(&mut line, u128::from(shown));
    line.push_str(" of ");
    push_number(&mut line, u128::from(wanted));
    line.push_str("\n");
    line
}

fn stop_line(stop: &Stop) -> Line
    ensures { result.bytes ≡ line_of_stop stop.now }
{
    match stop {
        Stop::Index {
            clock,
            array,
            index,
        } => index_line(*clock, *array, *index),
        Stop::Count { shown, wanted } => count_line(*shown, *wanted),
    }
}

fn report_line(fault: &ReportFault) -> Line
    ensures { result.bytes ≡ line_of_report fault.now }
{
    match fault {
        ReportFault::TooLong => numbered("report: TooLong ", MAX_REPORT_BYTES as u128),
        ReportFault::Line { number } => numbered("report: line ", u128::from(*number)),
    }
}

fn widen_line(fault: &WidenFault) -> Line
    ensures { result.bytes ≡ line_of_widen fault.now }
{
    match fault {
        WidenFault::Width { width } => numbered("widen: Width ", u128::from(*width)),
        WidenFault::Inputs { count } => numbered("widen: Inputs ", u128::from(*count)),
        WidenFault::Outputs { count } => numbered("widen: Outputs ", u128::from(*count)),
        WidenFault::Limits => plain("widen: Limits\n"),
    }
}

/// The line of a report that holds, with its buffer bits and the latency of the first output in clocks. It allocates no memory.
pub fn holds_line(bits: u64, latency: u64) -> Line
    ensures { result.bytes ≡ holds_text bits latency }
{
    let mut line = plain("report holds: bits ");
    push_number(&mut line, u128::from(bits));
    line.push_str(" latency ");
    push_number(&mut line, u128::from(latency));
    line.push_str("\n");
    line
}

impl Ending {
    /// The line that goes to Fault, with its line end; after Done there is none. It allocates no memory.
    pub fn line(&self) -> Line
        ensures { result.bytes ≡ fault_line self.now }
    {
        match self {
            Ending::Done => plain(""),
            Ending::Usage => plain(
                "usage: run [--age K] PROG IN OUT | compile [--enable] [--age K] [--block N] PROG OUT | nets [--enable] [--age K] [--block N] PROG | plan [--age K] PROG | sim VERILOG CLOCKS IN OUT [--fill FILL] [--hold K] | eval PROG IN OUT | make N | check PROG REPORT | trace VERILOG CLOCKS IN VCD | cut N PROG OUT | narrow PROG OUT | widen P PROG OUT | explain PROG\n",
            ),
            Ending::Source(fault) => source_line(*fault),
            Ending::Image(ImageFault::TooLong) => {
                numbered("image: TooLong ", MAX_PGM_BYTES as u128)
            }
            Ending::Image(ImageFault::File(fault)) => file_line(fault),
            Ending::Verilog(fault) => verilog_line(fault),
            Ending::Stopped(stop) => stop_line(stop),
            Ending::Rejected(fault) => report_line(fault),
            Ending::Unable(fault) => widen_line(fault),
            Ending::ReadFault => plain("cannot read\n"),
            Ending::WriteFault => plain("cannot write\n"),
            Ending::Memory => plain("out of memory\n"),
        }
    }
}
