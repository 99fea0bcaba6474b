//! A header taken byte by byte, and from a slice.

ghost use Rattle.std.specs.Prelude.{◌≡◌, ◌≢◌, ◌<◌, ◌≤◌, ℕ, List, [], ◌∷◌, ◌++◌, Result, Ok, Err};
ghost use Rattle.dk_base.specs.declared.TheConstants.{MAX_HEADER_BYTES};
ghost use Rattle.pgm_codec.specs.declared.header.Header.{Header as TheHeader};
ghost use Rattle.pgm_codec.specs.declared.header.HeaderFault.{HeaderFault as TheFault};
ghost use Rattle.pgm_codec.specs.Answers.{Answers, Judges, Refuses};
ghost use Rattle.pgm_codec.specs.Scans.{Scanned, told};
ghost use Rattle.pgm_codec.specs.Automaton.{verdict, ranged as ranged_of, fault_at as fault_of};

use crate::header::{Header, HeaderFault};
use crate::reading::{Reading, Stage};
use crate::scan::{HeaderScan, Scan};
use dk_base::{MAX_HEADER_BYTES, MAX_MAXVAL};

// The fault of bytes that end here, or have a byte here that continues no header.
fn fault_at(offset: usize) -> HeaderFault
    ensures { result ≡ fault_of offset }
{
    if offset < 2 {
        HeaderFault::Magic
    } else {
        HeaderFault::Number { offset }
    }
}

// The header that was read whole, if its maxval is in its range.
fn ranged(reading: Reading) -> Scan
    ensures { result ≡ ranged_of reading }
{
    if reading.value == 0 || reading.value > u32::from(MAX_MAXVAL) {
        Scan::Fault(HeaderFault::Range {
            offset: reading.first,
        })
    } else {
        Scan::Done(Header {
            width: reading.width,
            height: reading.height,
            maxval: reading.value as u16,
            length: reading.length,
        })
    }
}

// What is known where this was read.
fn answer_of(reading: Reading) -> Scan
    ensures is { result ≡ verdict reading }
    ensures short { result ≡ Scan.More → reading.length < MAX_HEADER_BYTES }
{
    match reading.stage {
        Stage::Whole => ranged(reading),
        Stage::Lost => Scan::Fault(fault_at(reading.length)),
        _ if reading.length < MAX_HEADER_BYTES => Scan::More,
        _ => Scan::Fault(HeaderFault::LongHeader),
    }
}

impl HeaderScan {
    pub fn new() -> Self
        ensures scanned { Scanned result [] }
        ensures told { told result ≡ Scan.More }
    {
        HeaderScan {
            reading: Reading::new(),
            answer: Scan::More,
        }
    }

    /// Takes the next byte. Once the answer is not `More` it stays.
    pub fn push(&mut self, byte: u8) -> Scan
        ensures answer { (bytes : List ℕ) → Scanned self.old bytes → Answers (bytes ++ byte ∷ []) result }
        ensures scanned { (bytes : List ℕ) → Scanned self.old bytes → Scanned self.new (bytes ++ byte ∷ []) }
        ensures told { told self.new ≡ result }
        ensures again { told self.old ≢ Scan.More → result ≡ told self.old }
    {
        match self.answer {
            Scan::More => {
                let reading = self.reading.step(byte);
                let answer = answer_of(reading);
                *self = HeaderScan { reading, answer };
                answer
            }
            Scan::Done(header) => Scan::Done(header),
            Scan::Fault(fault) => Scan::Fault(fault),
        }
    }

    /// The fault of a file that ends here.
    pub fn end(&self) -> HeaderFault
        requires { (header : TheHeader) → told self.now ≢ Scan.Done header }
        ensures { (bytes : List ℕ) → Scanned self.now bytes → Refuses bytes result }
    {
        match self.answer {
            Scan::Fault(fault) => fault,
            Scan::More => fault_at(self.reading.length),
            Scan::Done(_) => unreachable!(),
        }
    }
}

/// Reads the header with which the bytes begin. Faults come in the order Magic, LongHeader, Number, Range.
pub fn read_header(bytes: &[u8]) -> Result<Header, HeaderFault>
    ensures judged { Judges bytes.now result }
    ensures only { (other : Result TheHeader TheFault) → Judges bytes.now other → other ≡ result }
{
    let mut scan = HeaderScan::new();
    for byte in bytes {
        match scan.push(*byte) {
            Scan::More => {}
            Scan::Done(header) => return Ok(header),
            Scan::Fault(fault) => return Err(fault),
        }
    }
    Err(scan.end())
}
