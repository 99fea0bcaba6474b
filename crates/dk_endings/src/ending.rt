//! How a call ends, and its exit status.

ghost use Rattle.std.specs.Prelude.{◌≡◌};
ghost use Rattle.dk_endings.specs.Lines.{status_of};

use crate::verilog::VerilogFault;
use pgm_rounds::FileFault;
use source_fault::{SourceFault, WidenFault};
use stimulus::Stop;

/// Why a file of images is refused.
#[derive(Clone, Copy, Debug, PartialEq, Eq)]
pub enum ImageFault {
    /// The file is longer than `MAX_PGM_BYTES`.
    TooLong,
    /// The first fault of its images.
    File(FileFault),
}

/// Why a report is refused.
#[derive(Clone, Copy, Debug, PartialEq, Eq)]
pub enum ReportFault {
    /// The report is longer than `MAX_REPORT_BYTES`.
    TooLong,
    /// The first line that continues no report or is wrong, counted from 1.
    Line { number: u64 },
}

/// How a call ends.
#[derive(Clone, Copy, Debug, PartialEq, Eq)]
pub enum Ending {
    /// All was done and written.
    Done,
    /// The words are refused, a value is not in its range, or the output has the name of an input.
    Usage,
    /// A program's text is refused.
    Source(SourceFault),
    /// A file of images is refused.
    Image(ImageFault),
    /// A Verilog text is too long, denotes no module, or is to hold clocks without the port `en`.
    Verilog(VerilogFault),
    /// A module's run shows no pictures.
    Stopped(Stop),
    /// A report does not hold.
    Rejected(ReportFault),
    /// A program gets no phases.
    Unable(WidenFault),
    /// An input could not be opened or read.
    ReadFault,
    /// The output could not be created or written.
    WriteFault,
    /// Memory ran out before anything was created or written.
    Memory,
}

impl Ending {
    /// The exit status.
    pub fn status(&self) -> u8
        ensures { result ≡ status_of self.now }
    {
        match self {
            Ending::Done => 0,
            Ending::Usage => 2,
            Ending::Source(_) => 3,
            Ending::Image(_) => 4,
            Ending::Verilog(_) => 5,
            Ending::Stopped(_) => 6,
            Ending::ReadFault => 7,
            Ending::WriteFault => 8,
            Ending::Memory => 9,
            Ending::Rejected(_) => 10,
            Ending::Unable(_) => 11,
        }
    }
}
