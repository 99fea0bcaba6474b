//! The lines of an image, read, judged and clocked.

ghost use Rattle.std.specs.Prelude.{◌≡◌, ℕ, ◌*◌, ◌^◌, ◌<◌, ◌≤◌, Ok, Err, OnOk, IfErr, length, slice_index};
ghost use Rattle.std.specs.Io.KnownBytes.{prepend_known};
ghost use Rattle.dk_base.specs.declared.TheConstants.{MAX_SIDE};
ghost use Rattle.pgm_codec.specs.Rasters.{JudgesRow, row_length};
ghost use Rattle.row_stream.specs.Rows.{CanReadRow, IsRowFault};
ghost use Rattle.row_stream.specs.RowReading.{ReadsRow};
ghost use Rattle.row_stream.specs.Calls.{OnlyReads};
ghost use Rattle.row_stream.specs.States.{CanStream, EndsAtRow, EndsInRows, StreamsOrEnds};

use crate::state::Stream;
use dk_desk::transfer::read_full;
use dk_desk::{Desk, InSlot, Stage};
use pgm_codec::{Header, RasterFault, check_row};

/// Why the lines of an image were not all streamed.
#[derive(Clone, Copy, Debug, PartialEq, Eq)]
pub enum RowsFault {
    /// A line is not whole, or has a sample above maxval.
    Raster(RasterFault),
    /// A read failed.
    Read,
    /// The write of a line failed.
    Write,
}

// Reads and judges a line.
fn read_row<D: Desk>(
    desk: &mut D,
    header: &Header,
    row: u32,
    to: &mut [u8],
) -> Result<(), RowsFault>
    requires opened { (D.outside desk.old).image.stage ≡ Stage.Open }
    requires room { length to.old ≡ row_length header.now }
    requires row { row < header.now.height }
    ensures room { length to.new ≡ row_length header.now }
    ensures given { OnOk result
        ((D.outside desk.old).image.rest ≡ prepend_known to.new (D.outside desk.new).image.rest) }
    ensures judged { OnOk result (JudgesRow to.new header.now row (Ok tt)) }
    ensures bytes { (k : ℕ) → slice_index to.new k < 256 }
    ensures fault { IfErr result
        (λ e. IsRowFault header.now row e (D.outside desk.old).image (D.outside desk.new).image) }
    ensures desk { OnlyReads (result ≡ Err RowsFault.Read) (D.outside desk.old)
        (D.outside desk.new) }
{
    match read_full(desk, InSlot::Image, to) {
        Err(_) => Err(RowsFault::Read),
        Ok(got) => match check_row(header, to, row, got) {
            Ok(()) => Ok(()),
            Err(fault) => Err(RowsFault::Raster(fault)),
        },
    }
}

// The number of bytes of a row.
pub(crate) fn row_bytes(header: &Header) -> usize
    requires { header.now.width ≤ MAX_SIDE }
    ensures is { result ≡ row_length header.now }
    ensures most { result ≤ 2 * header.now.width }
{
    if header.maxval < 256 {
        header.width as usize
    } else {
        2 * header.width as usize
    }
}

// `read_row` with room for more bytes.
fn read_within<D: Desk>(
    desk: &mut D,
    header: &Header,
    row: u32,
    to: &mut [u8],
) -> Result<(), RowsFault>
    requires { CanReadRow header.now row (length to.old) (D.outside desk.old) }
    ensures { ReadsRow result header.now row to.old to.new (D.outside desk.old)
        (D.outside desk.new) }
{
    let count = row_bytes(header);
    read_row(desk, header, row, &mut to[..count])
}

// The same into a vector.
fn read_front<D: Desk>(
    desk: &mut D,
    header: &Header,
    row: u32,
    to: &mut Vec<u8>,
) -> Result<(), RowsFault>
    requires { CanReadRow header.now row (length to.old.items) (D.outside desk.old) }
    ensures { ReadsRow result header.now row to.old.items to.new.items (D.outside desk.old)
        (D.outside desk.new) }
{
    read_within(desk, header, row, to)
}

impl Stream {
    // Reads, judges and clocks the line of this number.
    fn stream_row<D: Desk>(
        &mut self,
        desk: &mut D,
        header: &Header,
        row: u32,
    ) -> Result<(), RowsFault>
        requires can { CanStream (2 ^ 61) self.old header.now (D.outside desk.old) }
        requires row { row < header.now.height }
        ensures { StreamsOrEnds result RowsFault.Read RowsFault.Write
            (λ e. EndsAtRow header.now row self.old e (D.outside desk.old) (D.outside desk.new))
            header.now 1 self.old.format.size.width self.old self.new (D.outside desk.old)
            (D.outside desk.new) }
    {
        read_front(desk, header, row, &mut self.row)?;
        match self.clock_row(desk, header) {
            Err(_) => Err(RowsFault::Write),
            Ok(()) => Ok(()),
        }
    }

    // Reads, judges and clocks the lines of an image whose header was read.
    pub(crate) fn stream_rows<D: Desk>(
        &mut self,
        desk: &mut D,
        header: &Header,
    ) -> Result<(), RowsFault>
        requires { CanStream (2 ^ 60) self.old header.now (D.outside desk.old) }
        ensures { StreamsOrEnds result RowsFault.Read RowsFault.Write
            (λ e. EndsInRows header.now self.old e (D.outside desk.old) (D.outside desk.new))
            header.now header.now.height (MAX_SIDE * MAX_SIDE) self.old self.new
            (D.outside desk.old) (D.outside desk.new) }
    {
        for row in 0..header.height {
            self.stream_row(desk, header, row)?;
        }
        Ok(())
    }
}
