//! The header that comes next, taken byte by byte.

ghost use Rattle.std.specs.Prelude.{◌≡◌, Ok, Err, None, IfOk, IfErr, IfSome, IsErr, OnErr, option_to_list};
ghost use Rattle.std.specs.Io.KnownBytes.{prepend_known, IsAtEnd};
ghost use Rattle.dk_base.specs.FrameSizes.{size_of};
ghost use Rattle.row_stream.specs.Heads.{CanTakeHead, TakesHead, TakesNext, HasEnded, EndsHeading};
ghost use Rattle.row_stream.specs.HeadReading.{EndsHead};
ghost use Rattle.row_stream.specs.Calls.{OnlyReads};

use crate::faults::{StreamFault, check_header, header_fault};
use dk_base::{FrameSize, MAX_HEADER_BYTES};
use dk_desk::{Desk, Failed, InSlot, Stage};
use pgm_codec::{Header, HeaderFault, HeaderScan, Scan};

// Why there is no header.
#[derive(Clone, Copy, Debug, PartialEq, Eq)]
pub(crate) enum HeadFault {
    Head(HeaderFault),
    Read,
}

// The next byte, or None at the end.
pub(crate) fn next_byte<D: Desk>(desk: &mut D) -> Result<Option<u8>, Failed>
    requires { (D.outside desk.old).image.stage ≡ Stage.Open }
    ensures given { IfOk result (λ next. (D.outside desk.old).image.rest
        ≡ prepend_known (option_to_list next) (D.outside desk.new).image.rest) }
    ensures end { result ≡ Ok None → IsAtEnd (D.outside desk.new).image.rest }
    ensures stays { OnErr result
        ((D.outside desk.old).image.rest ≡ (D.outside desk.new).image.rest) }
    ensures desk { OnlyReads (IsErr result) (D.outside desk.old) (D.outside desk.new) }
{
    let mut byte = [0u8; 1];
    match desk.read(InSlot::Image, &mut byte) {
        Err(failed) => Err(failed),
        Ok(0) => Ok(None),
        Ok(_) => Ok(Some(byte[0])),
    }
}

// Reads the header that comes next. None if the input may end here, and does.
pub(crate) fn next_head<D: Desk>(desk: &mut D, may_end: bool) -> Result<Option<Header>, HeadFault>
    requires { (D.outside desk.old).image.stage ≡ Stage.Open }
    ensures ok { IfOk result (λ next. IfSome next
        (λ header. TakesHead header (D.outside desk.old).image (D.outside desk.new).image)) }
    ensures none { result ≡ Ok None → HasEnded may_end (D.outside desk.old) (D.outside desk.new) }
    ensures err { IfErr result
        (λ e. EndsHead may_end e (D.outside desk.old).image (D.outside desk.new).image) }
    ensures desk { OnlyReads (result ≡ Err HeadFault.Read) (D.outside desk.old)
        (D.outside desk.new) }
{
    pgm_codec::one_reading_law();
    let mut scan = HeaderScan::new();
    for index in 0..MAX_HEADER_BYTES {
        match next_byte(desk) {
            Err(_) => return Err(HeadFault::Read),
            Ok(None) => {
                if index == 0 && may_end {
                    return Ok(None);
                }
                return Err(HeadFault::Head(scan.end()));
            }
            Ok(Some(byte)) => match scan.push(byte) {
                Scan::More => {}
                Scan::Done(header) => return Ok(Some(header)),
                Scan::Fault(fault) => return Err(HeadFault::Head(fault)),
            },
        }
    }
    unreachable!()
}

// Reads the header that comes next, of an image that fits, at this offset of the file. None if the input may end here, and does.
pub(crate) fn next_image<D: Desk>(
    desk: &mut D,
    size: FrameSize,
    bits: u8,
    offset: usize,
    may_end: bool,
) -> Result<Option<Header>, StreamFault>
    requires { CanTakeHead bits offset (D.outside desk.old) }
    ensures { TakesNext result (size_of size) bits may_end
        (λ f. EndsHeading (size_of size) bits offset may_end f (D.outside desk.old).image
        (D.outside desk.new).image) (D.outside desk.old) (D.outside desk.new) }
{
    match next_head(desk, may_end) {
        Err(HeadFault::Read) => Err(StreamFault::Read),
        Err(HeadFault::Head(fault)) => Err(StreamFault::Image(header_fault(fault, offset))),
        Ok(None) => Ok(None),
        Ok(Some(header)) => match check_header(size, bits, &header) {
            Ok(()) => Ok(Some(header)),
            Err(fault) => Err(StreamFault::Image(fault)),
        },
    }
}
