//! The images of a file, one after another.

ghost use Rattle.std.specs.Prelude.{true, ◌≡◌, ◌+◌, ◌*◌, ◌^◌, ◌<◌, ◌≤◌, Ok, Err, None, IfOk, IfErr, IfSome, OnOk};
ghost use Rattle.dk_base.specs.declared.TheConstants.{MAX_FILE_IMAGES, MAX_SIDE};
ghost use Rattle.dk_base.specs.FrameSizes.{size_of};
ghost use Rattle.dk_desk.specs.Outside.{Input};
ghost use Rattle.pgm_codec.specs.Rasters.{row_length};
ghost use Rattle.row_stream.specs.Formats.{kind_of};
ghost use Rattle.row_stream.specs.Heads.{CanTakeHead, TakesHead, TakesNext};
ghost use Rattle.row_stream.specs.Ends.{EndsNext};
ghost use Rattle.row_stream.specs.ImageReading.{EndsImage, EndsImages, StreamsAll, unread};
ghost use Rattle.row_stream.specs.Calls.{ReadsAndWrites};
ghost use Rattle.row_stream.specs.States.{CanStream, IsReady, Keeps, StreamsOrEnds};

use crate::faults::{StreamFault, raster_fault};
use crate::heads::{next_byte, next_image};
use crate::rows::{RowsFault, row_bytes};
use crate::state::Stream;
use dk_base::{FrameSize, MAX_FILE_IMAGES};
use dk_desk::{Desk, InSlot, Stage};
use pgm_codec::Header;
use pgm_rounds::FileFault;

// The number of bytes of an image.
fn image_bytes(header: &Header) -> usize
    requires width { header.now.width ≤ MAX_SIDE }
    requires height { header.now.height ≤ MAX_SIDE }
    requires length { header.now.length < 2 ^ 32 }
    ensures is { result ≡ header.now.length + header.now.height * row_length header.now }
    ensures most { result ≤ header.now.length + MAX_SIDE * (2 * MAX_SIDE) }
{
    header.length + header.height as usize * row_bytes(header)
}

// Reads the header of the image that comes next, after this number of images and bytes. None at the end of the input.
fn further_image<D: Desk>(
    desk: &mut D,
    size: FrameSize,
    bits: u8,
    images: u64,
    offset: usize,
) -> Result<Option<Header>, StreamFault>
    requires head { CanTakeHead bits offset (D.outside desk.old) }
    requires images { images ≤ MAX_FILE_IMAGES }
    ensures next { TakesNext result (size_of size) bits true
        (λ f. EndsNext (size_of size) bits images offset f (D.outside desk.old).image
        (D.outside desk.new).image) (D.outside desk.old) (D.outside desk.new) }
    ensures few { IfOk result (λ next. IfSome next (λ _. images < MAX_FILE_IMAGES)) }
{
    if images < MAX_FILE_IMAGES {
        return next_image(desk, size, bits, offset, true);
    }
    match next_byte(desk) {
        Err(_) => Err(StreamFault::Read),
        Ok(None) => Ok(None),
        Ok(Some(_)) => Err(StreamFault::Image(FileFault::Count)),
    }
}

impl Stream {
    // Streams the lines of an image after `images` others.
    fn stream_image<D: Desk>(
        &mut self,
        desk: &mut D,
        images: u64,
        header: &Header,
    ) -> Result<(), StreamFault>
        requires can { CanStream (2 ^ 60) self.old header.now (D.outside desk.old) }
        requires images { images < MAX_FILE_IMAGES }
        ensures { StreamsOrEnds result StreamFault.Read StreamFault.Write
            (λ f. EndsImage (kind_of self.old.format) self.old.sim.netlist header.now self.old.bits
            images f self.old.sim.contents self.old.line (D.outside desk.old) (D.outside desk.new))
            header.now header.now.height (MAX_SIDE * MAX_SIDE) self.old self.new
            (D.outside desk.old) (D.outside desk.new) }
    {
        let size = self.format.size;
        match self.stream_rows(desk, header) {
            Ok(()) => Ok(()),
            Err(RowsFault::Raster(fault)) => {
                Err(StreamFault::Image(raster_fault(fault, size, images)))
            }
            Err(RowsFault::Read) => Err(StreamFault::Read),
            Err(RowsFault::Write) => Err(StreamFault::Write),
        }
    }

    // Streams the images of a file whose first header was taken, to the end of the input.
    pub(crate) fn stream_images<D: Desk>(
        &mut self,
        desk: &mut D,
        first: Header,
    ) -> Result<(), StreamFault>
        requires { CanStream 2 self.old first (D.outside desk.old) }
        ensures keeps { Keeps self.old self.new }
        ensures ready { OnOk result (IsReady self.new (D.outside desk.new)) }
        ensures few { OnOk result (self.new.line.rows < 2 ^ 60) }
        ensures ok { OnOk result
            ((before : Input) → TakesHead first before (D.outside desk.old).image
            → StreamsAll (kind_of self.old.format) self.old.sim.netlist self.old.bits before.rest
            self.old.sim.contents self.new.sim.contents self.old.line self.new.line
            (unread before (D.outside desk.old)) (D.outside desk.new)) }
        ensures err { IfErr result
            (λ f. (before : Input) → TakesHead first before (D.outside desk.old).image
            → EndsImages (kind_of self.old.format) self.old.sim.netlist self.old.bits f before.rest
            self.old.sim.contents self.old.line (unread before (D.outside desk.old))
            (D.outside desk.new)) }
        ensures desk { ReadsAndWrites (result ≡ Err StreamFault.Read)
            (result ≡ Err StreamFault.Write) (D.outside desk.old) (D.outside desk.new) }
    {
        let size = self.format.size;
        let bits = self.bits;
        let mut header = first;
        let mut offset = 0;
        for images in 0..MAX_FILE_IMAGES {
            self.stream_image(desk, images, &header)?;
            offset += image_bytes(&header);
            match further_image(desk, size, bits, images + 1, offset)? {
                None => return Ok(()),
                Some(next) => header = next,
            }
        }
        unreachable!()
    }
}
