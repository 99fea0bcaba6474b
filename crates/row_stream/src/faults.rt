//! Why a stream ended early, with places counted from the start of the file.

ghost use Rattle.std.specs.Prelude.{◌≡◌, ℕ, ◌+◌, ◌-◌, ◌*◌, ◌^◌, ◌<◌, ◌≤◌, List, Err, IfOk, IfErr, OnErr};
ghost use Rattle.dk_base.specs.declared.TheConstants.{MAX_FILE_IMAGES, MAX_PORT_WIDTH};
ghost use Rattle.dk_base.specs.Frames.{Size as TheSize};
ghost use Rattle.dk_base.specs.FrameSizes.{size_of};
ghost use Rattle.pgm_codec.specs.declared.header.Header.{Header as TheHeader};
ghost use Rattle.pgm_codec.specs.Answers.{Refuses, Reads};
ghost use Rattle.pgm_codec.specs.Rasters.{JudgesRaster};
ghost use Rattle.pgm_rounds.specs.Files.{HasSize, IsHeaded, Refused};
ghost use Rattle.row_stream.specs.HeadReading.{IsRefusal};

use dk_base::FrameSize;
use pgm_codec::{Header, HeaderFault, RasterFault};
use pgm_rounds::FileFault;

/// Why a file was not streamed to its end.
#[derive(Clone, Copy, Debug, PartialEq, Eq, thiserror::Error)]
pub enum StreamFault {
    /// The first fault of the file of images.
    #[error("{0}")]
    Image(FileFault),
    #[error("cannot read")]
    Read,
    #[error("cannot write")]
    Write,
}

// A header's fault, for a header at this offset of the file.
pub(crate) fn header_fault(fault: HeaderFault, offset: usize) -> FileFault
    requires refusal { IsRefusal fault }
    requires offset { offset < 2 ^ 62 }
    ensures { (size : TheSize) (bits number : ℕ) (bytes : List ℕ) → Refuses bytes fault
        → Refused size bits number offset bytes result }
{
    match fault {
        HeaderFault::Magic => FileFault::Magic { offset },
        HeaderFault::LongHeader => FileFault::LongHeader,
        HeaderFault::Number { offset: inside } => FileFault::Number {
            offset: offset + inside,
        },
        HeaderFault::Range { offset: inside } => FileFault::Range {
            offset: offset + inside,
        },
    }
}

// The greatest sample of this width.
fn greatest_sample(bits: u8) -> u32
    requires { bits ≤ MAX_PORT_WIDTH }
    ensures { result ≡ 2 ^ bits - 1 }
{
    (1 << bits) - 1
}

// Tests that a header has the size of the frames and a maxval of this width.
pub(crate) fn check_header(size: FrameSize, bits: u8, header: &Header) -> Result<(), FileFault>
    requires bits { bits ≤ MAX_PORT_WIDTH }
    ensures sized { IfOk result (λ _. HasSize (size_of size) header.now) }
    ensures maxval { IfOk result (λ _. header.now.maxval ≤ 2 ^ bits - 1) }
    ensures unfit { OnErr result (HasSize (size_of size) header.now
        → header.now.maxval ≤ 2 ^ bits - 1 → ⊥) }
    ensures fault { IfErr result (λ f. (number offset : ℕ) (bytes : List ℕ) → Reads bytes header.now
        → Refused (size_of size) bits number offset bytes f) }
{
    if header.width != size.width || header.height != size.height {
        return Err(FileFault::Size {
            width: header.width,
            height: header.height,
        });
    }
    if greatest_sample(bits) < u32::from(header.maxval) {
        return Err(FileFault::Maxval {
            maxval: header.maxval,
        });
    }
    Ok(())
}

// The number of pixels of `images` images.
fn pixels(size: FrameSize, images: u64) -> usize
    requires { images < MAX_FILE_IMAGES }
    ensures is { result ≡ images * (size.width * size.height) }
    ensures small { result < 2 ^ 40 }
{
    images as usize * (size.width as usize * size.height as usize)
}

// A raster's fault, for an image after `images` others of the file.
pub(crate) fn raster_fault(fault: RasterFault, size: FrameSize, images: u64) -> FileFault
    requires images { images < MAX_FILE_IMAGES }
    requires index { (index : ℕ) → fault ≡ RasterFault.SampleTooGreat index → index < 2 ^ 40 }
    ensures { (bits offset : ℕ) (bytes : List ℕ) (header : TheHeader)
        → IsHeaded (size_of size) bits bytes header → JudgesRaster bytes header (Err fault)
        → Refused (size_of size) bits images offset bytes result }
{
    match fault {
        RasterFault::SampleTooGreat { index } => FileFault::SampleTooGreat {
            index: pixels(size, images) + index,
        },
        RasterFault::Short { held, need } => FileFault::Short { held, need },
    }
}
