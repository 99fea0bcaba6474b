// The image that comes next in a file.

ghost use Rattle.std.specs.Prelude.{◌≡◌, ◌+◌, ◌-◌, ◌*◌, ◌<◌, ◌≤◌, ◌^◌, ℕ, List, length, IfOk, IfErr, MatchResult, false};
ghost use Rattle.dk_base.specs.declared.TheConstants.{MAX_FILE_IMAGES, MAX_SIDE, MAX_PORT_WIDTH};
ghost use Rattle.dk_base.specs.Frames.{Size as TheSize, IsFrame, area as area_of};
ghost use Rattle.dk_base.specs.FrameSizes.{size_of};
ghost use Rattle.pgm_codec.specs.Answers.{Reads};
ghost use Rattle.pgm_codec.specs.Rasters.{BeginsImage, raster_length as length_of_raster};
ghost use Rattle.pgm_rounds.specs.Files.{HasSize, IsHeaded, Refused};
ghost use Rattle.pgm_rounds.specs.Standing.{IsAccepted, AreSamples, IsNext, IsRefusal};

use crate::fault::{FileError, FileFault};
use dk_base::{FrameSize, OutOfMemory};
use dk_frames::{Frame, Samples};
use pgm_codec::{Header, HeaderFault, RasterFault, check_raster, read_header};
use std::alloc::Global;

// Where an image is in a file: after this many images and this many bytes.
#[derive(Clone, Copy)]
pub(crate) struct FilePosition {
    pub(crate) images: usize,
    pub(crate) offset: usize,
}

// The header with which the bytes at this offset begin.
fn next_header(offset: usize, rest: &[u8]) -> Result<Header, FileFault>
    requires { offset + length rest.now < 2 ^ 63 }
    ensures { MatchResult result (λ h. Reads rest.now h) (λ f. (size : TheSize) (bits number : ℕ) → Refused size bits number offset rest.now f) }
{
    match read_header(rest) {
        Ok(header) => Ok(header),
        Err(HeaderFault::Magic) => Err(FileFault::Magic { offset }),
        Err(HeaderFault::LongHeader) => Err(FileFault::LongHeader),
        Err(HeaderFault::Number { offset: inside }) => Err(FileFault::Number {
            offset: offset + inside,
        }),
        Err(HeaderFault::Range { offset: inside }) => Err(FileFault::Range {
            offset: offset + inside,
        }),
    }
}

// The greatest sample of this many bits.
fn greatest_sample(width: u8) -> u32
    requires { width ≤ MAX_PORT_WIDTH }
    ensures { result ≡ 2 ^ width - 1 }
{
    (1 << width) - 1
}

// Whether the image has the frame's size, and a maxval that an input of this many bits takes.
fn check_header(size: FrameSize, width: u8, header: &Header, rest: &[u8]) -> Result<(), FileFault>
    requires width { width ≤ MAX_PORT_WIDTH }
    requires reads { Reads rest.now header.now }
    ensures headed { IfOk result (λ _. IsHeaded (size_of size) width rest.now header.now) }
    ensures fault { IfErr result (λ f. (number offset : ℕ) → Refused (size_of size) width number offset rest.now f) }
{
    if header.width != size.width || header.height != size.height {
        return Err(FileFault::Size {
            width: header.width,
            height: header.height,
        });
    }
    if greatest_sample(width) < u32::from(header.maxval) {
        return Err(FileFault::Maxval {
            maxval: header.maxval,
        });
    }
    Ok(())
}

// The number of pixels.
fn area(size: FrameSize) -> usize
    ensures is { result ≡ area_of (size_of size) }
    ensures most { result ≤ MAX_SIDE * MAX_SIDE }
{
    size.width as usize * size.height as usize
}

// Whether the raster is there, and each sample is at most maxval.
fn check_samples(
    size: FrameSize,
    images: usize,
    header: &Header,
    rest: &[u8],
) -> Result<(), FileFault>
    requires few { images < MAX_FILE_IMAGES }
    requires reads { Reads rest.now header.now }
    requires sized { HasSize (size_of size) header.now }
    ensures image { IfOk result (λ _. (samples : List ℕ) × BeginsImage rest.now header.now samples) }
    ensures fault { IfErr result (λ f. (bits offset : ℕ) → IsHeaded (size_of size) bits rest.now header.now
        → Refused (size_of size) bits images offset rest.now f) }
{
    match check_raster(header, rest) {
        Ok(()) => Ok(()),
        Err(RasterFault::SampleTooGreat { index }) => Err(FileFault::SampleTooGreat {
            index: images * area(size) + index,
        }),
        Err(RasterFault::Short { held, need }) => Err(FileFault::Short { held, need }),
    }
}

// The header of the image with which the bytes at this place begin.
fn judge(size: FrameSize, width: u8, place: FilePosition, rest: &[u8]) -> Result<Header, FileFault>
    requires width { width ≤ MAX_PORT_WIDTH }
    requires few { place.images < MAX_FILE_IMAGES }
    requires within { place.offset + length rest.now < 2 ^ 63 }
    ensures accepted { IfOk result (IsAccepted (size_of size) width rest.now) }
    ensures fault { IfErr result (Refused (size_of size) width place.images place.offset rest.now) }
{
    let header = next_header(place.offset, rest)?;
    check_header(size, width, &header, rest)?;
    check_samples(size, place.images, &header, rest)?;
    Ok(header)
}

// The samples of one byte each.
fn bytes_of(alloc: Global, raster: &[u8]) -> Result<Samples, OutOfMemory>
    ensures { IfOk result (λ samples. samples ≡ raster.now) }
{
    let samples = Vec::from_slice(alloc, raster)?;
    Ok(Samples::from_bytes(samples))
}

// This many samples of two bytes each.
fn pairs_of(alloc: Global, raster: &[u8], count: usize) -> Result<Vec<u16>, OutOfMemory>
    requires { 2 * count ≤ length raster.now }
    ensures { IfOk result (λ samples. AreSamples false raster.now count samples.items) }
{
    let pairs = raster.split_at(2 * count).0.as_chunks::<2>().0;
    pairs
        .iter()
        .map(|pair| u16::from_be_bytes(*pair))
        .collect(alloc)
}

// This many samples of two bytes each.
fn words_of(alloc: Global, raster: &[u8], count: usize) -> Result<Samples, OutOfMemory>
    requires { 2 * count ≤ length raster.now }
    ensures { IfOk result (AreSamples false raster.now count) }
{
    let samples = pairs_of(alloc, raster, count)?;
    Ok(Samples::new(samples))
}

// The samples of the image with which the bytes begin.
fn read_samples(alloc: Global, header: &Header, rest: &[u8]) -> Result<Samples, OutOfMemory>
    requires reads { Reads rest.now header.now }
    requires image { (samples : List ℕ) × BeginsImage rest.now header.now samples }
    requires few { header.now.width * header.now.height ≤ MAX_SIDE * MAX_SIDE }
    ensures { IfOk result (λ read. (samples : List ℕ) → BeginsImage rest.now header.now samples → read ≡ samples) }
{
    pgm_codec::one_answer_law();
    pgm_codec::rows_are_rasters_law();
    let raster = rest.split_at(header.length).1;
    let count = header.width as usize * header.height as usize;
    if header.maxval < 256 {
        bytes_of(alloc, raster.split_at(count).0)
    } else {
        words_of(alloc, raster, count)
    }
}

// The number of bytes of the raster.
fn raster_length(header: &Header) -> usize
    requires { header.now.width * header.now.height ≤ MAX_SIDE * MAX_SIDE }
    ensures { result ≡ length_of_raster header.now }
{
    let count = header.width as usize * header.height as usize;
    if header.maxval < 256 {
        count
    } else {
        2 * count
    }
}

// An image that was read: its frame, and the number of its bytes.
#[derive(Drop)]
pub(crate) struct ReadImage {
    pub(crate) frame: Frame,
    pub(crate) length: usize,
}

// The image with which the bytes at this place begin, for an input of this many bits.
pub(crate) fn read_image(
    alloc: Global,
    size: FrameSize,
    width: u8,
    place: FilePosition,
    rest: &[u8],
) -> Result<ReadImage, FileError>
    requires width { width ≤ MAX_PORT_WIDTH }
    requires few { place.images < MAX_FILE_IMAGES }
    requires within { place.offset + length rest.now < 2 ^ 63 }
    ensures next { IfOk result (λ image. IsNext (size_of size) width rest.now image.length image.frame) }
    ensures refusal { IfErr result (IsRefusal (size_of size) width place.images place.offset rest.now) }
{
    pgm_codec::one_answer_law();
    let header = judge(size, width, place, rest)?;
    let samples = read_samples(alloc, &header, rest)?;
    let length = header.length + raster_length(&header);
    let frame = Frame {
        width: header.width,
        height: header.height,
        samples,
    };
    Ok(ReadImage { frame, length })
}
