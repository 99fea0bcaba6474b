// The rounds of a file.

ghost use Rattle.std.specs.Prelude.{◌≡◌, ◌<◌, ◌≤◌, List, length, map, IfOk, IfErr};
ghost use Rattle.std.specs.List.{All};
ghost use Rattle.dk_base.specs.declared.TheConstants.{MAX_PORT_WIDTH};
ghost use Rattle.dk_base.specs.Frames.{IsFrame};
ghost use Rattle.dk_base.specs.FrameSizes.{size_of};
ghost use Rattle.pgm_codec.specs.Images.{Image};
ghost use Rattle.pgm_rounds.specs.Ports.{ports_with};
ghost use Rattle.pgm_rounds.specs.Files.{FitsFile, IsError, IsPortRound, frame_of, frames_of};

use crate::fault::{FileError, FileFault};
use crate::reading::Reading;
use crate::round::Round;
use dk_base::{FrameSize, MAX_FILE_IMAGES};
use std::alloc::Global;

/// The rounds of a file of PGM images of this size, for inputs of these widths in bits: one image for each input in order, and again, to the file's end. Images are judged one after another, each in the order header, size, maxval, raster, and the first fault ends the reading.
pub fn read_rounds(
    alloc: Global,
    size: FrameSize,
    widths: &[u8],
    bytes: &[u8],
) -> Result<Vec<Round>, FileError>
    requires some { 0 < length widths.now }
    requires widths { All (λ width. width ≤ MAX_PORT_WIDTH) widths.now }
    ensures fits { IfOk result (λ rounds. (images : List (List Image)) × FitsFile (ports_with (size_of size) widths.now) bytes.now images
        × (frames_of rounds.items ≡ map (map frame_of) images)) }
    ensures frames { IfOk result (λ rounds. All (IsPortRound (ports_with (size_of size) widths.now)) rounds.items) }
    ensures fault { IfErr result (IsError (ports_with (size_of size) widths.now) bytes.now) }
{
    let mut reading = Reading::new(alloc);
    for _ in 0..MAX_FILE_IMAGES {
        reading.read_next(alloc, size, widths, bytes)?;
        if reading.place.offset == bytes.len() {
            return reading.finish(widths.len());
        }
    }
    Err(FileError::Fault(FileFault::Count))
}
