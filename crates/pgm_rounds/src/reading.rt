// How far the reading of a file is.

ghost use Rattle.std.specs.Prelude.{◌≡◌, ◌+◌, ◌<◌, ◌≤◌, ◌++◌, ◌∷◌, [], length, OnOk, IfOk, IfErr};
ghost use Rattle.std.specs.List.{All};
ghost use Rattle.dk_base.specs.declared.TheConstants.{MAX_FILE_IMAGES, MAX_PORT_WIDTH};
ghost use Rattle.dk_base.specs.Frames.{IsFrame};
ghost use Rattle.dk_base.specs.FrameSizes.{size_of};
ghost use Rattle.pgm_rounds.specs.declared.fault.FileFault.TheVariants.{Round as OpenRound};
ghost use Rattle.pgm_rounds.specs.declared.fault.FileError.TheVariants.{Fault};
ghost use Rattle.pgm_rounds.specs.Ports.{ports_with};
ghost use Rattle.pgm_rounds.specs.Files.{IsError, frames_of};
ghost use Rattle.pgm_rounds.specs.Standing.{Stands};

use crate::fault::{FileError, FileFault};
use crate::image::{FilePosition, read_image};
use crate::round::Round;
use dk_base::{FrameSize, OutOfMemory};
use dk_frames::Frame;
use std::alloc::Global;

// The rounds that were read, the frames of the round that is begun, and the place after them.
#[derive(Drop)]
pub(crate) struct Reading {
    pub(crate) rounds: Vec<Round>,
    pub(crate) frames: Vec<Frame>,
    pub(crate) place: FilePosition,
}

impl Reading {
    pub(crate) fn new(alloc: Global) -> Reading
        ensures rounds { result.rounds.items ≡ [] }
        ensures frames { result.frames.items ≡ [] }
        ensures images { result.place.images ≡ 0 }
        ensures offset { result.place.offset ≡ 0 }
    {
        Reading {
            rounds: Vec::new(alloc),
            frames: Vec::new(alloc),
            place: FilePosition {
                images: 0,
                offset: 0,
            },
        }
    }

    // Adds a frame to the round that is begun, and closes the round with its last frame.
    fn add(&mut self, alloc: Global, frame: Frame, inputs: usize) -> Result<(), OutOfMemory>
        ensures place { self.new.place ≡ self.old.place }
        ensures begun { OnOk result (length self.old.frames.items + 1 < inputs → self.new.frames.items ≡ self.old.frames.items ++ frame ∷ []) }
        ensures kept { OnOk result (length self.old.frames.items + 1 < inputs → frames_of self.new.rounds.items ≡ frames_of self.old.rounds.items) }
        ensures fresh { OnOk result (length self.old.frames.items + 1 ≡ inputs → self.new.frames.items ≡ []) }
        ensures whole { OnOk result (length self.old.frames.items + 1 ≡ inputs
            → frames_of self.new.rounds.items ≡ frames_of self.old.rounds.items ++ (self.old.frames.items ++ frame ∷ []) ∷ []) }
    {
        self.frames.push(frame)?;
        if self.frames.len() == inputs {
            let frames = std::mem::replace(&mut self.frames, Vec::new(alloc));
            self.rounds.push(Round { frames })?;
        }
        Ok(())
    }

    // Reads the image that comes next.
    pub(crate) fn read_next(
        &mut self,
        alloc: Global,
        size: FrameSize,
        widths: &[u8],
        bytes: &[u8],
    ) -> Result<(), FileError>
        requires widths { All (λ width. width ≤ MAX_PORT_WIDTH) widths.now }
        requires few { self.old.place.images < MAX_FILE_IMAGES }
        requires some { 0 < self.old.place.images → self.old.place.offset < length bytes.now }
        requires stands { Stands (ports_with (size_of size) widths.now) bytes.now
            (frames_of self.old.rounds.items) self.old.frames.items self.old.place.images self.old.place.offset }
        ensures images { OnOk result (self.new.place.images ≡ self.old.place.images + 1) }
        ensures stands { OnOk result (Stands (ports_with (size_of size) widths.now) bytes.now
            (frames_of self.new.rounds.items) self.new.frames.items self.new.place.images self.new.place.offset) }
        ensures fault { IfErr result (IsError (ports_with (size_of size) widths.now) bytes.now) }
    {
        let width = widths[self.frames.len()];
        let rest = bytes.split_at(self.place.offset).1;
        let image = read_image(alloc, size, width, self.place, rest)?;
        self.place.images += 1;
        self.place.offset += image.length;
        self.add(alloc, image.frame, widths.len())?;
        Ok(())
    }

    // The rounds that were read, where none is begun.
    pub(crate) fn finish(self, inputs: usize) -> Result<Vec<Round>, FileError>
        ensures rounds { IfOk result (λ rounds. (rounds.items ≡ self.rounds.items) × (self.frames.items ≡ [])) }
        ensures begun { IfErr result (λ e. (e ≡ Fault (OpenRound (length self.frames.items) inputs)) × (0 < length self.frames.items)) }
    {
        if self.frames.is_empty() {
            Ok(self.rounds)
        } else {
            Err(FileError::Fault(FileFault::Round {
                held: self.frames.len(),
                need: inputs,
            }))
        }
    }
}
