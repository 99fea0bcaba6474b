// Why a file does not fit a program.

ghost use Rattle.std.specs.Prelude.{◌≡◌};
ghost use Rattle.pgm_rounds.specs.declared.fault.FileError.TheVariants.{Fault as AFault, OutOfMemory};

use std::alloc::{AllocError, AllocFailed};

/// What is wrong with a file of images. Images and bytes are counted from the start of the file.
#[derive(Clone, Copy, Debug, PartialEq, Eq, thiserror::Error)]
pub enum FileFault {
    /// An image that does not begin with `P5`.
    #[error("Magic {offset}")]
    Magic { offset: usize },
    /// A header of more than 65,536 bytes.
    #[error("LongHeader")]
    LongHeader,
    /// The first byte that continues no header, or the end of the file inside one.
    #[error("Number {offset}")]
    Number { offset: usize },
    /// The first digit of a maxval that is 0 or above 65,535.
    #[error("Range {offset}")]
    Range { offset: usize },
    /// An image of another size than the program's frames, in pixels.
    #[error("Size {width} {height}")]
    Size { width: u32, height: u32 },
    /// A maxval that the type of the image's input does not have.
    #[error("Maxval {maxval}")]
    Maxval { maxval: u16 },
    /// The first sample above its image's maxval, counted from 0 over the samples of all images.
    #[error("SampleTooGreat {index}")]
    SampleTooGreat { index: usize },
    /// Bytes of an image's raster that are there, and bytes that it has to have.
    #[error("Short {held} {need}")]
    Short { held: u128, need: u128 },
    /// A byte after 65,536 images.
    #[error("Count")]
    Count,
    /// The images of the last round that are there, and those that it has to have.
    #[error("Round {held} {need}")]
    Round { held: usize, need: usize },
}

/// Why a file was not read: its first fault, or out of memory.
#[derive(Clone, Copy, Debug, PartialEq, Eq, thiserror::Error)]
pub enum FileError {
    #[error("{0}")]
    Fault(FileFault),
    #[error("out of memory")]
    OutOfMemory,
}

impl From<FileFault> for FileError {
    ghost from_gives = { λ f e. e ≡ AFault f };

    fn from(fault: FileFault) -> FileError {
        FileError::Fault(fault)
    }
}

impl From<AllocError> for FileError {
    ghost from_gives = { λ _ e. e ≡ OutOfMemory };

    fn from(_e: AllocError) -> FileError {
        FileError::OutOfMemory
    }
}

impl<T: Drop> From<AllocFailed<T>> for FileError {
    ghost from_gives = { λ _ e. e ≡ OutOfMemory };

    fn from(_e: AllocFailed<T>) -> FileError {
        FileError::OutOfMemory
    }
}
