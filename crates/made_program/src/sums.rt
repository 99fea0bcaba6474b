// The sum of the samples of a file of images.

ghost use Rattle.std.specs.Prelude.{◌≡◌, ◌≤◌, ◌*◌, List, length, sum, IfOk};
ghost use Rattle.std.specs.List.{All, flat_map};
ghost use Rattle.dk_base.specs.declared.TheConstants.{MAX_FILE_IMAGES, MAX_MAXVAL, MAX_SIDE};
ghost use Rattle.dk_base.specs.FrameSizes.{size_of};
ghost use Rattle.pgm_codec.specs.Images.{Image, file_of};
ghost use Rattle.made_program.specs.Sums.{AreSummed, IsOneFrame, samples_of_round};

use dk_base::{FrameSize, MAX_PORT_WIDTH, OutOfMemory};
use dk_frames::Samples;
use pgm_codec::read_again_law;
use pgm_rounds::{FileError, Round, one_file_law, read_rounds};
use std::alloc::{AllocError, Global};

// The sum of the samples of one frame.
fn sum_of_samples(samples: &Samples) -> u64
    requires { length samples.now ≤ MAX_SIDE * MAX_SIDE }
    ensures total { result ≡ sum samples.now }
    ensures most { result ≤ MAX_SIDE * MAX_SIDE * MAX_MAXVAL }
{
    let mut total = 0u64;
    for place in 0..samples.as_slice().len() {
        total += u64::from(samples.sample(place));
    }
    total
}

// The sum of the samples of a round of one frame.
fn sum_of_round(round: &Round) -> u64
    requires { IsOneFrame round.now }
    ensures total { result ≡ sum (samples_of_round round.now) }
    ensures most { result ≤ MAX_SIDE * MAX_SIDE * MAX_MAXVAL }
{
    sum_of_samples(&round.frames[0].samples)
}

// The sum of the samples of rounds of one frame each.
fn sum_of_rounds(rounds: &[Round]) -> u64
    requires few { length rounds.now ≤ MAX_FILE_IMAGES }
    requires frames { All IsOneFrame rounds.now }
    ensures { result ≡ sum (flat_map samples_of_round rounds.now) }
{
    let mut total = 0u64;
    for round in rounds {
        total += sum_of_round(round);
    }
    total
}

// A file of images of this size, as one round for each image.
fn read_images(alloc: Global, size: FrameSize, file: &[u8]) -> Result<Vec<Round>, OutOfMemory>
    requires images { (images : List Image) × AreSummed (size_of size) images × (file.now ≡ file_of images) }
    ensures few { IfOk result (λ rounds. length rounds.items ≤ MAX_FILE_IMAGES) }
    ensures frames { IfOk result (λ rounds. All IsOneFrame rounds.items) }
    ensures samples { IfOk result (λ rounds. (images : List Image) → AreSummed (size_of size) images → file.now ≡ file_of images
        → flat_map samples_of_round rounds.items ≡ flat_map (λ image. image.samples) images) }
{
    read_again_law();
    one_file_law();
    match read_rounds(alloc, size, &[MAX_PORT_WIDTH], file) {
        Ok(rounds) => Ok(rounds),
        Err(FileError::OutOfMemory) => Err(AllocError),
        Err(FileError::Fault(_)) => unreachable!(),
    }
}

/// The sum of the samples of a file of images of this size. The only error is out of memory.
pub fn sample_sum(alloc: Global, size: FrameSize, file: &[u8]) -> Result<u64, OutOfMemory>
    requires images { (images : List Image) × AreSummed (size_of size) images × (file.now ≡ file_of images) }
    ensures { IfOk result (λ total. (images : List Image) → AreSummed (size_of size) images → file.now ≡ file_of images
        → total ≡ sum (flat_map (λ image. image.samples) images)) }
{
    let rounds = read_images(alloc, size, file)?;
    let total = sum_of_rounds(&rounds);
    Ok(total)
}
