// The file of the pictures.

ghost use Rattle.std.specs.Prelude.{◌≡◌, ℕ, ◌+◌, ◌*◌, ◌-◌, ◌^◌, ◌<◌, ◌≤◌, ◌++◌, length, take, drop, IfOk, OnOk, MatchOption, MatchBool};
ghost use Rattle.dk_base.specs.declared.TheConstants.{MAX_FILE_IMAGES, MAX_SIDE};
ghost use Rattle.dk_base.specs.Frames.{area as area_of};
ghost use Rattle.dk_base.specs.FrameSizes.{size_of};
ghost use Rattle.wiring.specs.Rules.{IsPortWidth};
ghost use Rattle.pgm_codec.specs.Images.{header_of, raster_of, file_of};
ghost use Rattle.stimulus.specs.Showing.{IsEnough};
ghost use Rattle.test_bench.specs.Writing.{HasEnough, HaveRound, IsFirstShort, AreWhole, image_kept, round_kept, rounds_kept};

use crate::picture::Shown;
use dk_base::{FrameSize, OutOfMemory};
use dk_frames::SampleSlice;
use netlist::Width;
use pgm_rounds::write_image;
use std::alloc::Global;

// The number of pixels of a frame.
pub fn area(size: FrameSize) -> usize
    ensures is { result ≡ area_of (size_of size) }
    ensures some { 0 < result }
    ensures most { result ≤ MAX_SIDE * MAX_SIDE }
{
    size.width as usize * size.height as usize
}

// Whether an output has shown enough: exactly this many samples where it is the only one, and else at least that.
fn is_enough(outputs: usize, asked: u64, shown: u64) -> bool
    ensures { MatchBool result (IsEnough outputs asked shown) (¬ IsEnough outputs asked shown) }
{
    if outputs == 1 {
        return shown == asked;
    }
    asked <= shown
}

/// What the first picture that has not shown enough has shown, if there is one.
pub fn first_short(pictures: &[Shown], asked: u64) -> Option<u64>
    ensures { MatchOption result ((k : ℕ) → HasEnough pictures.now asked k)
        (IsFirstShort pictures.now asked) }
{
    for k in 0..pictures.len() {
        let shown = pictures[k].count;
        if !is_enough(pictures.len(), asked, shown) {
            return Some(shown);
        }
    }
    None
}

// The greatest number of this many bits.
fn greatest(width: Width) -> u16
    requires { IsPortWidth width }
    ensures { result ≡ 2 ^ width - 1 }
{
    ((1u32 << width.bits()) - 1) as u16
}

// This many samples from this place on.
fn part(samples: &[u16], from: usize, count: usize) -> &[u16]
    requires { from + count ≤ length samples.now }
    ensures { result.now ≡ take count (drop from samples.now) }
{
    samples.split_at(from).1.split_at(count).0
}

// Adds the image of an output in a round.
fn write_output(
    size: FrameSize,
    ports: &[Width],
    pictures: &[Shown],
    round: usize,
    output: usize,
    file: &mut Vec<u8>,
) -> Result<(), OutOfMemory>
    requires whole { HaveRound (size_of size) ports.now pictures.now round }
    requires output { output < length pictures.now }
    ensures { OnOk result
        (let image = image_kept (size_of size) ports.now pictures.now round output in file.new.items
        ≡ file.old.items ++ (header_of size.width size.height image.maxval ++ raster_of image.maxval
        image.samples)) }
{
    let pixels = area(size);
    let maxval = greatest(ports[2 * output + 1]);
    let samples = part(&pictures[output].samples, round * pixels, pixels);
    write_image(size, maxval, SampleSlice::U16(samples), file)?;
    Ok(())
}

// Adds the images of all outputs in a round.
fn write_round(
    size: FrameSize,
    ports: &[Width],
    pictures: &[Shown],
    round: usize,
    file: &mut Vec<u8>,
) -> Result<(), OutOfMemory>
    requires whole { HaveRound (size_of size) ports.now pictures.now round }
    ensures { OnOk result (file.new.items
        ≡ file.old.items ++ file_of (round_kept (size_of size) ports.now pictures.now round)) }
{
    for output in 0..pictures.len() {
        write_output(size, ports, pictures, round, output, file)?;
    }
    Ok(())
}

/// The file of the images of this many rounds.
pub fn write_rounds(
    alloc: Global,
    size: FrameSize,
    ports: &[Width],
    pictures: &[Shown],
    rounds: usize,
) -> Result<Vec<u8>, OutOfMemory>
    requires rounds { rounds ≤ MAX_FILE_IMAGES }
    requires whole { AreWhole (size_of size) ports.now rounds pictures.now }
    ensures { IfOk result (λ file. file.items
        ≡ file_of (rounds_kept (size_of size) ports.now pictures.now rounds)) }
{
    let mut file = Vec::new(alloc);
    for round in 0..rounds {
        write_round(size, ports, pictures, round, &mut file)?;
    }
    Ok(file)
}
