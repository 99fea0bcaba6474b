// The bytes of an image.

ghost use Rattle.std.specs.Prelude.{◌≡◌, ◌*◌, ◌%◌, ◌<◌, ◌≤◌, ◌++◌, length, map, OnOk, false};
ghost use Rattle.std.specs.List.{All, flat_map};
ghost use Rattle.dk_base.specs.declared.TheConstants.{MAX_SIDE};
ghost use Rattle.dk_base.specs.Frames.{IsFrame};
ghost use Rattle.dk_frames.specs.Slices.{samples_of};
ghost use Rattle.pgm_codec.specs.Images.{header_of, raster_of, spelled};

use dk_base::{FrameSize, OutOfMemory};
use dk_frames::SampleSlice;
use pgm_codec::write_header;
use std::alloc::AllocError;

// Adds the header of an image.
fn add_header(width: u32, height: u32, maxval: u16, file: &mut Vec<u8>) -> Result<(), OutOfMemory>
    requires width { (0 < width) × (width ≤ MAX_SIDE) }
    requires height { (0 < height) × (height ≤ MAX_SIDE) }
    requires maxval { 0 < maxval }
    ensures { OnOk result (file.new.items ≡ file.old.items ++ header_of width height maxval) }
{
    let mut bytes = [0; 19];
    let length = write_header(width, height, maxval, &mut bytes);
    file.extend_from_slice(bytes.split_at(length).0)
}

// Adds the low byte of each sample, which is the sample itself where none is above 255.
fn add_low_bytes(samples: &[u16], file: &mut Vec<u8>) -> Result<(), OutOfMemory>
    ensures { OnOk result (file.new.items ≡ file.old.items ++ map (λ s. s % 256) samples.now) }
{
    file.extend(samples.iter().map(|sample| (*sample % 256) as u8))
}

// Puts samples of two bytes each, the most significant first.
fn put_pairs(samples: &[u16], bytes: &mut [u8])
    requires { length bytes.old ≡ 2 * length samples.now }
    ensures { bytes.new ≡ flat_map (spelled false) samples.now }
{
    for k in 0..samples.len() {
        bytes[2 * k] = (samples[k] / 256) as u8;
        bytes[2 * k + 1] = (samples[k] % 256) as u8;
    }
}

// Adds samples of two bytes each.
fn add_pairs(samples: &[u16], file: &mut Vec<u8>) -> Result<(), OutOfMemory>
    ensures { OnOk result (file.new.items ≡ file.old.items ++ flat_map (spelled false) samples.now) }
{
    let start = file.len();
    let Some(end) = start.checked_add(2 * samples.len()) else {
        return Err(AllocError);
    };
    file.resize(end, 0)?;
    put_pairs(samples, &mut file[start..]);
    Ok(())
}

// Adds each byte after a zero byte, as samples of two bytes each.
fn add_wide_bytes(samples: &[u8], file: &mut Vec<u8>) -> Result<(), OutOfMemory>
    ensures { OnOk result (file.new.items ≡ file.old.items ++ flat_map (spelled false) samples.now) }
{
    for sample in samples {
        file.push(0)?;
        file.push(*sample)?;
    }
    Ok(())
}

// Adds 8-bit samples of an image with this maxval.
#[tactic(auto, using(crate::proofs::Pairs::bytes_raster))]
fn add_bytes(samples: &[u8], maxval: u16, file: &mut Vec<u8>) -> Result<(), OutOfMemory>
    ensures { OnOk result (file.new.items ≡ file.old.items ++ raster_of maxval samples.now) }
{
    if maxval < 256 {
        file.extend_from_slice(samples)
    } else {
        add_wide_bytes(samples, file)
    }
}

// Adds 16-bit samples of an image with this maxval.
fn add_words(samples: &[u16], maxval: u16, file: &mut Vec<u8>) -> Result<(), OutOfMemory>
    requires { All (λ s. s ≤ maxval) samples.now }
    ensures { OnOk result (file.new.items ≡ file.old.items ++ raster_of maxval samples.now) }
{
    if maxval < 256 {
        add_low_bytes(samples, file)
    } else {
        add_pairs(samples, file)
    }
}

// Adds samples of an image with this maxval.
fn add_samples(samples: SampleSlice<'_>, maxval: u16, file: &mut Vec<u8>) -> Result<(), OutOfMemory>
    requires { All (λ s. s ≤ maxval) (samples_of samples) }
    ensures { OnOk result (file.new.items ≡ file.old.items ++ raster_of maxval (samples_of samples.entry)) }
{
    match samples {
        SampleSlice::U8(samples) => add_bytes(samples, maxval, file),
        SampleSlice::U16(samples) => add_words(samples, maxval, file),
    }
}

// The number of bytes of an image, or more.
fn room(count: usize, maxval: u16) -> usize {
    let sample = if maxval < 256 { 1 } else { 2 };
    count.saturating_mul(sample).saturating_add(19)
}

/// Adds an image: its header, and its samples in raster order, in one byte each where `maxval` is below 256, and else in two. Without memory the file may have a front of the image.
pub fn write_image(
    size: FrameSize,
    maxval: u16,
    samples: SampleSlice<'_>,
    file: &mut Vec<u8>,
) -> Result<(), OutOfMemory>
    requires maxval { 0 < maxval }
    requires bounded { All (λ s. s ≤ maxval) (samples_of samples) }
    ensures { OnOk result (file.new.items ≡ file.old.items ++ (header_of size.width size.height maxval ++ raster_of maxval (samples_of samples.entry))) }
{
    file.reserve(room(samples.len(), maxval))?;
    add_header(size.width, size.height, maxval, file)?;
    add_samples(samples, maxval, file)?;
    Ok(())
}
