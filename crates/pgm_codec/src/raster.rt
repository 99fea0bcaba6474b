//! Samples, read and judged.

ghost use Rattle.std.specs.Prelude.{◌≡◌, ◌<◌, ◌≤◌, ◌+◌, ◌*◌, ℕ, List, length, take, slice_index, MatchOption, Result, false};
ghost use Rattle.pgm_codec.specs.declared.raster.RasterFault.{RasterFault as TheRasterFault};
ghost use Rattle.pgm_codec.specs.Answers.{Reads};
ghost use Rattle.pgm_codec.specs.Images.{sample_size as size};
ghost use Rattle.pgm_codec.specs.Rasters.{sample_by, sample_at, AllFit, FirstGreat, BeginsImage, JudgesRaster, JudgesRow, behind as bytes_behind, raster_length as length_of_raster, row_length as length_of_row};

use crate::header::Header;

/// Why the bytes after a header are not its raster.
#[derive(Clone, Copy, Debug, PartialEq, Eq, thiserror::Error)]
pub enum RasterFault {
    /// The first sample above maxval, counted from 0.
    #[error("SampleTooGreat {index}")]
    SampleTooGreat { index: usize },
    /// Bytes of the raster that are there, and bytes that it has to have.
    #[error("Short {held} {need}")]
    Short { held: u128, need: u128 },
}

// The sample of this number where samples have two bytes.
fn pair(raster: &[u8], index: usize) -> u16
    requires { 2 * index + 2 ≤ length raster.now }
    ensures { result ≡ sample_by false raster.now index }
{
    let high = u16::from(raster[2 * index]);
    let low = u16::from(raster[2 * index + 1]);
    256 * high + low
}

// The first byte above `most`.
fn great_byte(raster: &[u8], most: u8) -> Option<usize>
    ensures { MatchOption result ((k : ℕ) → k < length raster.now → slice_index raster.now k ≤ most)
        (λ i. (i < length raster.now) × (most < slice_index raster.now i) × ((k : ℕ) → k < i → slice_index raster.now k ≤ most)) }
{
    if most == u8::MAX {
        return None;
    }
    for (index, sample) in raster.iter().enumerate() {
        if *sample > most {
            return Some(index);
        }
    }
    None
}

// The first whole sample of two bytes above `most`.
fn great_pair(raster: &[u8], most: u16) -> Option<usize>
    ensures { MatchOption result ((k : ℕ) → 2 * k + 2 ≤ length raster.now → sample_by false raster.now k ≤ most)
        (λ i. (2 * i + 2 ≤ length raster.now) × (most < sample_by false raster.now i) × ((k : ℕ) → k < i → sample_by false raster.now k ≤ most)) }
{
    for index in 0..raster.len() / 2 {
        if pair(raster, index) > most {
            return Some(index);
        }
    }
    None
}

// The first whole sample above maxval.
fn first_great(raster: &[u8], maxval: u16) -> Option<usize>
    ensures { MatchOption result (AllFit maxval raster.now) (λ i. FirstGreat maxval raster.now i) }
{
    if maxval < 256 {
        great_byte(raster, maxval as u8)
    } else {
        great_pair(raster, maxval)
    }
}

// The number of bytes of a sample.
fn sample_size(maxval: u16) -> u8
    ensures is { result ≡ size maxval }
    ensures few { result ≤ 2 }
{
    if maxval < 256 { 1 } else { 2 }
}

fn raster_length(header: &Header) -> u128
    ensures { result ≡ length_of_raster header.now }
{
    u128::from(header.width) * u128::from(header.height) * u128::from(sample_size(header.maxval))
}

// The first this many bytes, or all where there are fewer.
fn first_bytes(bytes: &[u8], most: u128) -> &[u8]
    ensures { result.now ≡ take most bytes.now }
{
    if most < bytes.len() as u128 {
        bytes.split_at(most as usize).0
    } else {
        bytes
    }
}

// The bytes after the header.
fn behind<'a>(header: &Header, bytes: &'a [u8]) -> &'a [u8]
    requires { Reads bytes.now header.now }
    ensures { result.now ≡ bytes_behind header.now bytes.now }
{
    bytes.split_at(header.length).1
}

/// Judges the raster of the image with which the bytes begin, whatever follows it. The header is the one that `read_header` gives of these bytes.
pub fn check_raster(header: &Header, bytes: &[u8]) -> Result<(), RasterFault>
    requires { Reads bytes.now header.now }
    ensures judged { JudgesRaster bytes.now header.now result }
    ensures only { (other : Result Unit TheRasterFault) → JudgesRaster bytes.now header.now other → other ≡ result }
{
    let need = raster_length(header);
    let seen = first_bytes(behind(header, bytes), need);
    let held = seen.len() as u128;
    match first_great(seen, header.maxval) {
        Some(index) => Err(RasterFault::SampleTooGreat { index }),
        None => {
            if held < need {
                Err(RasterFault::Short { held, need })
            } else {
                Ok(())
            }
        }
    }
}

/// A sample of the image with which the bytes begin, in raster order from 0.
pub fn sample(header: &Header, bytes: &[u8], index: usize) -> u16
    requires header { Reads bytes.now header.now }
    requires raster { (samples : List ℕ) × BeginsImage bytes.now header.now samples }
    requires index { index < header.now.width * header.now.height }
    ensures { (samples : List ℕ) → BeginsImage bytes.now header.now samples → result ≡ slice_index samples index }
{
    let raster = behind(header, bytes);
    if header.maxval < 256 {
        u16::from(raster[index])
    } else {
        pair(raster, index)
    }
}

/// Judges one row of a raster, of which the first `got` bytes were read.
pub fn check_row(header: &Header, bytes: &[u8], row: u32, got: usize) -> Result<(), RasterFault>
    requires bytes { length bytes.now ≡ length_of_row header.now }
    requires got { got ≤ length bytes.now }
    requires row { row < header.now.height }
    ensures judged { JudgesRow (take got bytes.now) header.now row result }
    ensures only { (other : Result Unit TheRasterFault) → JudgesRow (take got bytes.now) header.now row other → other ≡ result }
{
    let seen = bytes.split_at(got).0;
    match first_great(seen, header.maxval) {
        Some(column) => Err(RasterFault::SampleTooGreat {
            index: row as usize * header.width as usize + column,
        }),
        None if got < bytes.len() => Err(RasterFault::Short {
            held: u128::from(row) * bytes.len() as u128 + got as u128,
            need: raster_length(header),
        }),
        None => Ok(()),
    }
}
