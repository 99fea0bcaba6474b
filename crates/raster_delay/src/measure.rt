// Whether delays are causal, and the bits that they need.

ghost use Rattle.std.specs.Prelude.{◌≡◌, ◌≢◌, max, ◌≤◌, ◌<◌, ◌^◌, ◌↔◌, ◌==◌, if◌then◌else◌, ℕ, pos, ◌-ℤ◌, ◌≤ℤ◌, IsTrue, unsigned_abs, length, slice_index, All};
ghost use Rattle.dk_base.specs.declared.TheConstants.{MAX_SIDE, MAX_KEPT_IMAGES};
ghost use Rattle.raster_delay.specs.Network.{coefficient};
ghost use Rattle.raster_delay.specs.Delays.{AreHeldReads, AreNear, AreReads, IsHeldRead, IsNear, IsReadAmong, offset, age_of, depth_of, buffers_of};
ghost use Rattle.raster_delay.specs.Placing.{widths_of};
ghost use Rattle.raster_delay.specs.Systems.{IsCausal, depth, bits};

use crate::build::{begin_node, end_node};
use crate::placed::{PlacedRead, offset};
use crate::system::System;
use dk_base::Image;

/// How old a read is by the delays of the image that reads and of the one that is read, in clocks: negative where the pixel that is read comes later. A frame has `row` columns.
pub fn age(row: u32, reader: u64, source: u64, r: PlacedRead) -> i128
    requires row { row ≤ MAX_SIDE }
    requires near { IsNear (offset row r) }
    ensures { result ≡ pos reader -ℤ pos source -ℤ offset row r }
{
    i128::from(reader) - i128::from(source) - i128::from(offset(row, r))
}

// How old a read is by the delays of all kept images.
fn age_among(row: u32, delays: &[u64], r: PlacedRead) -> i128
    requires { IsReadAmong row (length delays.now) r }
    ensures { result ≡ age_of row delays.now r }
{
    age(row, delays[r.f], delays[r.g], r)
}

// Whether a read is at least so old.
fn is_due(row: u32, least: u8, delays: &[u64], r: PlacedRead) -> bool
    requires { IsReadAmong row (length delays.now) r }
    ensures { IsTrue result ↔ (pos least ≤ℤ age_of row delays.now r) }
{
    age_among(row, delays, r) >= i128::from(least)
}

/// How old a read is, in clocks, where it is of no pixel that comes later. A frame has `row` columns.
pub fn age_held(row: u32, delays: &[u64], r: PlacedRead) -> u64
    requires row { row ≤ MAX_SIDE }
    requires near { IsNear (offset row r) }
    requires reader { r.f < length delays.now }
    requires earlier { r.g < length delays.now }
    requires small { AreNear delays.now }
    requires due { pos 0 ≤ℤ age_of row delays.now r }
    ensures value { result ≡ unsigned_abs (age_of row delays.now r) }
    ensures near { result ≤ 2 ^ 35 }
{
    age_among(row, delays, r) as u64
}

// Whether the first delays, which are the inputs', are all 0.
fn are_at_once(delays: &[u64], inputs: usize) -> bool
    requires { inputs ≤ length delays.now }
    ensures yes { IsTrue result → (k : ℕ) → k < inputs → slice_index delays.now k ≡ 0 }
    ensures no { ((k : ℕ) → k < inputs → slice_index delays.now k ≡ 0) → IsTrue result }
{
    for k in 0..inputs {
        if delays[k] != 0 {
            return false;
        }
    }
    true
}

// Whether each read is at least so old.
fn are_due(row: u32, least: u8, inputs: usize, delays: &[u64], reads: &[PlacedRead]) -> bool
    requires row { row ≤ MAX_SIDE }
    requires reads { AreReads row inputs (length delays.now) reads.now }
    ensures yes { IsTrue result → All (λ r. pos least ≤ℤ age_of row delays.now r) reads.now }
    ensures no { All (λ r. pos least ≤ℤ age_of row delays.now r) reads.now → IsTrue result }
{
    for r in reads {
        if !is_due(row, least, delays, *r) {
            return false;
        }
    }
    true
}

/// Whether these are causal delays of the system, one for each kept image in order, in clocks. It takes no memory.
pub fn causal(system: &System, delays: &[u64]) -> bool
    ensures { IsTrue result ↔ IsCausal system.now delays.now }
{
    system.law();
    if delays.len() != system.images().len() {
        return false;
    }
    if !are_at_once(delays, system.inputs()) {
        return false;
    }
    are_due(
        system.width(),
        system.age(),
        system.inputs(),
        delays,
        system.placed_reads(),
    )
}

// The greatest of an age and of a read's age, where the read is of the image at place `g`.
fn deeper(row: u32, delays: &[u64], r: PlacedRead, g: usize, greatest: u64) -> u64
    requires { IsHeldRead row delays.now r }
    ensures of_it { r.g ≡ g → result ≡ max greatest (unsigned_abs (age_of row delays.now r)) }
    ensures of_others { r.g ≢ g → result ≡ greatest }
    ensures near { greatest ≤ 2 ^ 35 → result ≤ 2 ^ 35 }
{
    if r.g == g {
        greatest.max(age_held(row, delays, r))
    } else {
        greatest
    }
}

// The greatest age of a read of the image at place `g`, 0 without any.
fn depth_among(row: u32, inputs: usize, delays: &[u64], reads: &[PlacedRead], g: usize) -> u64
    requires { AreHeldReads row inputs delays.now reads.now }
    ensures value { result ≡ depth_of row delays.now reads.now g }
    ensures near { result ≤ 2 ^ 35 }
{
    let mut greatest: u64 = 0;
    for r in reads {
        greatest = deeper(row, delays, *r, g, greatest);
    }
    greatest
}

/// The greatest age of a live read of the image at place `g`, in clocks, 0 without any. It takes no memory.
pub fn depth(system: &System, delays: &[u64], g: usize) -> u64
    requires causal { IsCausal system.now delays.now }
    requires small { AreNear delays.now }
    ensures value { result ≡ depth system.now delays.now g }
    ensures near { result ≤ 2 ^ 35 }
{
    system.law();
    depth_among(
        system.width(),
        system.inputs(),
        delays,
        system.placed_reads(),
        g,
    )
}

/// The bits that causal delays need: the sum over the kept images of the width times the depth. It takes no memory.
pub fn bits(system: &System, delays: &[u64]) -> u64
    requires causal { IsCausal system.now delays.now }
    requires small { AreNear delays.now }
    ensures { result ≡ bits system.now delays.now }
{
    system.law();
    let images = system.images();
    let mut total: u64 = 0;
    for g in 0..images.len() {
        total += u64::from(images[g].width) * depth(system, delays, g);
    }
    total
}

// The width of an image at a node, 0 at others.
fn amount(at: usize, width: u8, node: usize) -> i64
    ensures value { result ≡ pos (if at == node then width else 0) }
    ensures least { pos 0 ≤ℤ result }
    ensures most { result ≤ℤ pos 255 }
{
    if at == node { i64::from(width) } else { 0 }
}

// The widths of the images that end at a node, less those of the images that begin there.
pub fn coefficient(inputs: usize, images: &[Image], node: usize) -> i64
    requires inputs { inputs ≤ length images.now }
    requires images { length images.now ≤ MAX_KEPT_IMAGES }
    ensures { result
        ≡ coefficient (buffers_of inputs (length images.now) (widths_of images.now)) node }
{
    let mut sum: i64 = 0;
    for k in 0..images.len() {
        let width = images[k].width;
        sum += amount(end_node(inputs, images.len(), k), width, node);
        sum -= amount(begin_node(inputs, k), width, node);
    }
    sum
}
