// Images by their numbers, and live reads by the places of their images among the kept ones.

ghost use Rattle.std.specs.Prelude.{◌≡◌, ◌≤◌, IfOk, IfSome, IfNone, All};
ghost use Rattle.dk_base.specs.declared.TheConstants.{MAX_SIDE};
ghost use Rattle.dk_base.specs.Stencils.{IsKept, Ascends, place};
ghost use Rattle.raster_delay.specs.Delays.{offset};
ghost use Rattle.raster_delay.specs.Placing.{placed, reads_of};

use dk_base::{Image, LiveRead, OutOfMemory};
use std::alloc::Global;

/// The image at place `f` reads the image at place `g`, at `dx` columns to the right and `dy` rows down.
#[derive(Clone, Copy, Debug, PartialEq, Eq)]
pub struct PlacedRead {
    pub f: usize,
    pub g: usize,
    pub dx: i32,
    pub dy: i32,
}

/// The place of an image among the kept ones, if it is kept.
pub fn find(images: &[Image], number: u32) -> Option<usize>
    requires { Ascends images.now }
    ensures kept { IfSome result (λ k. IsKept images.now number) }
    ensures place { IfSome result (λ k. k ≡ place images.now number) }
    ensures not_kept { IfNone result (IsKept images.now number → ⊥) }
{
    match images.binary_search_by_key(&number, |image| image.number) {
        Ok(place) => Some(place),
        Err(_) => None,
    }
}

/// The place of a kept image among the kept ones.
pub fn place_of(images: &[Image], number: u32) -> usize
    requires ascending { Ascends images.now }
    requires kept { IsKept images.now number }
    ensures { result ≡ place images.now number }
{
    match find(images, number) {
        Some(place) => place,
        None => 0,
    }
}

/// A live read of kept images, with their places.
pub fn placed_read(images: &[Image], r: LiveRead) -> PlacedRead
    requires ascending { Ascends images.now }
    requires reader { IsKept images.now r.f }
    requires source { IsKept images.now r.g }
    ensures { result ≡ placed images.now r }
{
    PlacedRead {
        f: place_of(images, r.f),
        g: place_of(images, r.g),
        dx: r.dx,
        dy: r.dy,
    }
}

// Live reads with the places of their images.
pub fn placed_reads(
    alloc: Global,
    images: &[Image],
    reads: &[LiveRead],
) -> Result<Vec<PlacedRead>, OutOfMemory>
    requires ascending { Ascends images.now }
    requires readers { All (λ r. IsKept images.now r.f) reads.now }
    requires sources { All (λ r. IsKept images.now r.g) reads.now }
    ensures { IfOk result (λ v. v.items ≡ reads_of images.now reads.now) }
{
    let mut placed = Vec::new(alloc);
    for r in reads {
        placed.push(placed_read(images, *r))?;
    }
    Ok(placed)
}

/// How much later in raster order the pixel that is read comes, in a frame with `row` columns.
pub fn offset(row: u32, r: PlacedRead) -> i64
    requires row { row ≤ MAX_SIDE }
    ensures { result ≡ offset row r }
{
    i64::from(r.dy) * i64::from(row) + i64::from(r.dx)
}
