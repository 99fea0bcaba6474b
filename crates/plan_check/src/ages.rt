// The ages of live reads by printed delays, which may be any numbers of 64 bits.

ghost use Rattle.std.specs.Prelude.{◌≡◌, ◌↔◌, max, [], ◌∷◌, IsTrue, length, All};
ghost use Rattle.raster_delay.specs.Delays.{AreReadsOf, IsReadAmong, age_of, depth_of};
ghost use Rattle.plan_check.specs.Holding.{IsOldOf, delays_of};

use raster_delay::{PlacedRead, age};
use report_text::ImageLine;

// How old a read is by the printed delays.
fn printed_age(row: u32, images: &[ImageLine], r: PlacedRead) -> i128
    requires { IsReadAmong row (length images.now) r }
    ensures { result ≡ age_of row (delays_of images.now) r }
{
    age(row, images[r.f].delay, images[r.g].delay, r)
}

// Whether a read is at least so old, where it is of the image at place `g`.
fn is_old(row: u32, least: u8, images: &[ImageLine], r: PlacedRead, g: usize) -> bool
    requires { IsReadAmong row (length images.now) r }
    ensures { IsTrue result ↔ IsOldOf row least (delays_of images.now) g r }
{
    if r.g != g {
        return true;
    }
    printed_age(row, images, r) >= i128::from(least)
}

// Whether each live read of the image at place `g` is at least so old.
pub(crate) fn are_old(
    row: u32,
    least: u8,
    inputs: usize,
    images: &[ImageLine],
    reads: &[PlacedRead],
    g: usize,
) -> bool
    requires { AreReadsOf row inputs (length images.now) reads.now }
    ensures { IsTrue result ↔ All (IsOldOf row least (delays_of images.now) g) reads.now }
{
    for r in reads {
        if !is_old(row, least, images, *r, g) {
            return false;
        }
    }
    true
}

// The greatest of an age and of a read's age, where the read is of the image at place `g`.
fn deeper(row: u32, images: &[ImageLine], r: PlacedRead, g: usize, greatest: u128) -> u128
    requires { IsReadAmong row (length images.now) r }
    ensures { result ≡ max greatest (depth_of row (delays_of images.now) (r ∷ []) g) }
{
    if r.g == g {
        greatest.max(printed_age(row, images, r).unsigned_abs())
    } else {
        greatest
    }
}

// The greatest age of a live read of the image at place `g`, 0 without any. An age below 0 counts as its size.
pub(crate) fn depth(
    row: u32,
    inputs: usize,
    images: &[ImageLine],
    reads: &[PlacedRead],
    g: usize,
) -> u128
    requires { AreReadsOf row inputs (length images.now) reads.now }
    ensures { result ≡ depth_of row (delays_of images.now) reads.now g }
{
    let mut greatest: u128 = 0;
    for r in reads {
        greatest = deeper(row, images, *r, g, greatest);
    }
    greatest
}
