// The depth and the ages of each image.

ghost use Rattle.std.specs.Prelude.{◌≡◌, ◌≤◌, ◌<◌, ◌≤ℤ◌, ℕ, pos, [], length, slice_index, slice_index_or, All, IfOk};
ghost use Rattle.dk_base.specs.declared.TheConstants.{MAX_SIDE};
ghost use Rattle.raster_delay.specs.Delays.{AreReads, AreNear, age_of};
ghost use Rattle.raster_delay.specs.Systems.{IsCausal, image_count, placed_reads, depth};
ghost use Rattle.buffer_plan.specs.Plans.{ages_in, AreDistinct};

use dk_base::OutOfMemory;
use flow_dual::Numbers;
use raster_delay::{PlacedRead, System, age_held, depth};
use std::alloc::Global;

// The ages at which the image at place `k` is read, in the order of the reads.
fn ages_read(
    alloc: Global,
    row: u32,
    inputs: usize,
    delays: &[u64],
    reads: &[PlacedRead],
    k: usize,
) -> Result<Vec<u64>, OutOfMemory>
    requires row { row ≤ MAX_SIDE }
    requires reads { AreReads row inputs (length delays.now) reads.now }
    requires small { AreNear delays.now }
    requires due { All (λ r. pos 0 ≤ℤ age_of row delays.now r) reads.now }
    ensures { IfOk result (λ v. v.items ≡ ages_in row delays.now k reads.now) }
{
    let mut ages = Vec::new(alloc);
    for r in reads {
        if r.g == k {
            ages.push(age_held(row, delays, *r))?;
        }
    }
    Ok(ages)
}

// The distinct numbers of a list, ascending.
fn distinct(mut numbers: Vec<u64>) -> Vec<u64>
    ensures { AreDistinct numbers.items result.items }
{
    numbers.sort_unstable();
    numbers.dedup();
    numbers
}

// The distinct ages at which the image at place `k` is read, ascending.
fn ages_at(alloc: Global, system: &System, delays: &[u64], k: usize) -> Result<Numbers, OutOfMemory>
    requires causal { IsCausal system.now delays.now }
    requires small { AreNear delays.now }
    ensures { IfOk result (λ ages. AreDistinct (ages_in system.now.stencils.width delays.now k (placed_reads system.now)) ages) }
{
    system.law();
    let ages = ages_read(
        alloc,
        system.width(),
        system.inputs(),
        delays,
        system.placed_reads(),
        k,
    )?;
    Ok(Numbers::new(distinct(ages)))
}

// The ages of each image.
pub fn all_ages(alloc: Global, system: &System, delays: &[u64]) -> Result<Vec<Numbers>, OutOfMemory>
    requires causal { IsCausal system.now delays.now }
    requires small { AreNear delays.now }
    ensures length { IfOk result (λ v. length v.items ≡ image_count system.now) }
    ensures ages { IfOk result (λ v. (k : ℕ) → k < image_count system.now
        → AreDistinct (ages_in system.now.stencils.width delays.now k (placed_reads system.now)) (slice_index_or v.items k [])) }
{
    let mut all = Vec::new(alloc);
    for k in 0..system.images().len() {
        all.push(ages_at(alloc, system, delays, k)?)?;
    }
    Ok(all)
}

// The depth of each image.
pub fn all_depths(alloc: Global, system: &System, delays: &[u64]) -> Result<Vec<u64>, OutOfMemory>
    requires causal { IsCausal system.now delays.now }
    requires small { AreNear delays.now }
    ensures length { IfOk result (λ v. length v.items ≡ image_count system.now) }
    ensures depths { IfOk result (λ v. (k : ℕ) → k < image_count system.now → slice_index v.items k ≡ depth system.now delays.now k) }
{
    let mut all = Vec::new(alloc);
    for k in 0..system.images().len() {
        all.push(depth(system, delays, k))?;
    }
    Ok(all)
}
