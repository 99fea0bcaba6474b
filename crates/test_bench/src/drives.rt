//! How the module of a plan is driven.

ghost use Rattle.std.specs.Prelude.{◌≡◌, ◌≤◌, ◌<◌, ◌^◌};
ghost use Rattle.dk_base.specs.declared.TheConstants.{MAX_LATENCY, MAX_FILE_IMAGES};
ghost use Rattle.dk_base.specs.Frames.{IsFrame};
ghost use Rattle.dk_base.specs.FrameSizes.{size_of};
ghost use Rattle.test_bench.specs.Drives as drives;

use cycle_sim::Fill;
use dk_base::FrameSize;
use stimulus::Drive;

/// How a module of this latency is driven with a number of rounds of frames, from zeros: a clock for each pixel, and then those of the latency.
pub fn frame_drive(size: FrameSize, latency: u64, rounds: usize) -> Drive
    requires latency { latency ≤ MAX_LATENCY }
    requires rounds { rounds ≤ MAX_FILE_IMAGES }
    requires frame { IsFrame size.width size.height }
    ensures is { result ≡ drives.frame_drive (size_of size) latency rounds }
    ensures few { result.clocks < 2 ^ 60 }
{
    let area = u64::from(size.width) * u64::from(size.height);
    Drive {
        clocks: rounds as u64 * area + latency,
        fill: Fill::Zeros,
        hold: None,
    }
}
