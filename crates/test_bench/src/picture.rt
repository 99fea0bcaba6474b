// What the outputs show.

ghost use Rattle.std.specs.Prelude.{ℕ, ◌+◌, ◌^◌, ◌<◌, ◌≤◌, ◌++◌, [], ◌∷◌, List, IfOk, vec_capacity, if◌then◌else◌};
ghost use Rattle.dk_base.specs.declared.TheConstants.{MAX_PORT_WIDTH};
ghost use Rattle.test_bench.specs.Clocking.{IsKept};

use cycle_sim::Out;
use dk_base::OutOfMemory;
use std::alloc::Global;

/// What an output has shown.
#[derive(Drop)]
pub struct Shown {
    /// The first samples of its picture, in raster order.
    pub samples: Vec<u16>,
    /// How many samples the picture has.
    pub count: u64,
}

impl Shown {
    /// A picture without samples, with room for `most`.
    pub fn new(alloc: Global, most: usize) -> Result<Shown, OutOfMemory>
        ensures kept { IfOk result (λ shown. IsKept most [] shown) }
        ensures room { IfOk result (λ shown. most ≤ vec_capacity shown.samples) }
    {
        let samples = Vec::with_capacity(alloc, most)?;
        Ok(Shown { samples, count: 0 })
    }

    /// Adds what the output shows in a clock, where its valid is 1. The first `most` samples are kept, and all are counted. It takes no memory.
    pub fn add(&mut self, most: usize, out: Out)
        requires room { most ≤ vec_capacity self.old.samples }
        requires dout { out.dout < 2 ^ MAX_PORT_WIDTH }
        ensures room { most ≤ vec_capacity self.new.samples }
        ensures kept { (whole : List ℕ) → IsKept most whole self.old
            → IsKept most (whole ++ (if out.valid then out.dout ∷ [] else [])) self.new }
    {
        if out.valid {
            self.count = self.count.saturating_add(1);
            if self.samples.len() < most {
                self.samples.push_reserved(out.dout as u16);
            }
        }
    }
}
