// A plan, and what it contains.

ghost use Rattle.std.specs.Prelude.{◌≡◌, IfOk};
ghost use Rattle.buffer_plan.specs.Plans.{IsPlan, latency, bits_of};

use crate::ages::{all_ages, all_depths};
use crate::find::reads_by;
use dk_base::{Image, LiveRead, OutOfMemory};
use flow_dual::Numbers;
use raster_delay::{System, age_held, find, place_of, placed_read};
use std::alloc::Global;
use std::marker::Model;

/// Delays of the kept images of a system that are within the limits, with what a circuit takes from them. Images go by their numbers; delays, ages and depths are in clocks. No method takes memory.
#[derive(Drop)]
pub struct Plan {
    width: u32,
    height: u32,
    inputs: u32,
    outputs: Vec<u32>,
    images: Vec<Image>,
    reads: Vec<LiveRead>,
    age: u8,
    delays: Vec<u64>,
    depths: Vec<u64>,
    ages: Vec<Numbers>,
    latency: u64,
    bits: u64,
}

impl Model for Plan {
    ghost use Rattle.buffer_plan.specs.Plans.{Plan as ThePlan, IsHeld};

    ghost Value = { ThePlan };

    ghost view = { λ p. record { system = record { stencils = record { width = p.width; height = p.height; inputs = p.inputs; outputs = p.outputs.items; images = p.images.items; reads = p.reads.items }; age = p.age }; delays = p.delays.items } };

    ghost invariant = { λ p. IsHeld (record { system = record { stencils = record { width = p.width; height = p.height; inputs = p.inputs; outputs = p.outputs.items; images = p.images.items; reads = p.reads.items }; age = p.age }; delays = p.delays.items }) p.depths.items p.ages.items p.latency p.bits };
}

// The plan of causal delays within the limits.
pub(crate) fn made(
    alloc: Global,
    system: &System,
    delays: &[u64],
    greatest: u64,
    total: u64,
) -> Result<Plan, OutOfMemory>
    requires plan { IsPlan (record { system = system.now; delays = delays.now }) }
    requires latency { greatest ≡ latency (record { system = system.now; delays = delays.now }) }
    requires bits { total ≡ bits_of (record { system = system.now; delays = delays.now }) }
    ensures { IfOk result (λ p. p ≡ record { system = system.now; delays = delays.now }) }
{
    let outputs = Vec::from_slice(alloc, system.outputs())?;
    let images = Vec::from_slice(alloc, system.images())?;
    let reads = Vec::from_slice(alloc, system.reads())?;
    let depths = all_depths(alloc, system, delays)?;
    let ages = all_ages(alloc, system, delays)?;
    let delays = Vec::from_slice(alloc, delays)?;
    Ok(Plan {
        width: system.width(),
        height: system.height(),
        inputs: system.inputs() as u32,
        outputs,
        images,
        reads,
        age: system.age(),
        delays,
        depths,
        ages,
        latency: greatest,
        bits: total,
    })
}

impl Plan {
    ghost use Rattle.std.specs.Prelude.{◌≡◌, ◌<◌, ◌≤◌, ◌↔◌, IsTrue, Contains, length, pos};
    ghost use Rattle.dk_base.specs.declared.TheConstants.{MAX_BUFFER_BITS};
    ghost use Rattle.dk_base.specs.Stencils.{IsKept};
    ghost use Rattle.buffer_plan.specs.Plans.{IsPlan, AreAges, ages_of, read_age, place_in, delay_of, depth_of, width_of, reads_by, latency, latency_of, clocks, bits_of};

    /// A law: what the type keeps.
    pub fn law(&self)
        ensures { IsPlan self.now }
    {
        let _images = &self.images;
    }

    /// The columns of a frame.
    pub fn columns(&self) -> u32
        ensures { result ≡ self.now.system.stencils.width }
    {
        self.width
    }

    /// The rows of a frame.
    pub fn rows(&self) -> u32
        ensures { result ≡ self.now.system.stencils.height }
    {
        self.height
    }

    /// How many inputs there are: the images 0, 1 and so on.
    pub fn inputs(&self) -> u32
        ensures { result ≡ self.now.system.stencils.inputs }
    {
        self.inputs
    }

    /// The numbers of the images that are outputs, in order.
    pub fn outputs(&self) -> &[u32]
        ensures { result.now ≡ self.now.system.stencils.outputs }
    {
        &self.outputs
    }

    /// The kept images, by their numbers, with the widths of their types.
    pub fn images(&self) -> &[Image]
        ensures { result.now ≡ self.now.system.stencils.images }
    {
        &self.images
    }

    /// The age that is asked of each live read, in clocks.
    pub fn asked_age(&self) -> u8
        ensures { result ≡ self.now.system.age }
    {
        self.age
    }

    /// Whether the image of this number is kept.
    pub fn kept(&self, g: u32) -> bool
        ensures { IsTrue result ↔ IsKept self.now.system.stencils.images g }
    {
        match find(&self.images, g) {
            Some(_) => true,
            None => false,
        }
    }

    /// Where a kept image is among the kept ones.
    pub fn place(&self, g: u32) -> usize
        requires { IsKept self.now.system.stencils.images g }
        ensures { result ≡ place_in self.now g }
    {
        place_of(&self.images, g)
    }

    /// The delay of a kept image.
    pub fn delay(&self, g: u32) -> u64
        requires { IsKept self.now.system.stencils.images g }
        ensures { result ≡ delay_of self.now g }
    {
        self.delays[place_of(&self.images, g)]
    }

    /// The greatest age among the live reads that read a kept image, 0 without any.
    pub fn depth(&self, g: u32) -> u64
        requires { IsKept self.now.system.stencils.images g }
        ensures depth { result ≡ depth_of self.now g }
        ensures most { result ≤ MAX_BUFFER_BITS }
    {
        self.depths[place_of(&self.images, g)]
    }

    /// The distinct ages of the live reads that read a kept image, ascending.
    pub fn ages(&self, g: u32) -> &[u64]
        requires { IsKept self.now.system.stencils.images g }
        ensures distinct { AreAges self.now g result.now }
        ensures ages { result.now ≡ ages_of self.now g }
    {
        self.ages[place_of(&self.images, g)].as_slice()
    }

    /// How old a live read is, in clocks.
    pub fn age(&self, r: LiveRead) -> u64
        requires { Contains self.now.system.stencils.reads r }
        ensures value { pos result ≡ read_age self.now r }
        ensures among { Contains (ages_of self.now r.g) result }
    {
        let placed = placed_read(&self.images, r);
        age_held(self.width, &self.delays, placed)
    }

    /// The live reads that a kept image makes, by the image that is read, then by row, then by column.
    pub fn reads(&self, g: u32) -> &[LiveRead]
        requires { IsKept self.now.system.stencils.images g }
        ensures { result.now ≡ reads_by g self.now.system.stencils.reads }
    {
        reads_by(&self.reads, g)
    }

    /// All live reads, by the image that reads, then by the image that is read, then by row, then by column.
    pub fn live_reads(&self) -> &[LiveRead]
        ensures { result.now ≡ self.now.system.stencils.reads }
    {
        &self.reads
    }

    /// The width of a kept image's type, in bits.
    pub fn width(&self, g: u32) -> u8
        requires { IsKept self.now.system.stencils.images g }
        ensures { result ≡ width_of self.now g }
    {
        self.images[place_of(&self.images, g)].width
    }

    /// The greatest delay of an output, in clocks.
    pub fn latency(&self) -> u64
        ensures { result ≡ latency self.now }
    {
        self.latency
    }

    /// The delay of the output numbered `k`, in clocks.
    pub fn latency_of(&self, k: usize) -> u64
        requires { k < length self.now.system.stencils.outputs }
        ensures { result ≡ latency_of self.now k }
    {
        self.delays[place_of(&self.images, self.outputs[k])]
    }

    /// The pixels of a frame and the latency, in clocks.
    pub fn clocks(&self) -> u64
        ensures { result ≡ clocks self.now }
    {
        u64::from(self.width) * u64::from(self.height) + self.latency
    }

    /// The sum over the kept images of width times depth, in bits.
    pub fn bits(&self) -> u64
        ensures { result ≡ bits_of self.now }
    {
        self.bits
    }
}
