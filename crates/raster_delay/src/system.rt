// The system of constraints on the delays of kept images.

use crate::build::constraints;
use crate::measure::coefficient;
use crate::network::Constraint;
use crate::placed::{PlacedRead, placed_reads};
use dk_base::{Image, LiveRead, OutOfMemory, Stencils};
use std::alloc::Global;
use std::marker::Model;

/// The kept images of a program with their live reads, the age that is asked of each read, and the constraints on the delays.
///
/// The nodes are one begin node for all inputs, one for each other kept image in order, and one end node for each kept image in order.
/// The number of a begin node is a delay in clocks, that of an end node the delay with the image's depth.
#[derive(Drop)]
pub struct System {
    width: u32,
    height: u32,
    inputs: u32,
    outputs: Vec<u32>,
    images: Vec<Image>,
    reads: Vec<LiveRead>,
    age: u8,
    placed: Vec<PlacedRead>,
    constraints: Vec<Constraint>,
}

impl Model for System {
    ghost use Rattle.raster_delay.specs.Systems.{System as TheSystem, IsHeld};

    ghost Value = { TheSystem };

    ghost view = { λ s. record { stencils = record { width = s.width; height = s.height; inputs = s.inputs; outputs = s.outputs.items; images = s.images.items; reads = s.reads.items }; age = s.age } };

    ghost invariant = { λ s. IsHeld (record { stencils = record { width = s.width; height = s.height; inputs = s.inputs; outputs = s.outputs.items; images = s.images.items; reads = s.reads.items }; age = s.age }) s.placed.items s.constraints.items };
}

impl System {
    ghost use Rattle.std.specs.Prelude.{◌≡◌, ◌≤◌, ◌<◌, IfOk, All};
    ghost use Rattle.dk_base.specs.declared.TheConstants.{MAX_AGE};
    ghost use Rattle.raster_delay.specs.Systems.{IsSystem, LeadOnward, LeadToEnds, coefficient_in, constraints_in, holds_in, keeps_in, nodes, placed_reads, reads_in};

    /// The system of these stencils, in which each age is at least 0.
    pub fn of(alloc: Global, stencils: &Stencils) -> Result<System, OutOfMemory>
        ensures { IfOk result (λ s. s ≡ record { stencils = stencils.now; age = 0 }) }
    {
        System::aged(alloc, stencils, 0)
    }

    /// The system of these stencils, in which each age is at least `age` clocks.
    pub fn aged(alloc: Global, stencils: &Stencils, age: u8) -> Result<System, OutOfMemory>
        requires { age ≤ MAX_AGE }
        ensures { IfOk result (λ s. s ≡ record { stencils = stencils.now; age = age }) }
    {
        stencils.law();
        let outputs = Vec::from_slice(alloc, stencils.outputs())?;
        let images = Vec::from_slice(alloc, stencils.images())?;
        let reads = Vec::from_slice(alloc, stencils.reads())?;
        let placed = placed_reads(alloc, &images, &reads)?;
        let constraints = constraints(
            alloc,
            stencils.width(),
            age,
            stencils.inputs() as usize,
            images.len(),
            &placed,
        )?;
        Ok(System {
            width: stencils.width(),
            height: stencils.height(),
            inputs: stencils.inputs(),
            outputs,
            images,
            reads,
            age,
            placed,
            constraints,
        })
    }

    /// A law: what the type keeps.
    pub fn law(&self)
        ensures { IsSystem self.now }
    {
        let _images = &self.images;
    }

    /// The columns of the frame.
    pub fn width(&self) -> u32
        ensures { result ≡ self.now.stencils.width }
    {
        self.width
    }

    /// The rows of the frame.
    pub fn height(&self) -> u32
        ensures { result ≡ self.now.stencils.height }
    {
        self.height
    }

    /// The number of inputs, which are the images 0, 1 and so on.
    pub fn inputs(&self) -> usize
        ensures { result ≡ self.now.stencils.inputs }
    {
        self.inputs as usize
    }

    /// The numbers of the images that are outputs.
    pub fn outputs(&self) -> &[u32]
        ensures { result.now ≡ self.now.stencils.outputs }
    {
        &self.outputs
    }

    /// The kept images in order.
    pub fn images(&self) -> &[Image]
        ensures { result.now ≡ self.now.stencils.images }
    {
        &self.images
    }

    /// The live reads in order.
    pub fn reads(&self) -> &[LiveRead]
        ensures { result.now ≡ self.now.stencils.reads }
    {
        &self.reads
    }

    /// The age that is asked of each live read, in clocks.
    pub fn age(&self) -> u8
        ensures { result ≡ self.now.age }
    {
        self.age
    }

    /// The live reads in order, with the places of their images.
    pub fn placed_reads(&self) -> &[PlacedRead]
        ensures { result.now ≡ placed_reads self.now }
    {
        &self.placed
    }

    /// The constraints: first those of kind hold, then start, then read, then keep, each kind in the order of the stencils.
    pub fn constraints(&self) -> &[Constraint]
        ensures form { result.now ≡ constraints_in self.now }
        ensures forward { All (λ c. c.source < c.target) result.now }
    {
        &self.constraints
    }

    /// How many nodes there are.
    pub fn nodes(&self) -> usize
        ensures { result ≡ nodes self.now }
    {
        let images = self.images.len();
        images + 1 - self.inputs as usize + images
    }

    /// The coefficient of the objective at a node: the widths in bits of the images that end there, less those of the images that begin there.
    pub fn coefficient(&self, node: usize) -> i64
        ensures { result ≡ coefficient_in self.now node }
    {
        self.law();
        coefficient(self.inputs(), self.images(), node)
    }

    // The constraints from where each image begins to where it ends.
    pub(crate) fn hold_constraints(&self) -> &[Constraint]
        ensures { LeadToEnds self.now (holds_in self.now) result.now }
    {
        self.law();
        let images = self.images().len();
        let (holds, _) = self.constraints().split_at(images);
        holds
    }

    // The constraints from what is read to what reads it.
    pub(crate) fn read_constraints(&self) -> &[Constraint]
        ensures { LeadOnward self.now (reads_in self.now) result.now }
    {
        self.law();
        let images = self.images().len();
        let first = images + (images - self.inputs());
        let (_, rest) = self.constraints().split_at(first);
        let (reads, _) = rest.split_at(self.placed_reads().len());
        reads
    }

    // The constraints from what reads an image to where that ends.
    pub(crate) fn keep_constraints(&self) -> &[Constraint]
        ensures { LeadToEnds self.now (keeps_in self.now) result.now }
    {
        self.law();
        let images = self.images().len();
        let first = images + (images - self.inputs()) + self.placed_reads().len();
        let (_, keeps) = self.constraints().split_at(first);
        keeps
    }
}
