// Forms of buffers.

ghost use Rattle.std.specs.Prelude.{◌≡◌, ◌<◌, ◌≤◌, IfOk};
ghost use Rattle.net_build.specs.Includes.{Includes};
ghost use Rattle.buffer_plan.specs.Plans.{depth_of};
ghost use Rattle.circuit.specs.Taps.{Keeps};
ghost use Rattle.circuit.specs.Forms.{AddsImage, CanBuffer, Form, IsSlotOf, chain_form, block_form, ring_form};

use crate::finer::{split_of, taps_among};
use crate::slots::{Slot, block_slot, chain_slot, ring_slot};
use crate::taps::Taps;
use buffer_plan::Plan;
use dk_base::OutOfMemory;
use line_buffer::{BufferedImage, Turns, block_chain, chain, ring};
use net_build::Builder;
use std::alloc::Global;
use std::marker::Model;
use wiring::Net;

/// A kept image, with its net.
#[derive(Clone, Copy, Debug)]
pub struct ImageNet {
    pub image: u32,
    pub net: Net,
}

/// A way to keep the last pixels of the images of a plan.
pub trait BufferForm {
    /// The arrays that are added for an image, which word holds the pixel of an age of an image at a clock, which arrays are long, and what each array keeps.
    ghost form: { Self → Form };

    /// The word that holds the pixel of an age of a kept image before the edge of a counted clock: `clock` clocks were counted since the last reset, and the pixel came `age` clocks before, 1 to the image's depth. It takes no memory.
    fn place(&self, plan: &Plan, image: u32, age: u64, clock: u64) -> Slot
        requires kept { Keeps plan.now image }
        requires some { 0 < age }
        requires deep { age ≤ depth_of plan.now image }
        ensures { IsSlotOf ((form self.now).places plan.now image age clock) result };

    /// Adds the buffer of a kept image to its net, after those of the kept images before it. Arrays of the same number of words share a counter, among those in `turns` and new ones.
    fn add(
        &self,
        alloc: Global,
        plan: &Plan,
        own: ImageNet,
        b: &mut Builder,
        turns: &mut Turns,
    ) -> Result<Taps, OutOfMemory>
        requires { CanBuffer b.old plan.now (form self.now) own turns.old }
        ensures includes { Includes b.new b.old }
        ensures image { IfOk result
            (AddsImage b.new b.old plan.now (form self.now) own turns.new turns.old) };
}

/// A ring of words for each image whose depth is above 0, which is read once for each age.
#[derive(Clone, Copy, Debug)]
pub struct Ring;

/// A chain of segments for each image, one for each age above 0, each of which is read once and put once, at one index.
#[derive(Clone, Copy, Debug)]
pub struct Chain;

/// A chain for each image, over the ages that are read or over more with the same greatest one, in which each array of at least `least` words can be a block memory: it is read one clock ahead, into a register that copies its word. The number is at least 2.
#[derive(Debug, Drop)]
pub struct BlockChain {
    least: u32,
    proposed: Vec<Vec<u64>>,
}

impl Model for BlockChain {
    ghost use Rattle.std.specs.Prelude.{◌≤◌};
    ghost use Rattle.circuit.specs.Splits.{Splits, lists_of};

    ghost Value = { Splits };

    ghost view = { λ form. record { least = form.least; proposed = lists_of form.proposed.items } };

    ghost invariant = { λ form. 2 ≤ form.least };
}

impl BlockChain {
    ghost use Rattle.circuit.specs.Splits.{lists_of};

    /// Arrays of at least `least` words are long. The chain of each kept image is over the ages proposed for it, in order, where they are more than are read or the same: they ascend from above 0, each age above 0 that is read is among them, and the greatest is the same. Else it is over the ages that are read.
    pub fn new(least: u32, proposed: Vec<Vec<u64>>) -> BlockChain
        requires { 2 ≤ least }
        ensures { result ≡ record { least = least; proposed = lists_of proposed.items } }
    {
        BlockChain { least, proposed }
    }
}

impl BufferForm for Ring {
    ghost form = { λ ring. ring_form };

    fn place(&self, plan: &Plan, image: u32, age: u64, clock: u64) -> Slot {
        ring_slot(plan, image, age, clock)
    }

    fn add(
        &self,
        alloc: Global,
        plan: &Plan,
        own: ImageNet,
        b: &mut Builder,
        turns: &mut Turns,
    ) -> Result<Taps, OutOfMemory> {
        plan.law();
        let buffered = BufferedImage {
            net: own.net,
            width: plan.width(own.image),
            ages: plan.ages(own.image),
        };
        let nets = ring(alloc, b, turns, buffered)?;
        Ok(Taps::new(nets))
    }
}

impl BufferForm for Chain {
    ghost form = { λ chain. chain_form };

    fn place(&self, plan: &Plan, image: u32, age: u64, clock: u64) -> Slot {
        chain_slot(plan, image, age, clock)
    }

    fn add(
        &self,
        alloc: Global,
        plan: &Plan,
        own: ImageNet,
        b: &mut Builder,
        turns: &mut Turns,
    ) -> Result<Taps, OutOfMemory> {
        plan.law();
        let buffered = BufferedImage {
            net: own.net,
            width: plan.width(own.image),
            ages: plan.ages(own.image),
        };
        let nets = chain(alloc, b, turns, buffered)?;
        Ok(Taps::new(nets))
    }
}

impl BufferForm for BlockChain {
    ghost form = { λ chain. block_form chain.least chain.proposed };

    fn place(&self, plan: &Plan, image: u32, age: u64, clock: u64) -> Slot {
        block_slot(plan, &self.proposed, image, age, clock)
    }

    fn add(
        &self,
        alloc: Global,
        plan: &Plan,
        own: ImageNet,
        b: &mut Builder,
        turns: &mut Turns,
    ) -> Result<Taps, OutOfMemory> {
        plan.law();
        let split = split_of(plan, &self.proposed, own.image);
        let buffered = BufferedImage {
            net: own.net,
            width: plan.width(own.image),
            ages: split,
        };
        let nets = block_chain(alloc, b, turns, buffered, self.least)?;
        let taps = taps_among(alloc, plan.ages(own.image), split, &nets, own.net)?;
        Ok(Taps::new(taps))
    }
}
