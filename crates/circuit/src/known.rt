// The reads of a body that have nets, and the nets of its leaves.

ghost use Rattle.std.specs.Prelude.{◌≡◌, map, IfOk};
ghost use Rattle.circuit.specs.Known.{step_of};

use datapath::Leaves;
use dk_base::OutOfMemory;
use edge_select::Step;
use indexmap::IndexMap;
use pointwise_ir::Edge;
use std::alloc::Global;
use std::marker::Model;

// A step as a part of a key.
#[derive(Clone, Copy, PartialEq, Eq, Hash)]
struct StepKey {
    clamped: bool,
    dx: i32,
    dy: i32,
}

// A read as a key: the image that is read, and the steps that lead to its pixel.
#[derive(PartialEq, Eq, Hash, Drop)]
pub struct ReadKey {
    image: u32,
    steps: Vec<StepKey>,
}

// The place of each distinct read among the reads of a body: the first of those that are equal.
#[derive(Drop)]
pub struct KnownReads {
    alloc: Global,
    places: IndexMap<ReadKey, usize>,
}

// The leaves of a body with their nets, and which of its reads are known. Equal reads share a net: to choose it takes a look at each live read.
#[derive(Drop)]
pub struct BodyLeaves {
    pub nets: Leaves,
    pub known: KnownReads,
}

fn step_key(step: Step) -> StepKey
    ensures { step_of result ≡ step }
{
    let clamped = match step.edge {
        Edge::Zero => false,
        Edge::Clamp => true,
    };
    StepKey {
        clamped,
        dx: step.dx,
        dy: step.dy,
    }
}

fn step_keys(alloc: Global, steps: &[Step]) -> Result<Vec<StepKey>, OutOfMemory>
    ensures { IfOk result (λ keys. map step_of keys.items ≡ steps.now) }
{
    let mut keys = Vec::new(alloc);
    for step in steps {
        keys.push(step_key(*step))?;
    }
    Ok(keys)
}

impl Model for KnownReads {
    ghost use Rattle.std.specs.Prelude.{List};
    ghost use Rattle.circuit.specs.Known.{PlacedRead, placed_in};

    ghost Value = { List PlacedRead };

    ghost view = { λ k. placed_in k.places.entries };
}

impl KnownReads {
    ghost use Rattle.std.specs.Prelude.{◌≡◌, [], Contains, IfOk, IfSome, OnOk};
    ghost use Rattle.circuit.specs.Leaves.{leaf_at};
    ghost use Rattle.circuit.specs.Known.{leaf_of, placed_at, IsAdded};

    pub fn new(alloc: Global) -> KnownReads
        ensures { result ≡ [] }
    {
        KnownReads {
            alloc,
            places: IndexMap::new(alloc),
        }
    }

    // The key of a read of image g that is at the end of these steps.
    pub fn key(&self, g: u32, steps: &[Step]) -> Result<ReadKey, OutOfMemory>
        ensures { IfOk result (λ key. leaf_of key ≡ leaf_at g steps.now) }
    {
        let steps = step_keys(self.alloc, steps)?;
        Ok(ReadKey { image: g, steps })
    }

    // The place of a read that is known.
    pub fn find(&self, key: &ReadKey) -> Option<usize>
        ensures { IfSome result (λ place. Contains self.now (placed_at (leaf_of key.now) place)) }
    {
        self.places.get(key).copied()
    }

    // Notes the place of a read.
    pub fn add(&mut self, key: ReadKey, place: usize) -> Result<(), OutOfMemory>
        ensures { OnOk result (IsAdded self.new self.old (placed_at (leaf_of key) place)) }
    {
        self.places.insert(key, place)?;
        Ok(())
    }
}

impl BodyLeaves {
    ghost use Rattle.circuit.specs.Reads.{AreNoLeaves};

    pub fn new(alloc: Global) -> BodyLeaves
        ensures { AreNoLeaves result }
    {
        BodyLeaves {
            nets: Leaves {
                reads: Vec::new(alloc),
                bits: Vec::new(alloc),
            },
            known: KnownReads::new(alloc),
        }
    }
}
