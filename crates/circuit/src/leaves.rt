// The leaves of an expression, in the order of its nodes.

ghost use Rattle.std.specs.Prelude.{◌≡◌, ◌++◌, ◌∷◌, [], ◌<◌, IfSome, OnOk};
ghost use Rattle.pointwise_ir.specs.Trees.{tree_of};
ghost use Rattle.circuit.specs.Leaves.{leaf_at, reads_of, bits_of, own_bit, ReadsBefore};
ghost use Rattle.circuit.specs.Known.{leaf_of, IsKnownNet};
ghost use Rattle.circuit.specs.Registers.{AsksParts, Asks};
ghost use Rattle.circuit.specs.Readers.{AddsFor, AsksFor, GrowWith, Reads, read_of};

use crate::choices::read_net;
use crate::known::{BodyLeaves, ReadKey};
use crate::positions::test_on;
use crate::reader::{Leaf, Reader};
use dk_base::{OutOfMemory, Ty};
use edge_select::{FrameTests, Step};
use net_build::Builder;
use pointwise_ir::{Edge, Expr};
use wiring::Net;

// A read of an image by one step.
#[derive(Clone, Copy)]
struct StepRead {
    image: u32,
    step: Step,
}

fn step_by(edge: Edge, dx: i32, dy: i32) -> Step
    ensures { result ≡ record { edge = edge; dx = dx; dy = dy } }
{
    Step { edge, dx, dy }
}

// The net of a read that is known.
fn known_net(leaves: &BodyLeaves, key: &ReadKey) -> Option<(Ty, Net)>
    ensures { IfSome result
        (IsKnownNet leaves.now.nets.reads.items leaves.now.known (leaf_of key.now)) }
{
    let place = leaves.known.find(key)?;
    leaves.nets.reads.get(place).copied()
}

// The net of a leaf. Equal reads share their net.
fn push_net(
    b: &mut Builder,
    reader: &Reader,
    tests: &mut FrameTests,
    leaf: Leaf,
    leaves: &mut BodyLeaves,
) -> Result<(), OutOfMemory>
    requires reader { Reads b.old reader.now tests.old }
    requires earlier { leaf.image < reader.now.image }
    ensures grows { OnOk result (GrowWith b.new b.old tests.new tests.old reader.now
        (AsksFor reader.now (read_of leaf.entry))) }
    ensures leaves { OnOk result (AddsFor b.new b.old reader.now
        (leaf_at leaf.entry.image leaf.entry.steps.now ∷ []) [] leaves.new leaves.old) }
{
    let key = leaves.known.key(leaf.image, leaf.steps)?;
    match known_net(leaves, &key) {
        Some(net) => {
            leaves.nets.reads.push(net)?;
            Ok(())
        }
        None => {
            let net = read_net(b, reader, tests, leaf)?;
            leaves.known.add(key, leaves.nets.reads.len())?;
            leaves.nets.reads.push(net)?;
            Ok(())
        }
    }
}

// The net of a read that is at the end of these steps, with its own step.
fn push_read(
    b: &mut Builder,
    reader: &Reader,
    tests: &mut FrameTests,
    steps: &mut Vec<Step>,
    read: StepRead,
    leaves: &mut BodyLeaves,
) -> Result<(), OutOfMemory>
    requires reader { Reads b.old reader.now tests.old }
    requires earlier { read.image < reader.now.image }
    ensures grows { OnOk result (GrowWith b.new b.old tests.new tests.old reader.now
        (AsksFor reader.now (leaf_at read.image (steps.old.items ++ read.step ∷ [])))) }
    ensures steps { OnOk result (steps.new.items ≡ steps.old.items) }
    ensures leaves { OnOk result (AddsFor b.new b.old reader.now
        (leaf_at read.image (steps.old.items ++ read.step ∷ []) ∷ [])
        [] leaves.new leaves.old) }
{
    steps.push(read.step)?;
    let leaf = Leaf {
        image: read.image,
        steps,
    };
    push_net(b, reader, tests, leaf, leaves)?;
    steps.pop();
    Ok(())
}

// The test of a shifted part that is at the end of these steps; a clamped one has none.
fn push_test(
    b: &mut Builder,
    reader: &Reader,
    tests: &mut FrameTests,
    steps: &[Step],
    edge: Edge,
    leaves: &mut BodyLeaves,
) -> Result<(), OutOfMemory>
    requires { Reads b.old reader.now tests.old }
    ensures grows { OnOk result (GrowWith b.new b.old tests.new tests.old reader.now
        (AsksParts reader.now.image (own_bit edge steps.now))) }
    ensures leaves { OnOk result (AddsFor b.new b.old reader.now
        [] (own_bit edge steps.now) leaves.new leaves.old) }
{
    match edge {
        Edge::Zero => {
            let net = test_on(b, reader.plan, reader.image, tests, steps)?;
            leaves.nets.bits.push(net)?;
            Ok(())
        }
        Edge::Clamp => Ok(()),
    }
}

// A law, called where the leaves of a part come after others: what they need is known there.
fn still_law(b: &Builder, reader: &Reader, tests: &FrameTests)
    requires { Reads b.now reader.now tests.now }
    ensures { Reads b.now reader.now tests.now }
{}

// Adds the nets of the leaves of an expression that is at the end of these steps. It calls itself as deep as the expression is.
pub fn push_leaves(
    e: &Expr,
    b: &mut Builder,
    reader: &Reader,
    tests: &mut FrameTests,
    steps: &mut Vec<Step>,
    leaves: &mut BodyLeaves,
) -> Result<(), OutOfMemory>
    requires reader { Reads b.old reader.now tests.old }
    requires earlier { ReadsBefore reader.now.image (tree_of e.now) }
    ensures grows { OnOk result (GrowWith b.new b.old tests.new tests.old reader.now
        (Asks reader.now.plan.now reader.now.image
        (reads_of (tree_of e.now) steps.old.items) (bits_of (tree_of e.now) steps.old.items))) }
    ensures steps { OnOk result (steps.new.items ≡ steps.old.items) }
    ensures leaves { OnOk result (AddsFor b.new b.old reader.now
        (reads_of (tree_of e.now) steps.old.items) (bits_of (tree_of e.now) steps.old.items)
        leaves.new leaves.old) }
{
    match e {
        Expr::Constant(_, _) => Ok(()),
        Expr::Read(edge, g, dx, dy) => {
            let step = step_by(*edge, *dx, *dy);
            let read = StepRead { image: *g, step };
            push_read(b, reader, tests, steps, read, leaves)
        }
        Expr::Shifted(edge, dx, dy, body) => {
            steps.push(step_by(*edge, *dx, *dy))?;
            push_test(b, reader, tests, steps, *edge, leaves)?;
            still_law(b, reader, tests);
            push_leaves(body, b, reader, tests, steps, leaves)?;
            steps.pop();
            Ok(())
        }
        Expr::Unary(_, body) => push_leaves(body, b, reader, tests, steps, leaves),
        Expr::Binary(_, left, right) => {
            push_leaves(left, b, reader, tests, steps, leaves)?;
            still_law(b, reader, tests);
            push_leaves(right, b, reader, tests, steps, leaves)?;
            Ok(())
        }
        Expr::Select(condition, first, second) => {
            push_leaves(condition, b, reader, tests, steps, leaves)?;
            still_law(b, reader, tests);
            push_leaves(first, b, reader, tests, steps, leaves)?;
            still_law(b, reader, tests);
            push_leaves(second, b, reader, tests, steps, leaves)?;
            Ok(())
        }
        Expr::Convert(_, body, _) => push_leaves(body, b, reader, tests, steps, leaves),
        Expr::Scale(_, body, _) => push_leaves(body, b, reader, tests, steps, leaves),
    }
}
