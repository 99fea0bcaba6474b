// The net of a read: of the taps of the image that is read the one to which the steps lead.

ghost use Rattle.std.specs.Prelude.{◌≡◌, ◌<◌, [], ◌∷◌, ℕ, Contains, IfOk, OnOk, IsTrue};
ghost use Rattle.dk_base.specs.Frames.{Size};
ghost use Rattle.dk_base.specs.Types.{width_of};
ghost use Rattle.wiring.specs.Sizes.{IsWidth};
ghost use Rattle.edge_select.specs.Logic.{Wires, WiresFrom};
ghost use Rattle.edge_select.specs.Steps.{LeadBy};
ghost use Rattle.circuit.specs.Rounds.{type_at};
ghost use Rattle.circuit.specs.Leaves.{leaf_at};
ghost use Rattle.circuit.specs.Reads.{IsNetOf, reads_in, atom_of_choice, choice_nets, chosen_by};
ghost use Rattle.circuit.specs.Registers.{AsksRead};
ghost use Rattle.circuit.specs.Growing.{AreChosen, IsOfWidth};
ghost use Rattle.circuit.specs.Readers.{AsksFor, ChoosesFor, ChoosesMore, GrowWith, IsReadFor, Reads, read_of};

use crate::positions::test_at;
use crate::reader::{Leaf, Reader, tap_of};
use dk_base::{LiveRead, OutOfMemory, Ty};
use edge_select::{Extent, FrameTests, Step, passing};
use net_build::{Builder, gate, number};
use pointwise_ir::Edge;
use wiring::{Atom, Net, Right};

// What a right side of this many bits has for a choice.
fn atom_of(bits: u8, choice: Option<Net>) -> Atom<Net>
    requires { IsWidth bits }
    ensures { result ≡ atom_of_choice bits choice }
{
    match choice {
        Some(net) => Atom::Net(net),
        None => number(bits, 0),
    }
}

// The tap where a test passes, and else what was chosen before, or 0.
fn chosen_by(
    b: &mut Builder,
    test: Net,
    tap: Net,
    before: Option<Net>,
    bits: u8,
) -> Result<Net, OutOfMemory>
    requires { AreChosen b.old bits test tap before }
    ensures { WiresFrom b.new b.old result 1 (test ∷ (tap ∷ choice_nets before)) bits
        (chosen_by test tap before) }
{
    let rest = atom_of(bits, before);
    let net = gate(b, Right::Choose(Atom::Net(test), Atom::Net(tap), rest))?;
    Ok(net)
}

// The choice with the tap of one more read of the image.
fn with_tap(
    b: &mut Builder,
    reader: &Reader,
    tests: &mut FrameTests,
    steps: &[Step],
    read: LiveRead,
    before: Option<Net>,
) -> Result<Option<Net>, OutOfMemory>
    requires reader { Reads b.old reader.now tests.old }
    requires read { Contains (reads_in reader.now.plan.now reader.now.image) read }
    requires before { IsOfWidth b.old (width_of (type_at reader.now.ir.now read.g)) before }
    ensures grows { OnOk result (GrowWith b.new b.old tests.new tests.old reader.now
        (AsksRead reader.now.image (leaf_at read.g steps.now) read)) }
    ensures choice { IfOk result (ChoosesMore b.new b.old reader.now
        (leaf_at read.g steps.now) read before) }
{
    let plan = reader.plan;
    plan.law();
    let tap = tap_of(plan, reader.taps, read);
    match passing(plan.columns(), plan.rows(), steps, read.dx, read.dy) {
        Extent::Never => Ok(before),
        Extent::Always => Ok(Some(tap)),
        Extent::Sometimes => {
            let test = test_at(b, reader, tests, steps, read)?;
            let net = chosen_by(b, test, tap, before, plan.width(read.g))?;
            Ok(Some(net))
        }
    }
}

// Whether a step is not clamped and leads by another offset than the read's.
fn differs(step: Step, read: LiveRead) -> bool
    ensures { IsTrue result → (size : Size) (x y : ℕ)
        → LeadBy size (step ∷ []) read.dx read.dy x y → ⊥ }
{
    match step.edge {
        Edge::Clamp => false,
        Edge::Zero => step.dx != read.dx || step.dy != read.dy,
    }
}

// Fast path: true if the path is a single step that leads by this offset. It is asked of every read of an image for every leaf, and most leaves are at the end of one step.
fn misses(steps: &[Step], read: LiveRead) -> bool
    ensures { IsTrue result → (size : Size) (x y : ℕ)
        → LeadBy size steps.now read.dx read.dy x y → ⊥ }
{
    if steps.len() != 1 {
        return false;
    }
    match steps.first() {
        Some(step) => differs(*step, read),
        None => false,
    }
}

// The choice with one more read, be it of the leaf's image or not.
fn with_read(
    b: &mut Builder,
    reader: &Reader,
    tests: &mut FrameTests,
    leaf: Leaf,
    read: LiveRead,
    before: Option<Net>,
) -> Result<Option<Net>, OutOfMemory>
    requires reader { Reads b.old reader.now tests.old }
    requires read { Contains (reads_in reader.now.plan.now reader.now.image) read }
    requires before { IsOfWidth b.old (width_of (type_at reader.now.ir.now leaf.image)) before }
    ensures grows { OnOk result (GrowWith b.new b.old tests.new tests.old reader.now
        (AsksRead reader.now.image (read_of leaf.entry) read)) }
    ensures choice { IfOk result (ChoosesMore b.new b.old reader.now
        (read_of leaf.entry) read before) }
{
    if read.g != leaf.image {
        return Ok(before);
    }
    reader.plan.law();
    if misses(leaf.steps, read) {
        return Ok(before);
    }
    let choice = with_tap(b, reader, tests, leaf.steps, read, before)?;
    Ok(choice)
}

// The choice among all live reads of the leaf's image.
fn choice_of(
    b: &mut Builder,
    reader: &Reader,
    tests: &mut FrameTests,
    leaf: Leaf,
) -> Result<Option<Net>, OutOfMemory>
    requires { Reads b.old reader.now tests.old }
    ensures grows { OnOk result (GrowWith b.new b.old tests.new tests.old reader.now
        (AsksFor reader.now (read_of leaf.entry))) }
    ensures choice { IfOk result (ChoosesFor b.new b.old reader.now (read_of leaf.entry)) }
{
    let mut choice = None;
    for read in reader.plan.reads(reader.image) {
        choice = with_read(b, reader, tests, leaf, *read, choice)?;
    }
    Ok(choice)
}

// The net of a choice, or one that is 0.
fn net_of(b: &mut Builder, bits: u8, choice: Option<Net>) -> Result<Net, OutOfMemory>
    requires bits { IsWidth bits }
    ensures { Wires b.new b.old result (IsNetOf b.new b.old bits choice) }
{
    match choice {
        Some(net) => Ok(net),
        None => {
            let net = gate(b, Right::Copy(number(bits, 0)))?;
            Ok(net)
        }
    }
}

// The net of a leaf of the reader's body. It has the type of the leaf's image.
pub fn read_net(
    b: &mut Builder,
    reader: &Reader,
    tests: &mut FrameTests,
    leaf: Leaf,
) -> Result<(Ty, Net), OutOfMemory>
    requires reader { Reads b.old reader.now tests.old }
    requires earlier { leaf.image < reader.now.image }
    ensures grows { OnOk result (GrowWith b.new b.old tests.new tests.old reader.now
        (AsksFor reader.now (read_of leaf.entry))) }
    ensures read { IfOk result (IsReadFor b.new b.old reader.now (read_of leaf.entry)) }
{
    reader.ir.law();
    let ty = reader.ir.type_of(leaf.image);
    let choice = choice_of(b, reader, tests, leaf)?;
    let net = net_of(b, ty.width(), choice)?;
    Ok((ty, net))
}
