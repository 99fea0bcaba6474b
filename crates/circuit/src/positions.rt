// Tests of the pixels of images, by the module's frame tests.

ghost use Rattle.std.specs.Prelude.{IfOk};
ghost use Rattle.edge_select.specs.FrameTests.{AreFrameTests};
ghost use Rattle.edge_select.specs.MadeTests.{AreNoTests};
ghost use Rattle.edge_select.specs.Steps.{LeadBy, LeadOn};
ghost use Rattle.circuit.specs.Taps.{Keeps, size_in};
ghost use Rattle.circuit.specs.Leaves.{leaf_at};
ghost use Rattle.circuit.specs.Registers.{AsksRead, AsksPart};
ghost use Rattle.circuit.specs.Growing.{MakesTest};

use crate::reader::Reader;
use buffer_plan::Plan;
use dk_base::{FrameSize, LiveRead, OutOfMemory};
use edge_select::{Extent, FrameTests, Step, constant_test, leading};
use net_build::Builder;
use std::alloc::Global;
use wiring::Net;

// No frame tests, for the frames of a plan.
pub fn no_tests(alloc: Global, plan: &Plan) -> FrameTests
    ensures { AreNoTests (size_in plan.now) result }
{
    plan.law();
    let size = FrameSize {
        width: plan.columns(),
        height: plan.rows(),
    };
    FrameTests::new(alloc, size)
}

// The test that a pixel of the reader passes where the steps lead from it to the point that this live read takes.
pub fn test_at(
    b: &mut Builder,
    reader: &Reader,
    tests: &mut FrameTests,
    steps: &[Step],
    read: LiveRead,
) -> Result<Net, OutOfMemory>
    requires kept { Keeps reader.now.plan.now reader.now.image }
    requires tests { AreFrameTests b.old (size_in reader.now.plan.now) tests.old }
    ensures { IfOk result (MakesTest b.new b.old tests.new tests.old reader.now.plan.now
        reader.now.image (AsksRead reader.now.image (leaf_at read.g steps.now) read)
        (LeadBy (size_in reader.now.plan.now) steps.now read.dx read.dy)) }
{
    let delay = reader.plan.delay(reader.image);
    let net = tests.at(b, delay, steps, read.dx, read.dy)?;
    Ok(net)
}

// The test that a pixel of image f passes where the steps lead from it somewhere. It takes registers only where some pixels pass and some do not.
pub fn test_on(
    b: &mut Builder,
    plan: &Plan,
    f: u32,
    tests: &mut FrameTests,
    steps: &[Step],
) -> Result<Net, OutOfMemory>
    requires kept { Keeps plan.now f }
    requires tests { AreFrameTests b.old (size_in plan.now) tests.old }
    ensures { IfOk result (MakesTest b.new b.old tests.new tests.old plan.now f
        (AsksPart f steps.now) (LeadOn (size_in plan.now) steps.now)) }
{
    plan.law();
    match leading(plan.columns(), plan.rows(), steps) {
        Extent::Always => {
            let net = constant_test(b, true)?;
            Ok(net)
        }
        Extent::Never => {
            let net = constant_test(b, false)?;
            Ok(net)
        }
        Extent::Sometimes => {
            let net = tests.leads(b, plan.delay(f), steps)?;
            Ok(net)
        }
    }
}
