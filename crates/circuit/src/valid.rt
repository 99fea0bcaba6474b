// When pixels leave.

ghost use Rattle.std.specs.Prelude.{IfOk};
ghost use Rattle.dk_base.specs.FrameSizes.{size_of};
ghost use Rattle.edge_select.specs.FrameTests.{AreFrameTests};
ghost use Rattle.circuit.specs.Growing.{MakesValid};

use dk_base::OutOfMemory;
use edge_select::FrameTests;
use net_build::{Builder, gate};
use wiring::{Atom, Net, Operator, Right};

// A net that is 1 in each counted clock from a latency on, in clocks since the last reset, and 0 in each other.
pub fn valid_from(b: &mut Builder, tests: &FrameTests, latency: u64) -> Result<Net, OutOfMemory>
    requires tests { AreFrameTests b.old (size_of tests.now.size) tests.now }
    ensures { IfOk result (MakesValid b.new b.old tests.now latency) }
{
    let begun = tests.started(b, latency)?;
    if b.has_en() {
        let en = b.en();
        let net = gate(
            b,
            Right::Binary(Operator::And, Atom::Net(en), Atom::Net(begun)),
        )?;
        return Ok(net);
    }
    Ok(begun)
}
