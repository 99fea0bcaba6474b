// The nets of images.

ghost use Rattle.std.specs.Prelude.{IfOk, OnOk};
ghost use Rattle.pointwise_ir.specs.Trees.{tree_of};
ghost use Rattle.pointwise_ir.specs.Programs.{IsBody};
ghost use Rattle.net_build.specs.Includes.{Includes};
ghost use Rattle.circuit.specs.Images.{ports_of};
ghost use Rattle.circuit.specs.Registers.{IsAsked};
ghost use Rattle.circuit.specs.Readers.{GrowWith, IsNetFor, Reads};

use crate::known::BodyLeaves;
use crate::leaves::push_leaves;
use crate::reader::Reader;
use datapath::lower;
use dk_base::OutOfMemory;
use edge_select::FrameTests;
use net_build::Builder;
use pointwise_ir::Expr;
use std::alloc::Global;
use wiring::Net;

// The net of an image's body.
fn body_net(
    alloc: Global,
    b: &mut Builder,
    reader: &Reader,
    tests: &mut FrameTests,
    body: &Expr,
) -> Result<Net, OutOfMemory>
    requires reader { Reads b.old reader.now tests.old }
    requires body { IsBody reader.now.ir.now reader.now.image (tree_of body.now) }
    ensures grows { OnOk result (GrowWith b.new b.old tests.new tests.old reader.now
        (IsAsked reader.now.ir.now reader.now.plan.now)) }
    ensures net { IfOk result (IsNetFor b.new b.old reader.now) }
{
    reader.ir.law();
    reader.plan.law();
    let mut steps = Vec::new(alloc);
    let mut leaves = BodyLeaves::new(alloc);
    push_leaves(body, b, reader, tests, &mut steps, &mut leaves)?;
    let net = lower(body, b, &leaves.nets)?;
    Ok(net)
}

// The net of an image: the `din` of an input, and else the net of its body over the taps of the images before it.
pub fn image_net(
    alloc: Global,
    b: &mut Builder,
    reader: &Reader,
    tests: &mut FrameTests,
) -> Result<Net, OutOfMemory>
    requires reader { Reads b.old reader.now tests.old }
    requires ports { Includes b.old (ports_of reader.now.ir.now b.old.enable) }
    ensures grows { OnOk result (GrowWith b.new b.old tests.new tests.old reader.now
        (IsAsked reader.now.ir.now reader.now.plan.now)) }
    ensures net { IfOk result (IsNetFor b.new b.old reader.now) }
{
    reader.ir.law();
    let inputs = reader.ir.inputs().len();
    let place = reader.image as usize;
    if place < inputs {
        return Ok(b.din_at(place));
    }
    let net = body_net(
        alloc,
        b,
        reader,
        tests,
        &reader.ir.images()[place - inputs].body,
    )?;
    Ok(net)
}
