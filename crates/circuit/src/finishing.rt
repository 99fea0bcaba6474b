// The module of a circuit, once all its images are built.

ghost use Rattle.std.specs.Prelude.{◌≡◌, IfOk, length};
ghost use Rattle.net_build.specs.Naming.{names_for};
ghost use Rattle.pointwise_ir.specs.Stencils.{AreStencilsOf};
ghost use Rattle.dk_base.specs.FrameSizes.{size_of};
ghost use Rattle.edge_select.specs.FrameTests.{AreFrameTests};
ghost use Rattle.circuit.specs.Taps.{HaveTaps, AreTapsOf};
ghost use Rattle.circuit.specs.Ends.{CanEnd, IsClosed};
ghost use Rattle.circuit.specs.Whole.{HasImages, IsBuiltBy};

use crate::forms::BufferForm;
use crate::outs::all_outs;
use crate::reader::tap_of;
use crate::taps::Taps;
use buffer_plan::Plan;
use dk_base::OutOfMemory;
use edge_select::FrameTests;
use line_buffer::Turns;
use net_build::Builder;
use netlist::Module;
use pointwise_ir::Program;
use std::alloc::Global;
use wiring::Net;

/// A module, with the net of each kept image and the net of each live read, both in order.
#[derive(Drop)]
pub struct Built {
    pub module: Module,
    pub nets: Vec<Net>,
    pub reads: Vec<Net>,
}

// What is built of a plan's images: for each kept image its net and its taps, in order, with the turns of their arrays and the frame tests of the module.
#[derive(Drop)]
pub struct BuiltImages {
    pub alloc: Global,
    pub nets: Vec<Net>,
    pub taps: Vec<Taps>,
    pub turns: Turns,
    pub tests: FrameTests,
}

// The module of a builder that can end.
fn closed(
    alloc: Global,
    mut b: Builder,
    plan: &Plan,
    nets: &[Net],
    tests: &FrameTests,
) -> Result<Module, OutOfMemory>
    requires ends { CanEnd b plan.now nets.now }
    requires tests { AreFrameTests b (size_of tests.now.size) tests.now }
    ensures closed { IfOk result (λ m. IsClosed m.netlist b plan.now nets.now tests.now) }
    ensures named { IfOk result (λ m. m.names ≡ names_for m.netlist) }
{
    let outs = all_outs(alloc, &mut b, plan, nets, tests)?;
    b.law();
    let module = b.finish_all(&outs)?;
    Ok(module)
}

// The taps of all live reads, in order.
fn read_nets(alloc: Global, plan: &Plan, taps: &[Taps]) -> Result<Vec<Net>, OutOfMemory>
    requires taps { HaveTaps plan.now taps.now }
    ensures { IfOk result (λ reads. AreTapsOf plan.now taps.now
        (length plan.now.system.stencils.reads) reads.items) }
{
    plan.law();
    let mut reads = Vec::new(alloc);
    for read in plan.live_reads() {
        let tap = tap_of(plan, taps, *read);
        reads.push(tap)?;
    }
    Ok(reads)
}

// The module of a builder in which all kept images are built: its outputs are driven.
pub fn finished<F: BufferForm>(
    b: Builder,
    ir: &Program,
    plan: &Plan,
    form: &F,
    images: BuiltImages,
) -> Result<Built, OutOfMemory>
    requires stencils { AreStencilsOf ir.now plan.now.system.stencils }
    requires images { HasImages b ir.now plan.now (F.form form.now)
        (length plan.now.system.stencils.images) images }
    ensures { IfOk result (IsBuiltBy ir.now plan.now (F.form form.now) b.enable) }
{
    plan.law();
    let reads = read_nets(images.alloc, plan, &images.taps)?;
    let module = closed(images.alloc, b, plan, &images.nets, &images.tests)?;
    Ok(Built {
        module,
        nets: images.nets,
        reads,
    })
}
