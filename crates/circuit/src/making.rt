// The module of a program.

ghost use Rattle.std.specs.Prelude.{◌≡◌, ◌<◌, suc, false, IfOk, length, OnOk};
ghost use Rattle.pointwise_ir.specs.Stencils.{AreStencilsOf};
ghost use Rattle.circuit.specs.Behaviour.{IsPlanOf};
ghost use Rattle.circuit.specs.Whole.{HasImages, IsBuiltBy};

use crate::finishing::{Built, BuiltImages, finished};
use crate::forms::{BufferForm, ImageNet};
use crate::images::image_net;
use crate::options::Options;
use crate::ports::begun;
use crate::positions::no_tests;
use crate::reader::Reader;
use buffer_plan::Plan;
use dk_base::OutOfMemory;
use line_buffer::Turns;
use net_build::Builder;
use pointwise_ir::Program;
use std::alloc::Global;

// One image more: its net, and then its buffer.
fn add_image<F: BufferForm>(
    b: &mut Builder,
    ir: &Program,
    plan: &Plan,
    form: &F,
    images: &mut BuiltImages,
    k: usize,
) -> Result<(), OutOfMemory>
    requires stencils { AreStencilsOf ir.now plan.now.system.stencils }
    requires within { k < length plan.now.system.stencils.images }
    requires images { HasImages b.old ir.now plan.now (F.form form.now) k images.old }
    ensures enable { OnOk result (b.new.enable ≡ b.old.enable) }
    ensures images { OnOk result
        (HasImages b.new ir.now plan.now (F.form form.now) (suc k) images.new) }
{
    plan.law();
    let image = plan.images()[k].number;
    let reader = Reader {
        ir,
        plan,
        taps: &images.taps,
        image,
    };
    let net = image_net(images.alloc, b, &reader, &mut images.tests)?;
    b.law();
    let own = form.add(
        images.alloc,
        plan,
        ImageNet { image, net },
        b,
        &mut images.turns,
    )?;
    b.law();
    images.nets.push(net)?;
    images.taps.push(own)?;
    Ok(())
}

// All images, one after another.
fn add_images<F: BufferForm>(
    b: &mut Builder,
    ir: &Program,
    plan: &Plan,
    form: &F,
    images: &mut BuiltImages,
) -> Result<(), OutOfMemory>
    requires stencils { AreStencilsOf ir.now plan.now.system.stencils }
    requires images { HasImages b.old ir.now plan.now (F.form form.now) 0 images.old }
    ensures enable { OnOk result (b.new.enable ≡ b.old.enable) }
    ensures images { OnOk result (HasImages b.new ir.now plan.now (F.form form.now)
        (length plan.now.system.stencils.images) images.new) }
{
    for k in 0..plan.images().len() {
        add_image(b, ir, plan, form, images, k)?;
    }
    Ok(())
}

/// The module of a program: its ports, for each kept image its net and after it its buffer, and its outputs. The plan is of the program's stencils, with the age that is asked.
pub fn build_with<F: BufferForm>(
    alloc: Global,
    ir: &Program,
    plan: &Plan,
    form: &F,
    options: Options,
) -> Result<Built, OutOfMemory>
    requires plan { IsPlanOf ir.now plan.now options }
    ensures { IfOk result (IsBuiltBy ir.now plan.now (F.form form.now) options.enable) }
{
    let mut b = begun(alloc, ir, options.enable)?;
    let nets = Vec::new(alloc);
    let taps = Vec::new(alloc);
    let turns = Turns::new(alloc);
    let tests = no_tests(alloc, plan);
    let mut images = BuiltImages {
        alloc,
        nets,
        taps,
        turns,
        tests,
    };
    add_images(&mut b, ir, plan, form, &mut images)?;
    let built = finished(b, ir, plan, form, images)?;
    Ok(built)
}

/// The module of a program at age 0, without the port `en`: `build_with` without options.
pub fn build<F: BufferForm>(
    alloc: Global,
    ir: &Program,
    plan: &Plan,
    form: &F,
) -> Result<Built, OutOfMemory>
    requires plan { IsPlanOf ir.now plan.now (record { enable = false; age = 0 }) }
    ensures { IfOk result (IsBuiltBy ir.now plan.now (F.form form.now) false) }
{
    let options = Options {
        enable: false,
        age: 0,
    };
    let built = build_with(alloc, ir, plan, form, options)?;
    Ok(built)
}
