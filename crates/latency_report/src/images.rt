// The lines of the kept images, and the latencies.

ghost use Rattle.std.specs.Prelude.{◌≡◌, ◌<◌, length, All, IfOk};
ghost use Rattle.dk_base.specs.declared.stencils.Image.{Image as Kept};
ghost use Rattle.flow_dual.specs.Solutions.{IsSolution};
ghost use Rattle.pointwise_ir.specs.Programs.{names_of};
ghost use Rattle.latency_report.specs.Printed.{name_of, image_lines, latencies};

use buffer_plan::Plan;
use dk_base::{Image, OutOfMemory, Text};
use flow_dual::Solution;
use pointwise_ir::Program;
use raster_delay::System;
use report_text::ImageLine;
use std::alloc::Global;

// The name of the image of this number.
fn name(ir: &Program, number: usize) -> &Text
    requires { number < length (names_of ir.now) }
    ensures { result.now ≡ name_of ir.now number }
{
    let inputs = ir.inputs();
    if number < inputs.len() {
        &inputs[number].name
    } else {
        &ir.images()[number - inputs.len()].name
    }
}

// The line of a kept image.
fn image_line(
    alloc: Global,
    ir: &Program,
    image: Image,
    delay: u64,
    depth: u64,
) -> Result<ImageLine, OutOfMemory>
    requires { image.number < length (names_of ir.now) }
    ensures { IfOk result (λ line. line ≡ record { name = name_of ir.now image.number; width = image.width; delay = delay; depth = depth }) }
{
    let name = name(ir, image.number as usize);
    let name = Vec::from_slice(alloc, name.as_bytes())?;
    Ok(ImageLine {
        name: Text::new(name),
        width: image.width,
        delay,
        depth,
    })
}

// The lines of the kept images in order.
pub fn image_lines(
    alloc: Global,
    ir: &Program,
    system: &System,
    solution: &Solution,
) -> Result<Vec<ImageLine>, OutOfMemory>
    requires solution { IsSolution system.now solution.now }
    requires images { All (λ (i : Kept). i.number < length (names_of ir.now)) system.now.stencils.images }
    ensures { IfOk result (λ lines. lines.items ≡ image_lines ir.now (record { system = system.now; delays = solution.now.delays })) }
{
    let images = system.images();
    let delays = solution.delays.as_slice();
    let ends = solution.ends.as_slice();
    let mut lines = Vec::new(alloc);
    for k in 0..images.len() {
        let line = image_line(alloc, ir, images[k], delays[k], ends[k] - delays[k])?;
        lines.push(line)?;
    }
    Ok(lines)
}

// The delay of each output.
pub fn latencies(alloc: Global, plan: &Plan, outputs: usize) -> Result<Vec<u64>, OutOfMemory>
    requires { outputs ≡ length plan.now.system.stencils.outputs }
    ensures { IfOk result (λ delays. delays.items ≡ latencies plan.now) }
{
    let mut delays = Vec::new(alloc);
    for k in 0..outputs {
        delays.push(plan.latency_of(k))?;
    }
    Ok(delays)
}
