// The report of a plan.

ghost use Rattle.std.specs.Prelude.{◌≡◌, ◌<◌, length, All, IfOk};
ghost use Rattle.dk_base.specs.declared.stencils.Image.{Image};
ghost use Rattle.flow_dual.specs.Solutions.{IsSolution};
ghost use Rattle.pointwise_ir.specs.Programs.{names_of};
ghost use Rattle.report_text.specs.Layout.{layout};
ghost use Rattle.report_text.specs.Reports.{parts_of};
ghost use Rattle.latency_report.specs.Printed.{version_of, report_of};

use crate::flow::flow_lines;
use crate::images::{image_lines, latencies};
use buffer_plan::Plan;
use dk_base::{MAX_BUFFER_BITS, MAX_LATENCY, OutOfMemory};
use flow_dual::Solution;
use pointwise_ir::Program;
use raster_delay::System;
use report_text::{Limits, Report, write};
use std::alloc::Global;

// Version 2 for one input and one output, and version 3 for any other.
fn version(system: &System) -> u8
    ensures { result ≡ version_of system.now }
{
    if system.inputs() == 1 && system.outputs().len() == 1 {
        2
    } else {
        3
    }
}

// The report of a program's plan.
fn report(
    alloc: Global,
    ir: &Program,
    plan: &Plan,
    system: &System,
    solution: &Solution,
) -> Result<Report, OutOfMemory>
    requires solution { IsSolution system.now solution.now }
    requires plan { plan.now ≡ record { system = system.now; delays = solution.now.delays } }
    requires images { All (λ (i : Image). i.number < length (names_of ir.now)) system.now.stencils.images }
    ensures { IfOk result (λ r. parts_of r ≡ report_of ir.now plan.now solution.now.flow) }
{
    let images = image_lines(alloc, ir, system, solution)?;
    let latencies = latencies(alloc, plan, system.outputs().len())?;
    let flow = flow_lines(alloc, system, solution.flow.as_slice())?;
    Ok(Report {
        version: version(system),
        limits: Limits {
            bits: MAX_BUFFER_BITS,
            latency: MAX_LATENCY,
        },
        age: system.age(),
        width: system.width(),
        height: system.height(),
        images,
        latencies,
        clocks: plan.clocks(),
        bits: plan.bits(),
        reads: system.reads().len() as u64,
        flow,
    })
}

/// The text of the report of a program's plan, in version 2 for one input and one output and in version 3 for any other. The kept images are images of the program.
pub fn print(
    alloc: Global,
    ir: &Program,
    plan: &Plan,
    system: &System,
    solution: &Solution,
) -> Result<Vec<u8>, OutOfMemory>
    requires solution { IsSolution system.now solution.now }
    requires plan { plan.now ≡ record { system = system.now; delays = solution.now.delays } }
    requires images { All (λ (i : Image). i.number < length (names_of ir.now)) system.now.stencils.images }
    ensures { IfOk result (λ text. text.items ≡ layout (report_of ir.now plan.now solution.now.flow)) }
{
    let report = report(alloc, ir, plan, system, solution)?;
    let text = write(alloc, &report)?;
    Ok(text)
}
