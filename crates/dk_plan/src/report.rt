// The report of a program's plan.

ghost use Rattle.std.specs.Prelude.{◌≡◌, ◌<◌, length, All, IfOk};
ghost use Rattle.dk_base.specs.declared.stencils.Image.{Image};
ghost use Rattle.pointwise_ir.specs.Programs.{names_of};
ghost use Rattle.flow_dual.specs.Solutions.{IsSolution};
ghost use Rattle.report_text.specs.Reports.{AreNames};
ghost use Rattle.dk_plan.specs.Planned.{IsReportText};

use crate::printed::printed_holds_law;
use buffer_plan::Plan;
use dk_base::OutOfMemory;
use flow_dual::Solution;
use latency_report::{print, printed_meets_law};
use pointwise_ir::Program;
use raster_delay::System;
use std::alloc::Global;

/// The report of a program's plan, in version 2 for one input and one output and in version 3 for any other. The plan has the delays of a solution of the system, and the kept images are images of the program.
pub fn plan_report(
    alloc: Global,
    ir: &Program,
    system: &System,
    solution: &Solution,
    plan: &Plan,
) -> Result<Vec<u8>, OutOfMemory>
    requires solution { IsSolution system.now solution.now }
    requires plan { plan.now ≡ record { system = system.now; delays = solution.now.delays } }
    requires images { All (λ (i : Image). i.number < length (names_of ir.now)) system.now.stencils.images }
    requires names { AreNames system.now.stencils.inputs (names_of ir.now) }
    ensures report { IfOk result (λ bytes. IsReportText (names_of ir.now) system.now bytes.items) }
{
    system.law();
    plan.law();
    printed_meets_law(ir, plan, system, solution);
    printed_holds_law();
    let text = print(alloc, ir, plan, system, solution)?;
    Ok(text)
}
