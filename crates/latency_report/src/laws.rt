// The report of a plan is a report of its version.

ghost use Rattle.std.specs.Prelude.{◌≡◌, ◌<◌, ◌^◌, ℕ, length, slice_index, All};
ghost use Rattle.dk_base.specs.declared.stencils.Image.{Image};
ghost use Rattle.flow_dual.specs.Solutions.{IsSolution};
ghost use Rattle.pointwise_ir.specs.Programs.{names_of};
ghost use Rattle.report_text.specs.Reports.{AreNames, Meets};
ghost use Rattle.latency_report.specs.Printed.{report_of};

use buffer_plan::Plan;
use flow_dual::Solution;
use pointwise_ir::Program;
use raster_delay::System;

// The numbers of a slice are below 2^64.
fn fit(numbers: &[u64])
    ensures { (k : ℕ) → slice_index numbers.now k < 2 ^ 64 }
{
    let _numbers = numbers;
}

/// A law: where the images of a program have names of the source language, distinct, and at most 256 of them are no inputs, the report of its plan has the values of a report of its version. So what `print` makes of it denotes this report alone.
pub fn printed_meets_law(ir: &Program, plan: &Plan, system: &System, solution: &Solution)
    requires solution { IsSolution system.now solution.now }
    requires plan { plan.now ≡ record { system = system.now; delays = solution.now.delays } }
    requires images { All (λ (i : Image). i.number < length (names_of ir.now)) system.now.stencils.images }
    requires names { AreNames system.now.stencils.inputs (names_of ir.now) }
    ensures { Meets (report_of ir.now plan.now solution.now.flow) }
{
    plan.law();
    fit(solution.ends.as_slice());
    fit(solution.flow.as_slice());
}
