// Whether a report holds of a program.

ghost use Rattle.std.specs.Prelude.{◌<◌, length, All, IfOk, IfErr};
ghost use Rattle.dk_base.specs.declared.stencils.Image.{Image};
ghost use Rattle.pointwise_ir.specs.Programs.{names_of};
ghost use Rattle.dk_plan.specs.Judged.{IsConfirmed, IsCheckFault};

use dk_base::{OutOfMemory, Stencils};
use plan_check::{Verdict, judge};
use pointwise_ir::Program;
use raster_delay::System;
use report_text::{ReportFault, read};
use std::alloc::Global;

/// What a report that holds says: the buffer bits, and the latency of the first output in clocks.
#[derive(Clone, Copy, Debug, PartialEq, Eq)]
pub struct Claim {
    pub bits: u64,
    pub latency: u64,
}

/// Why a report does not hold.
#[derive(Clone, Copy, Debug, PartialEq, Eq, thiserror::Error)]
pub enum CheckFault {
    /// The first line that continues no report or is wrong, counted from 1.
    #[error("line {number}")]
    Line { number: u64 },
    #[error("out of memory")]
    OutOfMemory,
}

impl From<OutOfMemory> for CheckFault {
    ghost use Rattle.std.specs.Prelude.{◌≡◌};
    ghost use Rattle.dk_plan.specs.declared.judging.CheckFault.TheVariants as fault;

    ghost from_gives = { λ e f. f ≡ fault.OutOfMemory };

    fn from(_error: OutOfMemory) -> Self {
        CheckFault::OutOfMemory
    }
}

impl From<ReportFault> for CheckFault {
    ghost use Rattle.std.specs.Prelude.{◌≡◌};
    ghost use Rattle.dk_plan.specs.Judged.{of_reader};

    ghost from_gives = { λ e f. f ≡ of_reader e };

    fn from(error: ReportFault) -> Self {
        match error {
            ReportFault::Line { number } => CheckFault::Line { number },
            ReportFault::OutOfMemory => CheckFault::OutOfMemory,
        }
    }
}

/// Whether a report, whoever made it, holds of a program with these live reads at the report's own age, and what it then says. The kept images are images of the program. Limits on bits and latency are not judged.
pub fn judge_report(
    alloc: Global,
    ir: &Program,
    stencils: &Stencils,
    report: &[u8],
) -> Result<Claim, CheckFault>
    requires images { All (λ (i : Image). i.number < length (names_of ir.now)) stencils.now.images }
    ensures holds { IfOk result (IsConfirmed (names_of ir.now) stencils.now report.now) }
    ensures fault { IfErr result (IsCheckFault (names_of ir.now) stencils.now report.now) }
{
    let said = read(alloc, report)?;
    let system = System::aged(alloc, stencils, said.age)?;
    match judge(ir, stencils, &system, &said) {
        Verdict::Yes => Ok(Claim {
            bits: said.bits,
            latency: said.latencies[0],
        }),
        Verdict::No { line } => Err(CheckFault::Line { number: line }),
    }
}
