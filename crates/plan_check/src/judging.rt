// Whether a report is that of a program.

ghost use Rattle.std.specs.Prelude.{◌≡◌};
ghost use Rattle.pointwise_ir.specs.Programs.{names_of};
ghost use Rattle.report_text.specs.Reports.{Meets, parts_of};
ghost use Rattle.plan_check.specs.declared.verdict.Verdict.TheVariants as verdict;
ghost use Rattle.plan_check.specs.Holding.{AreLeast};
ghost use Rattle.plan_check.specs.Program.{AreNamed, JudgesOf, IsAmiss, program_rules};
ghost use Rattle.plan_check.specs.First.{IsFirst};
ghost use Rattle.plan_check.specs.Rules.{Breaks};

use crate::checking::check;
use crate::program::{foreign_line, is_of_counts};
use crate::verdict::Verdict;
use dk_base::Stencils;
use pointwise_ir::Program;
use raster_delay::System;
use report_text::Report;

// The first wrong line, where this one is the first that is wrong by the program.
fn first_amiss(ir: &Program, system: &System, report: &Report, line: u64) -> u64
    requires meets { Meets (parts_of report.now) }
    requires age { report.now.age ≡ system.now.age }
    requires foreign { IsFirst
        (Breaks (program_rules (names_of ir.now) system.now.stencils (parts_of report.now))) line }
    ensures { IsFirst (IsAmiss (names_of ir.now) system.now (parts_of report.now)) result }
{
    if !is_of_counts(system, report) {
        return line;
    }
    match check(system, report) {
        Verdict::Yes => line,
        Verdict::No { line: other } => line.min(other),
    }
}

/// Whether a report is one of this program, or its first wrong line. The stencils are those of the system, and their kept images are images of the program. It takes no memory.
pub fn judge(ir: &Program, stencils: &Stencils, system: &System, report: &Report) -> Verdict
    requires meets { Meets (parts_of report.now) }
    requires age { report.now.age ≡ system.now.age }
    requires stencils { stencils.now ≡ system.now.stencils }
    requires images { AreNamed (names_of ir.now) system.now.stencils.images }
    ensures judged { JudgesOf (names_of ir.now) system.now (parts_of report.now) result }
    ensures least { result ≡ verdict.Yes → AreLeast system.now (parts_of report.now) }
{
    match foreign_line(ir, stencils, report) {
        None => check(system, report),
        Some(line) => Verdict::No {
            line: first_amiss(ir, system, report, line),
        },
    }
}
