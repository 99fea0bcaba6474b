//! `plan`: the report of a program's delays and buffer bits.

ghost use Rattle.std.specs.Prelude.{◌≤◌, Err};
ghost use Rattle.dk_base.specs.declared.TheConstants.{MAX_AGE};
ghost use Rattle.dk_compile.specs.Limits.{IsFaultAt};
ghost use Rattle.dk_top.specs.Command.{plan as plan_command};
ghost use Rattle.dk_top.specs.Program.{CanBeCompiled};
ghost use Rattle.dk_top.specs.Plans.{IsPlanOf};
ghost use Rattle.dk_top.specs.Reading.{IsSourceEnding};
ghost use Rattle.dk_top.specs.Unread.{unread_text};

use crate::files::write_report;
use crate::of_text::{OfText, read_with};
use crate::reading::ending_of;
use crate::work::Work;
use dk_compile::{one_at_age_law, planned};
use dk_desk::Desk;
use dk_endings::Ending;
use dk_plan::plan_report;
use dk_words::PlanWords;
use source_names::source_names_law;
use std::alloc::Global;

/// Makes the report of the program's plan.
impl OfText for PlanWords<'_> {
    type Made = Vec<u8>;

    ghost ranges = { λ words. words.age ≤ MAX_AGE };

    ghost makes = { λ words text report. IsPlanOf text words.age report.items };

    ghost good = { λ words text. CanBeCompiled text words.age };

    ghost ends = { λ words text e. IsSourceEnding (IsFaultAt text words.age) e };

    fn make(&self, alloc: Global, text: &[u8]) -> Result<Vec<u8>, Ending> {
        source_names_law();
        one_at_age_law();
        let program = match planned(alloc, text, self.age) {
            Ok(program) => program,
            Err(error) => return Err(ending_of(error)),
        };
        match plan_report(
            alloc,
            &program.ir,
            &program.system,
            &program.solution,
            &program.plan,
        ) {
            Ok(report) => Ok(report),
            Err(_) => Err(Ending::Memory),
        }
    }

    ghost unread = { λ words text e h. unread_text (IsFaultAt text words.age) text e (λ long. long) h };
}

/// Writes the report of the program's plan to Report.
impl Work for PlanWords<'_> {
    ghost command = { λ words. plan_command words.program.now words.age };

    fn perform<D: Desk>(&self, alloc: Global, desk: &mut D) -> Result<(), Ending> {
        let report = read_with(alloc, desk, self.program, self)?;
        write_report(desk, &report)?;
        Ok(())
    }
}
