//! `nets`: the nets of a program's circuit, by the names of its images.

ghost use Rattle.std.specs.Prelude.{◌≤◌, Err, IfSome};
ghost use Rattle.dk_base.specs.declared.TheConstants.{MAX_AGE};
ghost use Rattle.dk_compile.specs.Limits.{IsFaultAt};
ghost use Rattle.dk_top.specs.Command.{nets as nets_command};
ghost use Rattle.dk_top.specs.Program.{CanBeCompiled};
ghost use Rattle.dk_top.specs.Compiling.{AreNetLines};
ghost use Rattle.dk_top.specs.Reading.{IsSourceEnding};
ghost use Rattle.dk_top.specs.Unread.{unread_text};

use crate::commands::compiling::compiled;
use crate::files::write_report;
use crate::of_text::{OfText, read_with};
use crate::work::Work;
use dk_compile::Options;
use dk_desk::Desk;
use dk_endings::Ending;
use dk_words::NetsWords;
use net_lines::{NamedNets, net_lines};
use std::alloc::Global;

/// Makes the lines of the nets of the program.
impl OfText for NetsWords<'_> {
    type Made = Vec<u8>;

    ghost ranges = { λ words. (words.age ≤ MAX_AGE) × IfSome words.block (λ n. 2 ≤ n) };

    ghost makes = { λ words text made. AreNetLines text words.age words.enable words.block made.items };

    ghost good = { λ words text. CanBeCompiled text words.age };

    ghost ends = { λ words text e. IsSourceEnding (IsFaultAt text words.age) e };

    fn make(&self, alloc: Global, text: &[u8]) -> Result<Vec<u8>, Ending> {
        let options = Options {
            enable: self.enable,
            age: self.age,
            block: self.block,
        };
        let circuit = compiled(alloc, text, options)?;
        let nets = NamedNets {
            ir: &circuit.ir,
            plan: &circuit.plan,
            module: &circuit.module,
            text: &circuit.text,
            images: &circuit.nets,
            reads: &circuit.reads,
        };
        match net_lines(alloc, &nets) {
            Ok(lines) => Ok(lines),
            Err(_) => Err(Ending::Memory),
        }
    }

    ghost unread = { λ words text e h. unread_text (IsFaultAt text words.age) text e (λ long. long) h };
}

/// Writes the lines of the program's nets to Report.
impl Work for NetsWords<'_> {
    ghost command = { λ words. nets_command words.program.now words.enable words.age words.block };

    fn perform<D: Desk>(&self, alloc: Global, desk: &mut D) -> Result<(), Ending> {
        let lines = read_with(alloc, desk, self.program, self)?;
        write_report(desk, &lines)?;
        Ok(())
    }
}
