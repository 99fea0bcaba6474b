//! `compile`: the Verilog text of a program.

ghost use Rattle.std.specs.Prelude.{◌≢◌, ◌≤◌, Err, IfOk, IfErr, IfSome, OnOk};
ghost use Rattle.dk_base.specs.declared.TheConstants.{MAX_AGE};
ghost use Rattle.dk_top.specs.Command.{compile as compile_command};
ghost use Rattle.dk_compile.specs.Limits.{IsFaultAt};
ghost use Rattle.dk_top.specs.Program.{CanBeCompiled};
ghost use Rattle.dk_top.specs.Compiling.{IsCompiledFrom, IsCompiledText};
ghost use Rattle.dk_top.specs.Reading.{Stops, IsSourceEnding};
ghost use Rattle.dk_top.specs.Unread.{unread_text};

use crate::files::write_file;
use crate::of_text::{OfText, read_with};
use crate::reading::ending_of;
use crate::work::Work;
use dk_compile::{Compiled, Options, compile_with, one_at_age_law};
use dk_desk::Desk;
use dk_endings::Ending;
use dk_words::CompileWords;
use std::alloc::Global;

// What a text is compiled to.
pub fn compiled(alloc: Global, text: &[u8], options: Options) -> Result<Compiled, Ending>
    requires age { options.age ≤ MAX_AGE }
    requires block { IfSome options.block (λ n. 2 ≤ n) }
    ensures compiled { IfOk result (IsCompiledFrom text.now options.age options.enable options.block) }
    ensures good { OnOk result (CanBeCompiled text.now options.age) }
    ensures fault { IfErr result (IsSourceEnding (IsFaultAt text.now options.age)) }
    ensures stops { IfErr result Stops }
    ensures judged { result ≢ Err Ending.ReadFault }
{
    one_at_age_law();
    match compile_with(alloc, text, options) {
        Ok(compiled) => Ok(compiled),
        Err(error) => Err(ending_of(error)),
    }
}

/// Makes the Verilog text of the program.
impl OfText for CompileWords<'_> {
    type Made = Vec<u8>;

    ghost ranges = { λ words. (words.age ≤ MAX_AGE) × IfSome words.block (λ n. 2 ≤ n) };

    ghost makes = { λ words text made. IsCompiledText text words.age words.enable words.block made.items };

    ghost good = { λ words text. CanBeCompiled text words.age };

    ghost ends = { λ words text e. IsSourceEnding (IsFaultAt text words.age) e };

    fn make(&self, alloc: Global, text: &[u8]) -> Result<Vec<u8>, Ending> {
        let options = Options {
            enable: self.enable,
            age: self.age,
            block: self.block,
        };
        let compiled = compiled(alloc, text, options)?;
        Ok(compiled.text)
    }

    ghost unread = { λ words text e h. unread_text (IsFaultAt text words.age) text e (λ long. long) h };
}

/// Compiles the program, and writes its Verilog text once the text is whole.
impl Work for CompileWords<'_> {
    ghost command = { λ words. compile_command words.program.now words.out.now words.enable words.age words.block };

    fn perform<D: Desk>(&self, alloc: Global, desk: &mut D) -> Result<(), Ending> {
        let text = read_with(alloc, desk, self.program, self)?;
        write_file(desk, self.out, &text)?;
        Ok(())
    }
}
