//! Whether the output of a command has the name of another file.

ghost use Rattle.std.specs.Prelude.{◌≡◌};
ghost use Rattle.dk_words.specs.Command.{command_asked};
ghost use Rattle.dk_words.specs.Distinct as distinct;

use crate::command::Asked;

// The output has the name of no input.
fn names_differ(program: &str, image: &str, out: &str) -> bool
    ensures { result ≡ distinct.are_distinct program.now image.now out.now }
{
    out != program && out != image
}

/// Whether the output of the command has the name of no input.
pub fn is_distinct(asked: &Asked<'_>) -> bool
    ensures { result ≡ distinct.is_distinct (command_asked asked.now) }
{
    match asked {
        Asked::Run(words) => names_differ(words.program, words.image, words.out),
        Asked::Eval(files) => names_differ(files.program, files.image, files.out),
        Asked::Compile(words) => words.out != words.program,
        Asked::Sim(words) => names_differ(words.verilog, words.image, words.out),
        Asked::Trace(words) => names_differ(words.verilog, words.image, words.vcd),
        Asked::Plan(_) => true,
        Asked::Check(_) => true,
        Asked::Make(_) => true,
        Asked::Rewrite(words) => words.out != words.program,
        Asked::Explain(_) => true,
        Asked::Nets(_) => true,
    }
}
