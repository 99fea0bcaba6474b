//! `eval`: the pictures by a program's meaning.

ghost use Rattle.std.specs.Prelude.{◌≡◌, ◌≢◌, ℕ, List, Err, IfOk, IfErr};
ghost use Rattle.dk_compile.specs.Limits.{IsFaultAt};
ghost use Rattle.dk_top.specs.Command.{eval as eval_command};
ghost use Rattle.dk_top.specs.Output.{output_file, eval_terms, IsAnswer, OfPair};
ghost use Rattle.dk_top.specs.Program.{CanBeCompiled};
ghost use Rattle.dk_top.specs.State.{IsFresh};
ghost use Rattle.dk_top.specs.Reading.{AreRead, IsFormAt, IsRead, IsSourceEnding, ReadsBoth};

use crate::files::write_file;
use crate::reading::{ending_of, read_frames, read_text, read_whole};
use crate::work::Work;
use dk_base::{MAX_PGM_BYTES, OutOfMemory};
use dk_compile::{one_at_age_law, one_source_law, planned};
use dk_desk::{Desk, InSlot};
use dk_endings::{Ending, ImageFault};
use dk_words::FileNames;
use pgm_rounds::Round;
use pointwise_ir::Program;
use program_images::write_outputs;
use std::alloc::Global;

// The form of the program of a text.
fn form_of(alloc: Global, text: &[u8]) -> Result<Program, Ending>
    ensures form { IfOk result (IsFormAt text.now 0) }
    ensures fault { IfErr result (IsSourceEnding (IsFaultAt text.now 0)) }
    ensures judged { result ≢ Err Ending.ReadFault }
{
    one_source_law();
    one_at_age_law();
    match planned(alloc, text, 0) {
        Ok(program) => Ok(program.ir),
        Err(error) => Err(ending_of(error)),
    }
}

// What `eval` works on: the program's form, and the frames of its rounds.
#[derive(Drop)]
struct Given {
    ir: Program,
    rounds: Vec<Round>,
}

// Reads and judges the program, and then the file of images.
fn read_given<D: Desk>(alloc: Global, desk: &mut D, files: &FileNames) -> Result<Given, Ending>
    requires { IsFresh (D.outside desk.old) }
    ensures { ReadsBoth files.now.program.now files.now.image.now (λ source. CanBeCompiled source 0)
        (λ source file given. IsRead eval_terms source file given.ir given.rounds.items)
        (λ given. AreRead given.ir given.rounds.items) (IsAnswer eval_terms) result (D.outside desk.old) (D.outside desk.new) }
{
    let text = read_text(alloc, desk, files.program)?;
    let ir = form_of(alloc, &text)?;
    let too_long = Ending::Image(ImageFault::TooLong);
    let limit = MAX_PGM_BYTES as usize;
    let file = read_whole(alloc, desk, InSlot::Image, files.image, limit, too_long)?;
    let rounds = read_frames(alloc, &ir, &file)?;
    Ok(Given { ir, rounds })
}

// The output file by the program's meaning.
fn evaluated(alloc: Global, given: &Given) -> Result<Vec<u8>, OutOfMemory>
    requires frames { AreRead given.now.ir given.now.rounds.items }
    ensures output { IfOk result (λ output. (source file : List ℕ) → IsRead eval_terms source file given.now.ir given.now.rounds.items
        → OfPair eval_terms source file (λ p rounds. output.items ≡ output_file p rounds)) }
{
    given.ir.law();
    let mut file = Vec::new(alloc);
    for round in &given.rounds {
        write_outputs(alloc, &given.ir, round, &mut file)?;
    }
    Ok(file)
}

/// Evaluates the program on the images, and writes the pictures.
impl Work for FileNames<'_> {
    ghost command = { λ files. eval_command files.program.now files.image.now files.out.now };

    fn perform<D: Desk>(&self, alloc: Global, desk: &mut D) -> Result<(), Ending> {
        let given = read_given(alloc, desk, self)?;
        let Ok(output) = evaluated(alloc, &given) else {
            return Err(Ending::Memory);
        };
        write_file(desk, self.out, &output)?;
        Ok(())
    }
}
