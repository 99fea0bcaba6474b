//! `make`: a program and an image are made from a number, and the program's circuit is clocked on the image.

ghost use Rattle.std.specs.Prelude.{◌≡◌, ◌≢◌, List, false, None, Err, IfOk, IfErr, OnOk};
ghost use Rattle.pgm_codec.specs.Images.{Image as OneImage};
ghost use Rattle.made_program.specs.Programs.{program_of};
ghost use Rattle.made_program.specs.Images.{image_of};
ghost use Rattle.dk_top.specs.Command.{make as make_command};
ghost use Rattle.dk_compile.specs.Limits.{IsFaultAt};
ghost use Rattle.dk_top.specs.Program.{CanBeCompiled};
ghost use Rattle.dk_top.specs.Compiling.{IsCompiledFrom};
ghost use Rattle.dk_top.specs.Making.{IsMade, IsMadeLine, NotesMade};
ghost use Rattle.dk_top.specs.Reading.{AreRead, IsInputOf, IsSourceEnding, Stops, NotesOnly};

use crate::commands::compiling::compiled;
use crate::commands::running::{Machine, clocked, read_again};
use crate::files::write_report;
use crate::reading::read_frames;
use crate::work::Work;
use dk_base::OutOfMemory;
use dk_compile::{Compiled, Options, one_at_age_law};
use dk_desk::Desk;
use dk_endings::Ending;
use dk_words::MakeWords;
use made_program::{Figures, made_is_read_law, make, sample_sum, summary};
use pgm_codec::one_reading_law;
use pgm_rounds::Round;
use pointwise_ir::meaning_law;
use std::alloc::Global;

// What `make` works on: what the program is compiled to, the module of its Verilog text, and the frames of the rounds.
#[derive(Drop)]
struct Ready {
    machine: Machine,
    rounds: Vec<Round>,
}

// The program of a number, compiled, and the frames of its image.
fn made_ready(alloc: Global, n: u32) -> Result<Ready, Ending>
    ensures compiled { IfOk result (λ r. IsCompiledFrom (program_of n) 0 false None r.machine.compiled) }
    ensures again { IfOk result (λ r. r.machine.«module» ≡ r.machine.compiled.«module») }
    ensures input { IfOk result (λ r. IsInputOf None r.machine.compiled.ir (image_of n) r.rounds.items) }
    ensures read { IfOk result (λ r. AreRead r.machine.compiled.ir r.rounds.items) }
    ensures good { OnOk result (CanBeCompiled (program_of n) 0) }
    ensures fault { IfErr result (IsSourceEnding (IsFaultAt (program_of n) 0)) }
    ensures stops { IfErr result Stops }
    ensures judged { result ≢ Err Ending.ReadFault }
{
    let Ok(made) = make(alloc, n) else {
        return Err(Ending::Memory);
    };
    let options = Options {
        enable: false,
        age: 0,
        block: None,
    };
    let compiled = compiled(alloc, &made.program, options)?;
    let Ok(module) = read_again(alloc, &compiled) else {
        return Err(Ending::Memory);
    };
    match read_frames(alloc, &compiled.ir, &made.image) {
        Ok(rounds) => Ok(Ready {
            machine: Machine { compiled, module },
            rounds,
        }),
        // That a made image fits its program is tested and not proved; otherwise the call would end here.
        Err(_) => Err(Ending::Memory),
    }
}

// The line of a number, whose outputs are in this file.
fn line_of(alloc: Global, n: u32, compiled: &Compiled, file: &[u8]) -> Result<Vec<u8>, OutOfMemory>
    requires { (rounds : List (List OneImage)) × IsMade n compiled.now rounds file.now }
    ensures { IfOk result (λ line. IsMadeLine n line.items) }
{
    one_reading_law();
    made_is_read_law();
    meaning_law(&compiled.ir);
    compiled.system.law();
    let sample_sum = sample_sum(alloc, compiled.ir.size(), file)?;
    let figures = Figures {
        images: (compiled.system.images().len() - compiled.system.inputs()) as u64,
        reads: compiled.system.reads().len() as u64,
        bits: compiled.plan.bits(),
        latency: compiled.plan.latency(),
        sample_sum,
    };
    summary(alloc, n, figures)
}

// The line of a number, whose program was clocked on its image.
fn made_line<D: Desk>(alloc: Global, desk: &mut D, n: u32) -> Result<Vec<u8>, Ending>
    ensures only { NotesOnly (D.outside desk.old) (D.outside desk.new) }
    ensures line { IfOk result (λ line. IsMadeLine n line.items) }
    ensures notes { OnOk result (NotesMade n (D.outside desk.old).notes
        (D.outside desk.new).notes) }
    ensures good { OnOk result (CanBeCompiled (program_of n) 0) }
    ensures fault { IfErr result (IsSourceEnding (IsFaultAt (program_of n) 0)) }
    ensures stops { IfErr result Stops }
    ensures judged { result ≢ Err Ending.ReadFault }
{
    one_at_age_law();
    let ready = made_ready(alloc, n)?;
    let Ok(file) = clocked(alloc, desk, &ready.machine, &ready.rounds) else {
        return Err(Ending::Memory);
    };
    match line_of(alloc, n, &ready.machine.compiled, &file) {
        Ok(line) => Ok(line),
        Err(_) => Err(Ending::Memory),
    }
}

/// Makes the program and the image of the number, clocks the program's circuit on the image, and writes a line to Report.
impl Work for MakeWords {
    ghost command = { λ words. make_command words.number };

    fn perform<D: Desk>(&self, alloc: Global, desk: &mut D) -> Result<(), Ending> {
        let line = made_line(alloc, desk, self.number)?;
        write_report(desk, &line)?;
        Ok(())
    }
}
