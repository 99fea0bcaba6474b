//! `run`: the circuit of a program is clocked on a file of images.

ghost use Rattle.std.specs.Prelude.{◌≡◌, ◌≤◌, ℕ, List, false, None, IfOk};
ghost use Rattle.dk_base.specs.declared.TheConstants.{MAX_AGE};
ghost use Rattle.dk_top.specs.Command.{run as run_command};
ghost use Rattle.dk_compile.specs.Limits.{IsFaultAt};
ghost use Rattle.dk_top.specs.Program.{CanBeCompiled};
ghost use Rattle.dk_top.specs.Compiling.{IsCompiledFrom};
ghost use Rattle.dk_top.specs.Streaming.{IsOnePort};
ghost use Rattle.dk_top.specs.Performing.{OfEnding};
ghost use Rattle.dk_top.specs.Streams.{AwaitsImages, ClocksFile, ClocksRounds, IsMachine, IsMachineOf, RunsMachine};
ghost use Rattle.dk_top.specs.Unread.{unread_text};
ghost use Rattle.dk_types.specs.Typed.{Typing};
ghost use Rattle.dk_compile.specs.Fronts.{IsForm};
ghost use Rattle.dk_top.specs.Reading.{AreRead, IsSourceEnding};

use crate::commands::compiling::compiled;
use crate::commands::streaming::run_streamed;
use crate::files::write_file;
use crate::laws::notes_agree_law;
use crate::of_text::{OfText, read_with};
use crate::reading::{read_frames, read_whole};
use crate::work::Work;
use dk_base::OutOfMemory;
use dk_compile::{Compiled, Options, drive_shows_law, is_one_port, one_at_age_law, one_source_law};
use dk_desk::{Desk, InSlot};
use dk_endings::Ending;
use dk_words::RunWords;
use netlist::Module;
use pgm_rounds::Round;
use std::alloc::{AllocError, Global};
use stimulus::BenchFault;
use test_bench::{frame_drive, run_bench};

// The module that the Verilog text of a program denotes.
pub fn read_again(alloc: Global, compiled: &Compiled) -> Result<Module, OutOfMemory>
    requires { (source : List ℕ) × (age : ℕ) × IsCompiledFrom source age false None compiled.now }
    ensures { IfOk result (λ m. m ≡ compiled.now.«module») }
{
    match verilog_read::read(alloc, &compiled.text) {
        Ok(module) => Ok(module),
        // the text denotes a module, so only out of memory is left
        Err(_) => Err(AllocError),
    }
}

// The program, compiled, and the module that its Verilog text denotes.
#[derive(Drop)]
pub struct Machine {
    pub compiled: Compiled,
    pub module: Module,
}

// The file of the pictures that the module of a program shows, clocked over all rounds.
pub fn clocked<D: Desk>(
    alloc: Global,
    desk: &mut D,
    machine: &Machine,
    rounds: &[Round],
) -> Result<Vec<u8>, OutOfMemory>
    requires machine { IsMachine machine.now }
    requires read { AreRead machine.now.compiled.ir rounds.now }
    ensures { ClocksRounds machine.now rounds.now result (D.outside desk.old)
        (D.outside desk.new) }
{
    one_source_law();
    drive_shows_law();
    notes_agree_law();
    machine.compiled.ir.law();
    machine.compiled.plan.law();
    let size = machine.compiled.ir.size();
    let drive = frame_drive(size, machine.compiled.plan.latency(), rounds.len());
    match run_bench(alloc, desk, &machine.module, drive, size, rounds) {
        Ok(file) => Ok(file),
        Err(BenchFault::Stopped(_)) => unreachable!(),
        Err(BenchFault::OutOfMemory) => Err(AllocError),
    }
}

/// Compiles the program, and reads its Verilog text again.
impl OfText for RunWords<'_> {
    type Made = Machine;

    ghost ranges = { λ words. words.age ≤ MAX_AGE };

    ghost makes = { λ words text machine. IsMachineOf text words.age machine };

    ghost good = { λ words text. CanBeCompiled text words.age };

    ghost ends = { λ words text e. IsSourceEnding (IsFaultAt text words.age) e };

    fn make(&self, alloc: Global, text: &[u8]) -> Result<Machine, Ending> {
        let options = Options {
            enable: false,
            age: self.age,
            block: None,
        };
        let compiled = compiled(alloc, text, options)?;
        match read_again(alloc, &compiled) {
            Ok(module) => Ok(Machine { compiled, module }),
            Err(_) => Err(Ending::Memory),
        }
    }

    ghost unread = { λ words text e h. unread_text (IsFaultAt text words.age) text e (λ long. long) h };
}

// Reads and judges the file of images, and returns the file of the pictures that the module shows.
fn ran<D: Desk>(
    alloc: Global,
    desk: &mut D,
    machine: &Machine,
    image: &str,
) -> Result<Vec<u8>, Ending>
    requires machine { IsMachine machine.now }
    requires awaits { AwaitsImages (D.outside desk.old) }
    ensures { ClocksFile machine.now image.now result (D.outside desk.old) (D.outside desk.new) }
{
    one_at_age_law();
    // no list of bytes is longer
    let file = read_whole(
        alloc,
        desk,
        InSlot::Image,
        image,
        usize::MAX,
        Ending::Memory,
    )?;
    let rounds = read_frames(alloc, &machine.compiled.ir, &file)?;
    match clocked(alloc, desk, machine, &rounds) {
        Ok(output) => Ok(output),
        Err(_) => Err(Ending::Memory),
    }
}

// Clocks the module of a program with several inputs or outputs on the rounds of the images, and then writes the pictures.
fn run_rounds<D: Desk>(
    alloc: Global,
    desk: &mut D,
    machine: &Machine,
    image: &str,
    out: &str,
) -> Result<(), Ending>
    requires machine { IsMachine machine.now }
    requires several { (p : Typing) → IsForm p machine.now.compiled.ir → IsOnePort p → ⊥ }
    requires awaits { AwaitsImages (D.outside desk.old) }
    ensures { OfEnding result (λ e. RunsMachine machine.now image.now out.now e (D.outside desk.old)
        (D.outside desk.new)) }
{
    one_source_law();
    one_at_age_law();
    let output = ran(alloc, desk, machine, image)?;
    write_file(desk, out, &output)?;
    Ok(())
}

/// Compiles the program, clocks its circuit on the images, and writes the pictures that it shows.
impl Work for RunWords<'_> {
    ghost command = { λ words. run_command words.program.now words.image.now words.out.now words.age };

    fn perform<D: Desk>(&self, alloc: Global, desk: &mut D) -> Result<(), Ending> {
        one_source_law();
        one_at_age_law();
        let machine = read_with(alloc, desk, self.program, self)?;
        if is_one_port(&machine.compiled.ir) {
            run_streamed(alloc, desk, &machine, self.image, self.out)
        } else {
            run_rounds(alloc, desk, &machine, self.image, self.out)
        }
    }
}
