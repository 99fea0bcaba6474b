//! `sim`: any Verilog text of the subset is clocked on the images of a file. `trace` reads the same files.

ghost use Rattle.std.specs.Prelude.{◌≡◌, ◌≢◌, ◌≤◌, ◌<◌, ◌^◌, ℕ, List, Some, Err, IfOk, IfErr, IfSome, length};
ghost use Rattle.dk_base.specs.Frames.{IsFrame};
ghost use Rattle.dk_base.specs.FrameSizes.{size_of};
ghost use Rattle.cycle_sim.specs.Ports.{din_widths};
ghost use Rattle.stimulus.specs.Given.{AreBenchFrames};
ghost use Rattle.dk_top.specs.Command.{sim as sim_command};
ghost use Rattle.dk_top.specs.Simulation.{drive_of, fill_of as fill_named, IsModuleOf, HasModule};
ghost use Rattle.dk_top.specs.State.{IsFresh};
ghost use Rattle.dk_top.specs.Simulating.{IsModuleEnding, IsFileEnding, IsInput, IsInputRefusal, IsSimInput, HasBenchFrames, CanDrive, ShowsPictures};
ghost use Rattle.dk_top.specs.Reading.{ReadsBoth, IsJudgement, Stops};

use crate::files::write_file;
use crate::reading::read_whole;
use crate::work::Work;
use cycle_sim::{Fill, dins_of};
use dk_base::{MAX_PGM_BYTES, MAX_VERILOG_BYTES};
use dk_desk::{Desk, InSlot};
use dk_endings::{Ending, ImageFault, VerilogFault, VerilogKind};
use dk_words::{PowerUp, SimWords};
use netlist::Module;
use pgm_rounds::FileError;
use std::alloc::Global;
use stimulus::{BenchFault, BenchInput, Drive};
use test_bench::run_bench;
use verilog_read::{ModuleError, read_for};

// The module of a text within its limit, which has the port `en` where clocks are to be held.
fn module_of(alloc: Global, text: &[u8], hold: Option<u32>) -> Result<Module, Ending>
    requires { length text.now ≤ MAX_VERILOG_BYTES }
    ensures made { IfOk result (IsModuleOf hold text.now) }
    ensures fault { IfErr result (IsModuleEnding hold text.now) }
    ensures stops { IfErr result Stops }
    ensures judged { result ≢ Err Ending.ReadFault }
{
    match read_for(alloc, text, hold.is_some()) {
        Ok(module) => Ok(module),
        Err(ModuleError::Fault(fault)) => Err(Ending::Verilog(VerilogFault::of(fault))),
        Err(ModuleError::NoEnable(span)) => Err(Ending::Verilog(VerilogFault::At {
            span,
            kind: VerilogKind::Ports,
        })),
        Err(ModuleError::OutOfMemory) => Err(Ending::Memory),
    }
}

// The rounds of a file within its limit, for a module.
fn rounds_for(alloc: Global, module: &Module, file: &[u8]) -> Result<BenchInput, Ending>
    requires { length file.now ≤ MAX_PGM_BYTES }
    ensures input { IfOk result
        (λ input. IsInput «module».now file.now (size_of input.size) input.rounds.items) }
    ensures frame { IfOk result (λ input. IsFrame input.size.width input.size.height) }
    ensures frames { IfOk result
        (λ input. AreBenchFrames (din_widths «module».now.netlist) (size_of input.size) input.rounds.items) }
    ensures fault { IfErr result (IsFileEnding «module».now file.now) }
    ensures judged { IfErr result IsJudgement }
{
    match stimulus::read_input(alloc, dins_of(module), file) {
        Ok(input) => Ok(input),
        Err(FileError::Fault(fault)) => Err(Ending::Image(ImageFault::File(fault))),
        Err(FileError::OutOfMemory) => Err(Ending::Memory),
    }
}

// What `sim` and `trace` work on: a module, and the images that it is driven with.
#[derive(Drop)]
pub struct SimInput {
    pub module: Module,
    pub input: BenchInput,
}

// Reads and judges the Verilog text, and then the file of images.
pub fn read_all<D: Desk>(
    alloc: Global,
    desk: &mut D,
    verilog: &str,
    image: &str,
    hold: Option<u32>,
) -> Result<SimInput, Ending>
    requires { IsFresh (D.outside desk.old) }
    ensures { ReadsBoth verilog.now image.now (HasModule hold)
        (λ text file given. IsSimInput hold text file given.«module» (size_of given.input.size) given.input.rounds.items)
        HasBenchFrames (IsInputRefusal hold) result (D.outside desk.old) (D.outside desk.new) }
{
    let long_text = Ending::Verilog(VerilogFault::TooLong);
    let text = read_whole(
        alloc,
        desk,
        InSlot::Program,
        verilog,
        MAX_VERILOG_BYTES,
        long_text,
    )?;
    let module = module_of(alloc, &text, hold)?;
    let long_file = Ending::Image(ImageFault::TooLong);
    let limit = MAX_PGM_BYTES as usize;
    let file = read_whole(alloc, desk, InSlot::Image, image, limit, long_file)?;
    let input = rounds_for(alloc, &module, &file)?;
    Ok(SimInput { module, input })
}

// What registers and arrays hold at power-up, by the command's word.
fn fill_of(power: PowerUp) -> Fill
    ensures { result ≡ fill_named power }
{
    match power {
        PowerUp::Zeros => Fill::Zeros,
        PowerUp::Ones => Fill::Ones,
    }
}

// How the words drive a module.
pub fn drive_for(clocks: u32, fill: PowerUp, hold: Option<u32>) -> Drive
    ensures is { result ≡ drive_of clocks fill hold }
    ensures few { result.clocks < 2 ^ 60 }
{
    Drive {
        clocks: u64::from(clocks),
        fill: fill_of(fill),
        hold,
    }
}

// The file of the pictures that the module shows.
fn pictures<D: Desk>(
    alloc: Global,
    desk: &mut D,
    given: &SimInput,
    drive: Drive,
) -> Result<Vec<u8>, Ending>
    requires hold { IfSome drive.hold (λ count. 0 < count) }
    requires frame { IsFrame given.now.input.size.width given.now.input.size.height }
    requires driven { CanDrive drive given.now }
    ensures { ShowsPictures drive given.now result (D.outside desk.old) (D.outside desk.new) }
{
    verilog_text::one_module_law();
    stimulus::one_input_law();
    stimulus::one_bench_law();
    given.module.law();
    match run_bench(
        alloc,
        desk,
        &given.module,
        drive,
        given.input.size,
        &given.input.rounds,
    ) {
        Ok(file) => Ok(file),
        Err(BenchFault::Stopped(stop)) => Err(Ending::Stopped(stop)),
        Err(BenchFault::OutOfMemory) => Err(Ending::Memory),
    }
}

/// Clocks the module of a Verilog text on the images of a file, and writes the pictures that it shows.
impl Work for SimWords<'_> {
    ghost command = { λ words. sim_command words.verilog.now words.clocks words.image.now words.out.now words.fill words.hold };

    fn perform<D: Desk>(&self, alloc: Global, desk: &mut D) -> Result<(), Ending> {
        let given = read_all(alloc, desk, self.verilog, self.image, self.hold)?;
        let drive = drive_for(self.clocks, self.fill, self.hold);
        let output = pictures(alloc, desk, &given, drive)?;
        write_file(desk, self.out, &output)?;
        Ok(())
    }
}
