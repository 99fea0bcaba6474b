//! `trace`: the run of a module on the images of a file is written as it is made, clock after clock.

ghost use Rattle.std.specs.Prelude.{◌≡◌, None, Some};
ghost use Rattle.dk_desk.specs.Calls.{IsIfTold};
ghost use Rattle.trace_bench.specs.Tracers.{IsTracer};
ghost use Rattle.dk_top.specs.Command.{trace as trace_command};
ghost use Rattle.dk_top.specs.Simulating.{CanDrive, LeavesTrace};
ghost use Rattle.dk_top.specs.Performing.{OfEnding};

use crate::commands::simulating::{SimInput, drive_for, read_all};
use crate::work::Work;
use dk_desk::{Desk, Stage};
use dk_endings::Ending;
use dk_words::{PowerUp, TraceWords};
use std::alloc::Global;
use stimulus::Drive;
use trace_bench::{TraceEnd, Tracer, run_trace};

// Creates the file, and writes the trace of the run to it.
fn write_trace<D: Desk>(
    desk: &mut D,
    given: &SimInput,
    tracer: &mut Tracer,
    drive: Drive,
    name: &str,
) -> Result<(), Ending>
    requires fresh { (D.outside desk.old).file.stage ≡ Stage.Unasked }
    requires tracer { IsTracer given.now.«module» drive.fill tracer.old }
    requires unheld { drive.hold ≡ None }
    requires driven { CanDrive drive given.now }
    ensures leaves { OfEnding result (λ e. LeavesTrace drive given.now name.now e
        (D.outside desk.old) (D.outside desk.new)) }
    ensures name { IsIfTold (D.outside desk.new).file.name (Some name.now) }
{
    given.module.law();
    let Ok(()) = desk.create(name) else {
        return Err(Ending::WriteFault);
    };
    let input = &given.input;
    match run_trace(
        desk,
        &given.module,
        tracer,
        drive,
        input.size,
        &input.rounds,
    ) {
        Ok(()) => Ok(()),
        Err(TraceEnd::Stopped(stop)) => Err(Ending::Stopped(stop)),
        Err(TraceEnd::Write) => Err(Ending::WriteFault),
    }
}

// Allocates the memory of the trace, and then creates and writes the file.
fn traced<D: Desk>(
    alloc: Global,
    desk: &mut D,
    given: &SimInput,
    drive: Drive,
    name: &str,
) -> Result<(), Ending>
    requires fresh { (D.outside desk.old).file.stage ≡ Stage.Unasked }
    requires unheld { drive.hold ≡ None }
    requires driven { CanDrive drive given.now }
    ensures { OfEnding result (λ e. LeavesTrace drive given.now name.now e (D.outside desk.old)
        (D.outside desk.new)) }
{
    match Tracer::new(alloc, &given.module, drive.fill) {
        Ok(mut tracer) => write_trace(desk, given, &mut tracer, drive, name),
        Err(_) => Err(Ending::Memory),
    }
}

/// Drives the module of a Verilog text with the images of a file, and writes the trace of its run.
impl Work for TraceWords<'_> {
    ghost command = { λ words. trace_command words.verilog.now words.clocks words.image.now words.vcd.now };

    fn perform<D: Desk>(&self, alloc: Global, desk: &mut D) -> Result<(), Ending> {
        let given = read_all(alloc, desk, self.verilog, self.image, None)?;
        let drive = drive_for(self.clocks, PowerUp::Zeros, None);
        traced(alloc, desk, &given, drive, self.vcd)
    }
}
