// The trace of a run.

ghost use Rattle.std.specs.Prelude.{◌≡◌, ◌^◌, ◌<◌, ◌≤◌, None, Err, IfErr, OnOk, vec_capacity};
ghost use Rattle.dk_base.specs.FrameSizes.{size_of};
ghost use Rattle.dk_desk.specs.Calls.{HasCauseIn};
ghost use Rattle.cycle_sim.specs.Ports.{din_widths};
ghost use Rattle.vcd_trace.specs.Told.{end_text, room_of};
ghost use Rattle.stimulus.specs.Given.{rounds_of, AreBenchFrames};
ghost use Rattle.trace_bench.specs.Traces.{AddsOnly, TracesRun, EndsTrace};
ghost use Rattle.trace_bench.specs.Tracers.{IsTracer};
ghost use Rattle.trace_bench.specs.Going.{WritesText};

use crate::clocking::{clock, pixel_clocks, write};
use crate::ending::TraceEnd;
use crate::tracer::Tracer;
use dk_base::FrameSize;
use dk_desk::{Desk, Failed, OutSlot, Stage};
use netlist::Module;
use pgm_rounds::Round;
use stimulus::Drive;
use vcd_trace::Trace;

// Writes the time after the last clock.
fn write_end<D: Desk>(desk: &mut D, trace: &Trace, text: &mut Vec<u8>) -> Result<(), Failed>
    requires open { (D.outside desk.old).file.stage ≡ Stage.Open }
    requires room { room_of trace.now.widths ≤ vec_capacity text.old }
    ensures { WritesText (end_text trace.now) (D.outside desk.old) (D.outside desk.new) result }
{
    text.clear();
    match trace.end(text) {
        Err(_) => unreachable!(),
        Ok(()) => write(desk, text),
    }
}

/// Drives a module on the rounds of frames of a file, and adds the trace of its run to File, which was created: the header, the text of each clock as soon as it was made, and the time after the last one. Values are those before a clock's edge. There are no held clocks, and no note is specified. It takes no memory, and uses the tracer up.
///
/// Where an index is past its array it answers `Stopped`, and File has the header and the lines of the clocks before. `Write` is a write that failed; File has a front of the trace.
pub fn run_trace<D: Desk>(
    desk: &mut D,
    module: &Module,
    tracer: &mut Tracer,
    drive: Drive,
    size: FrameSize,
    rounds: &[Round],
) -> Result<(), TraceEnd>
    requires open { (D.outside desk.old).file.stage ≡ Stage.Open }
    requires tracer { IsTracer «module».now drive.fill tracer.old }
    requires unheld { drive.hold ≡ None }
    requires clocks { drive.clocks < 2 ^ 60 }
    requires frames { AreBenchFrames (din_widths «module».now.netlist) (size_of size) rounds.now }
    ensures only { AddsOnly (D.outside desk.old) (D.outside desk.new) }
    ensures ok { OnOk result (TracesRun «module».now drive (rounds_of rounds.now)
        (D.outside desk.old) (D.outside desk.new)) }
    ensures end { IfErr result (λ e. EndsTrace «module».now drive (rounds_of rounds.now) e
        (D.outside desk.old) (D.outside desk.new)) }
    ensures cause { HasCauseIn (result ≡ Err TraceEnd.Write) (D.outside desk.old).output_failures
        (D.outside desk.new).output_failures }
{
    // Only the clauses speak of the module: the tracer has its own.
    let _module = module;
    match write(desk, &tracer.header) {
        Err(_) => return Err(TraceEnd::Write),
        Ok(()) => {}
    }
    match clock(desk, tracer, true) {
        Err(end) => return Err(end),
        Ok(()) => {}
    }
    match pixel_clocks(desk, tracer, rounds, size.area() as usize, drive.clocks) {
        Err(end) => return Err(end),
        Ok(()) => {}
    }
    match write_end(desk, &tracer.trace, &mut tracer.text) {
        Err(_) => Err(TraceEnd::Write),
        Ok(()) => Ok(()),
    }
}
