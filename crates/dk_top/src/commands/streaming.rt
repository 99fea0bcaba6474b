//! `run` of a program with one input and one output: its images are read, clocked and written line by line.

ghost use Rattle.std.specs.Prelude.{◌≡◌, ◌≤◌};
ghost use Rattle.dk_base.specs.declared.TheConstants.{MAX_LATENCY};
ghost use Rattle.dk_compile.specs.Fronts.{IsForm};
ghost use Rattle.dk_types.specs.Typed.{Typing};
ghost use Rattle.row_stream.specs.Whole.{IsStart};
ghost use Rattle.dk_top.specs.Streaming.{IsOnePort};
ghost use Rattle.dk_top.specs.Streams.{AwaitsImages, IsMachine, RunsMachine, StreamsImages};
ghost use Rattle.dk_top.specs.Performing.{OfEnding};

use crate::commands::running::Machine;
use crate::laws::notes_agree_law;
use dk_compile::{drive_shows_law, one_at_age_law, one_source_law};
use dk_desk::{Desk, InSlot};
use dk_endings::{Ending, ImageFault};
use pgm_rounds::one_file_law;
use row_stream::{Stream, StreamFault, din_bits, dout_bits, format_of, streams_most};
use std::alloc::Global;

// Opens the images and streams them.
fn stream_file<D: Desk>(
    desk: &mut D,
    stream: &mut Stream,
    latency: u64,
    image: &str,
    out: &str,
) -> Result<(), Ending>
    requires awaits { AwaitsImages (D.outside desk.old) }
    requires latency { latency ≤ MAX_LATENCY }
    requires start { IsStart stream.old }
    ensures { OfEnding result (λ e. StreamsImages stream.old latency image.now out.now e
        (D.outside desk.old) (D.outside desk.new)) }
{
    let Ok(()) = desk.open_in(InSlot::Image, image) else {
        return Err(Ending::ReadFault);
    };
    match stream.run(desk, latency, out) {
        Ok(()) => Ok(()),
        Err(StreamFault::Image(fault)) => Err(Ending::Image(ImageFault::File(fault))),
        Err(StreamFault::Read) => Err(Ending::ReadFault),
        Err(StreamFault::Write) => Err(Ending::WriteFault),
    }
}

// Clocks the module of a program with one input and one output on the images, and writes each line as soon as it is whole.
// All memory is allocated before the images are opened.
pub fn run_streamed<D: Desk>(
    alloc: Global,
    desk: &mut D,
    machine: &Machine,
    image: &str,
    out: &str,
) -> Result<(), Ending>
    requires machine { IsMachine machine.now }
    requires one { (p : Typing) → IsForm p machine.now.compiled.ir → IsOnePort p }
    requires awaits { AwaitsImages (D.outside desk.old) }
    ensures { OfEnding result (λ e. RunsMachine machine.now image.now out.now e (D.outside desk.old)
        (D.outside desk.new)) }
{
    one_source_law();
    one_at_age_law();
    one_file_law();
    drive_shows_law();
    streams_most();
    notes_agree_law();
    machine.compiled.ir.law();
    machine.compiled.plan.law();
    let format = format_of(machine.compiled.ir.size(), dout_bits(&machine.module));
    let bits = din_bits(&machine.module);
    let Ok(mut stream) = Stream::new(alloc, &machine.module, format, bits) else {
        return Err(Ending::Memory);
    };
    let latency = machine.compiled.plan.latency();
    stream_file(desk, &mut stream, latency, image, out)
}
