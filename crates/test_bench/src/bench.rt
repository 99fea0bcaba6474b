// The run of a module on a test bench.

ghost use Rattle.std.specs.Prelude.{◌≡◌, ℕ, ◌+◌, ◌*◌, ◌^◌, ◌<◌, ◌≤◌, ◌++◌, List, length, Bool, IfOk, IfErr, OnOk, IfSome, Some};
ghost use Rattle.std.specs.Option.{option_map};
ghost use Rattle.dk_base.specs.Frames.{area as area_of};
ghost use Rattle.dk_base.specs.FrameSizes.{size_of};
ghost use Rattle.dk_desk.specs.Calls.{IsIfTold};
ghost use Rattle.dk_base.specs.declared.TheConstants.{MAX_FILE_IMAGES};
ghost use Rattle.pgm_codec.specs.Images.{file_of};
ghost use Rattle.cycle_sim.specs.Ports.{din_widths};
ghost use Rattle.stimulus.specs.Given.{rounds_of, AreBenchFrames};
ghost use Rattle.stimulus.specs.Showing.{IsShown, IsNoted};
ghost use Rattle.stimulus.specs.Stops.{IsBenchEnd};
ghost use Rattle.test_bench.specs.Clocking.{ArePlain, IsSetUp};
ghost use Rattle.test_bench.specs.Writing.{HasEnough, rounds_kept};
ghost use Rattle.test_bench.specs.Filling.{AreFilled, IsShort};

use crate::batch::Batch;
use crate::clocking::{Bench, Feed, all_clocks};
use crate::picture::Shown;
use crate::writing::{area, first_short, write_rounds};
use batch_sim::Batches;
use cycle_sim::{Fill, Out, dins_of};
use dk_base::{FrameSize, OutOfMemory};
use dk_desk::Desk;
use netlist::{Module, Width};
use pgm_rounds::Round;
use std::alloc::Global;
use stimulus::{BenchFault, Drive, Stop, greatest_of, zeros};

// `count` outputs that show nothing.
fn no_outs(alloc: Global, count: usize) -> Result<Vec<Out>, OutOfMemory>
    ensures { IfOk result (λ outs. length outs.items ≡ count) }
{
    let out = Out {
        valid: false,
        dout: 0,
    };
    let outs = vec![in alloc; out; count]?;
    Ok(outs)
}

// `count` pictures without samples, with room for `most` samples each.
fn no_pictures(alloc: Global, count: usize, most: usize) -> Result<Vec<Shown>, OutOfMemory>
    ensures { IfOk result (λ pictures. ArePlain most count pictures.items) }
{
    let mut pictures = Vec::with_capacity(alloc, count)?;
    for _ in 0..count {
        let shown = Shown::new(alloc, most)?;
        pictures.push(shown)?;
    }
    Ok(pictures)
}

/// A bench with this module, before the first clock, which keeps the first `most` samples of each picture.
pub fn set_up(alloc: Global, module: &Module, fill: Fill, most: usize) -> Result<Bench, OutOfMemory>
    ensures { IfOk result (IsSetUp «module».now.netlist fill most) }
{
    let _wiring = module.wiring();
    let _order = module.order();
    let sim = Batches::new(alloc, module, fill)?;
    let count = sim.outputs();
    let outs = no_outs(alloc, count)?;
    let batch = Batch::new(alloc, dins_of(module).len(), count)?;
    let pictures = no_pictures(alloc, count, most)?;
    Ok(Bench {
        sim,
        outs,
        batch,
        pictures,
        most,
        made: 0,
    })
}

// The file of the pictures, or the first output that has not shown the required samples.
fn finish(
    alloc: Global,
    ports: &[Width],
    size: FrameSize,
    rounds: usize,
    pictures: &[Shown],
) -> Result<Vec<u8>, BenchFault>
    requires rounds { rounds ≤ MAX_FILE_IMAGES }
    requires filled { AreFilled (size_of size) ports.now rounds pictures.now }
    ensures file { IfOk result
        (λ file. ((k : ℕ) → HasEnough pictures.now (rounds * area_of (size_of size)) k)
        × (file.items ≡ file_of (rounds_kept (size_of size) ports.now pictures.now rounds))) }
    ensures short { IfErr result (IsShort pictures.now (rounds * area_of (size_of size))) }
{
    let wanted = (rounds * area(size)) as u64;
    match first_short(pictures, wanted) {
        Some(shown) => Err(BenchFault::Stopped(Stop::Count { shown, wanted })),
        None => {
            let file = write_rounds(alloc, size, ports, pictures, rounds)?;
            Ok(file)
        }
    }
}

/// Runs a module on the images of a file, and returns the file of the pictures that it shows. For each round it has one image for each output in order, of the size of the file's images, with the greatest value of the output's dout as maxval. Each clock is noted on the desk, one pair of valid and dout for each output in order. It answers Stopped if an index is past its array, or if an output has not shown the required samples.
pub fn run_bench<D: Desk>(
    alloc: Global,
    desk: &mut D,
    module: &Module,
    drive: Drive,
    size: FrameSize,
    rounds: &[Round],
) -> Result<Vec<u8>, BenchFault>
    requires hold { IfSome drive.hold (λ count. 0 < count) }
    requires clocks { drive.clocks < 2 ^ 60 }
    requires frames { AreBenchFrames (din_widths «module».now.netlist) (size_of size) rounds.now }
    ensures only { D.outside desk.new ≡ record
        (D.outside desk.old) { notes = (D.outside desk.new).notes } }
    ensures file { IfOk result (λ file.
        IsShown «module».now.netlist drive (size_of size) (rounds_of rounds.now) file.items) }
    ensures notes { OnOk result
        ((notes : List (Bool × ℕ)) × IsNoted «module».now.netlist drive (rounds_of rounds.now) notes
        × IsIfTold (D.outside desk.new).notes
        (option_map (λ before. before ++ notes) (D.outside desk.old).notes)) }
    ensures stop { IfErr result
        (λ f. IsBenchEnd «module».now.netlist drive (size_of size) (rounds_of rounds.now) f) }
{
    let wiring = module.wiring();
    let widths = dins_of(module);
    let pixels = area(size);
    let mut bench = set_up(alloc, module, drive.fill, rounds.len() * pixels)?;
    let dins = zeros(alloc, widths.len())?;
    let held = greatest_of(alloc, widths)?;
    let feed = Feed {
        area: pixels,
        hold: drive.hold,
        held,
    };
    match all_clocks(desk, &mut bench, &feed, rounds, drive.clocks, &dins) {
        Err(stop) => return Err(BenchFault::Stopped(stop)),
        Ok(()) => {}
    }
    let file = finish(alloc, &wiring.outputs, size, rounds.len(), &bench.pictures)?;
    Ok(file)
}
