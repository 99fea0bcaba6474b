// The clocks of a test bench.

ghost use Rattle.std.specs.Prelude.{◌≡◌, ◌+◌, ◌*◌, ◌^◌, ◌<◌, ◌≤◌, ◌++◌, [], ◌∷◌, List, length, IfErr, OnOk, pos, ◌-ℤ◌};
ghost use Rattle.wiring.specs.Snapshot.{Snapshot, Fit};
ghost use Rattle.test_bench.specs.declared.batch.TheConstants.{BATCH_PIXELS};
ghost use Rattle.test_bench.specs.BatchClocks.{AddsShown, ArePictures, AreShownIn, DoutsAreSmall, HasClocks, clocks_of, pairs_of};
ghost use Rattle.cycle_sim.specs.Ports.{din_widths, AreShown};
ghost use Rattle.cycle_sim.specs.Simulated.{GoesOn, StopsIn as StopsMachine, clock as clock_of};
ghost use Rattle.stimulus.specs.Stimulus.{reset_clock};
ghost use Rattle.test_bench.specs.Clocking.{whole_drive, AreKept, CanDrive, Drives, DrivesPixels, GoOn, HaveRoomFor, IsBench, OnlyNotes};

use crate::batch::{BATCH_PIXELS, Batch, fill_batch};
use crate::picture::Shown;
use batch_sim::Batches;
use cycle_sim::{IndexRange, Out};
use dk_desk::Desk;
use pgm_rounds::Round;
use stimulus::Stop;

/// A module on a test bench. `IsBench` is the invariant of its fields.
#[derive(Drop)]
pub struct Bench {
    /// The module, after the latest clock.
    pub sim: Batches,
    /// Room for what each output shows in a clock.
    pub outs: Vec<Out>,
    // Room for a batch of clocks.
    pub(crate) batch: Batch,
    /// The picture of each output so far.
    pub pictures: Vec<Shown>,
    /// How many samples of each picture are kept.
    pub most: usize,
    /// The number of clocks so far: the reset clock, and all others, held ones too.
    pub made: u64,
}

/// How the rounds go in.
#[derive(Drop)]
pub struct Feed {
    /// The number of pixels of a frame.
    pub area: usize,
    /// The number of clocks after which a held clock follows each time. None if there are no held clocks.
    pub hold: Option<u32>,
    /// What the dins have in a held clock.
    pub held: Vec<u64>,
}

// One clock of the simulator.
fn step(
    sim: &mut Batches,
    reset: bool,
    enable: bool,
    dins: &[u64],
    outs: &mut Vec<Out>,
) -> Result<(), IndexRange>
    requires dins { Fit (din_widths sim.old.netlist) dins.now }
    requires outs { length sim.old.netlist.outputs ≡ 2 * length outs.old.items }
    ensures netlist { sim.new.netlist ≡ sim.old.netlist }
    ensures count { length outs.new.items ≡ length outs.old.items }
    ensures ok { OnOk result ((s : Snapshot)
        × GoesOn sim.old (clock_of reset enable dins.now) s sim.new × AreShown s outs.new.items) }
    ensures stops { IfErr result
        (λ r. StopsMachine sim.old (clock_of reset enable dins.now) r.array r.index) }
{
    sim.step_all(reset, enable, dins, outs)
}

// Notes the pair of each output at the desk, clock for clock.
fn tell<D: Desk>(desk: &mut D, outs: &[Out])
    ensures only { OnlyNotes (D.outside desk.old) (D.outside desk.new) }
    ensures notes { GoOn (D.outside desk.old).notes (pairs_of outs.now) (D.outside desk.new).notes }
{
    for out in outs {
        desk.note(out.valid, out.dout);
    }
}

// Adds what each output shows to its picture.
fn show(pictures: &mut Vec<Shown>, most: usize, outs: &[Out])
    requires pictures { ArePictures most (length outs.now) pictures.old.items }
    requires douts { DoutsAreSmall outs.now }
    ensures pictures { ArePictures most (length outs.now) pictures.new.items }
    ensures kept { AddsShown most pictures.old.items pictures.new.items outs.now }
{
    for k in 0..outs.len() {
        pictures[k].add(most, outs[k]);
    }
}

/// One clock. After it each output has one sample more in its picture, if its valid is 1, and the pair of valid and dout of each output is noted on the desk, in their order. It stops if an index is past its array.
pub fn clock<D: Desk>(
    desk: &mut D,
    bench: &mut Bench,
    reset: bool,
    enable: bool,
    dins: &[u64],
) -> Result<(), Stop>
    requires bench { IsBench bench.old }
    requires dins { Fit (din_widths bench.old.sim.netlist) dins.now }
    requires few { bench.old.made < 2 ^ 62 }
    ensures { Drives (clock_of reset enable dins.now ∷ []) bench.old bench.new
        (D.outside desk.old) (D.outside desk.new) result }
{
    bench.sim.law();
    netlist::values_fit_law();
    match step(&mut bench.sim, reset, enable, dins, &mut bench.outs) {
        Err(range) => Err(Stop::Index {
            clock: bench.made as i64 - 1,
            array: range.array,
            index: range.index,
        }),
        Ok(()) => {
            tell(desk, &bench.outs);
            show(&mut bench.pictures, bench.most, &bench.outs);
            bench.made += 1;
            Ok(())
        }
    }
}

// Adds what each output shows in each of these clocks to its picture. The outputs of a clock follow those of the clock before.
fn show_all(pictures: &mut Vec<Shown>, most: usize, outs: &[Out], count: usize)
    requires places { length outs.now ≡ count * length pictures.old.items }
    requires room { HaveRoomFor most pictures.old.items }
    requires douts { DoutsAreSmall outs.now }
    ensures pictures { ArePictures most (length pictures.old.items) pictures.new.items }
    ensures kept { (shots all : List Snapshot) → length shots ≡ count
        → AreShownIn (length pictures.old.items) shots outs.now
        → AreKept most all pictures.old.items → AreKept most (all ++ shots) pictures.new.items }
{
    let ports = pictures.len();
    for number in 0..count {
        let out = &outs[number * ports..(number + 1) * ports];
        show(pictures, most, out);
    }
}

// The stop in the clock after these.
fn stopped(made: u64, range: IndexRange) -> Stop
    requires { made < 2 ^ 63 }
    ensures { result ≡ Stop.Index (pos made -ℤ pos 1) range.array range.index }
{
    Stop::Index {
        clock: made as i64 - 1,
        array: range.array,
        index: range.index,
    }
}

// The clocks of the bench's batch in one call. Then each clock is noted, and what each output shows in it is added to its picture. At a stop
// the clocks before it are noted, and the pictures are those before the batch.
fn clock_batch<D: Desk>(desk: &mut D, bench: &mut Bench) -> Result<(), Stop>
    requires bench { IsBench bench.old }
    requires clocks { HasClocks bench.old.sim.netlist bench.old.batch }
    requires few { bench.old.made < 2 ^ 62 }
    ensures { Drives (clocks_of bench.old.sim.netlist bench.old.batch) bench.old bench.new
        (D.outside desk.old) (D.outside desk.new) result }
{
    bench.sim.law();
    netlist::values_fit_law();
    let count = bench.batch.enables.len();
    let ports = bench.pictures.len();
    match bench.batch.step(&mut bench.sim, ports) {
        Err(stop) => {
            tell(desk, bench.batch.shown(stop.done, ports));
            Err(stopped(bench.made + stop.done as u64, stop.range))
        }
        Ok(()) => {
            let outs = bench.batch.shown(count, ports);
            tell(desk, outs);
            show_all(&mut bench.pictures, bench.most, outs, count);
            bench.made += count as u64;
            Ok(())
        }
    }
}

// `count` clocks from this one on, in one call, with the held ones between them.
fn some_pixel_clocks<D: Desk>(
    desk: &mut D,
    bench: &mut Bench,
    feed: &Feed,
    rounds: &[Round],
    start: u64,
    count: u64,
) -> Result<(), Stop>
    requires drive { CanDrive bench.old feed.now rounds.now }
    requires few { bench.old.made < 2 ^ 62 }
    requires start { start < 2 ^ 60 }
    requires count { count ≤ BATCH_PIXELS }
    ensures { DrivesPixels feed.now rounds.now start count bench.old bench.new
        (D.outside desk.old) (D.outside desk.new) result }
{
    fill_batch(&mut bench.batch, feed, rounds, start, count);
    clock_batch(desk, bench)
}

// Whole batches of pixels, with the held clocks between them.
fn whole_batches<D: Desk>(
    desk: &mut D,
    bench: &mut Bench,
    feed: &Feed,
    rounds: &[Round],
    batches: u64,
) -> Result<(), Stop>
    requires drive { CanDrive bench.old feed.now rounds.now }
    requires made { bench.old.made ≤ 1 }
    requires batches { batches * BATCH_PIXELS < 2 ^ 60 }
    ensures { DrivesPixels feed.now rounds.now 0 (batches * BATCH_PIXELS) bench.old bench.new
        (D.outside desk.old) (D.outside desk.new) result }
{
    for batch in 0..batches {
        some_pixel_clocks(
            desk,
            bench,
            feed,
            rounds,
            batch * BATCH_PIXELS,
            BATCH_PIXELS,
        )?;
    }
    Ok(())
}

// Clocks with pixels, with the held ones between them.
fn all_pixel_clocks<D: Desk>(
    desk: &mut D,
    bench: &mut Bench,
    feed: &Feed,
    rounds: &[Round],
    clocks: u64,
) -> Result<(), Stop>
    requires drive { CanDrive bench.old feed.now rounds.now }
    requires made { bench.old.made ≤ 1 }
    requires clocks { clocks < 2 ^ 60 }
    ensures { DrivesPixels feed.now rounds.now 0 clocks bench.old bench.new
        (D.outside desk.old) (D.outside desk.new) result }
{
    let batches = clocks / BATCH_PIXELS;
    whole_batches(desk, bench, feed, rounds, batches)?;
    let start = batches * BATCH_PIXELS;
    some_pixel_clocks(desk, bench, feed, rounds, start, clocks % BATCH_PIXELS)?;
    Ok(())
}

/// All clocks of a drive: the reset clock, in which each din is 0, and then the clocks with the pixels, with the held ones between them.
pub fn all_clocks<D: Desk>(
    desk: &mut D,
    bench: &mut Bench,
    feed: &Feed,
    rounds: &[Round],
    clocks: u64,
    dins: &[u64],
) -> Result<(), Stop>
    requires drive { CanDrive bench.old feed.now rounds.now }
    requires dins { dins.now ≡ (reset_clock (length (din_widths bench.old.sim.netlist))).dins }
    requires made { bench.old.made ≡ 0 }
    requires clocks { clocks < 2 ^ 60 }
    ensures few { OnOk result (bench.new.made < 2 ^ 62) }
    ensures drives { Drives (whole_drive bench.old.sim.netlist feed.now rounds.now clocks)
        bench.old bench.new (D.outside desk.old) (D.outside desk.new) result }
{
    clock(desk, bench, true, true, dins)?;
    all_pixel_clocks(desk, bench, feed, rounds, clocks)?;
    Ok(())
}
