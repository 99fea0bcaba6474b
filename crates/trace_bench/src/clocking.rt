// The clocks of a trace.

ghost use Rattle.std.specs.Prelude.{◌≡◌, ◌+◌, ◌^◌, ◌<◌, ◌≤◌, [], ◌∷◌, pos, ◌-ℤ◌, None, Err, true, length, IfErr, OnOk, vec_capacity};
ghost use Rattle.wiring.specs.Snapshot.{Snapshot, Fit};
ghost use Rattle.cycle_sim.specs.Slots.{all_values, all_widths};
ghost use Rattle.cycle_sim.specs.Ports.{din_widths};
ghost use Rattle.cycle_sim.specs.Simulated.{GoesOn, StopsIn as StopsMachine, clock as clock_of};
ghost use Rattle.vcd_trace.specs.Layout.{AreValues};
ghost use Rattle.vcd_trace.specs.Told.{clock_text, room_of};
ghost use Rattle.stimulus.specs.Stimulus.{clocks_at};
ghost use Rattle.stimulus.specs.Given.{rounds_of};
ghost use Rattle.trace_bench.specs.Going.{pixel_clocks as pixel_clocks_of, told_more, CanTrace, HavePixels, Traces, WritesText};

use crate::ending::TraceEnd;
use crate::tracer::Tracer;
use cycle_sim::{IndexRange, Sim};
use dk_desk::transfer::write_all;
use dk_desk::{Desk, Failed, OutSlot, Stage};
use pgm_rounds::Round;
use stimulus::{Stop, fill_dins};
use vcd_trace::Trace;

// One clock of the simulator, and the values before its edge.
fn step(sim: &mut Sim, reset: bool, dins: &[u64], values: &mut Vec<u64>) -> Result<(), IndexRange>
    requires dins { Fit (din_widths sim.old.netlist) dins.now }
    requires values { length values.old.items ≡ length (all_widths sim.old.netlist) }
    ensures netlist { sim.new.netlist ≡ sim.old.netlist }
    ensures count { length values.new.items ≡ length values.old.items }
    ensures ok { OnOk result ((s : Snapshot) × GoesOn sim.old (clock_of reset true dins.now) s
        sim.new × (values.new.items ≡ all_values s)) }
    ensures stops { IfErr result
        (λ r. StopsMachine sim.old (clock_of reset true dins.now) r.array r.index) }
{
    sim.step_seen(reset, true, dins, values)
}

// Makes the text of a clock with these values, for which there is room.
fn tell(trace: &mut Trace, values: &[u64], text: &mut Vec<u8>)
    requires values { AreValues trace.old.widths values.now }
    requires time { trace.old.time + 1 < 2 ^ 64 }
    requires room { room_of trace.old.widths ≤ vec_capacity text.old }
    ensures next { trace.new ≡ told_more trace.old values.now }
    ensures text { text.new.items ≡ clock_text trace.old values.now }
    ensures room { room_of trace.old.widths ≤ vec_capacity text.new }
{
    text.clear();
    match trace.change(values, text) {
        Err(_) => unreachable!(),
        Ok(()) => {}
    }
}

// Adds bytes to File.
pub(crate) fn write<D: Desk>(desk: &mut D, bytes: &[u8]) -> Result<(), Failed>
    requires { (D.outside desk.old).file.stage ≡ Stage.Open }
    ensures { WritesText bytes.now (D.outside desk.old) (D.outside desk.new) result }
{
    write_all(desk, OutSlot::File, bytes)
}

// The number of the clock that comes after this many, the reset clock being -1.
fn clock_number(made: u64) -> i64
    requires { made < 2 ^ 62 }
    ensures { result ≡ pos made -ℤ pos 1 }
{
    made as i64 - 1
}

// One clock, whose text is written.
pub(crate) fn clock<D: Desk>(desk: &mut D, tracer: &mut Tracer, reset: bool) -> Result<(), TraceEnd>
    requires can { CanTrace tracer.old (D.outside desk.old) }
    requires dins { Fit (din_widths tracer.old.sim.netlist) tracer.old.dins.items }
    requires few { tracer.old.made < 2 ^ 62 }
    ensures traces { Traces (clock_of reset true tracer.old.dins.items ∷ []) tracer.old tracer.new
        (D.outside desk.old) (D.outside desk.new) result }
    ensures made { OnOk result (tracer.new.made ≡ tracer.old.made + 1) }
{
    tracer.sim.law();
    netlist::values_fit_law();
    match step(&mut tracer.sim, reset, &tracer.dins, &mut tracer.values) {
        Err(range) => Err(TraceEnd::Stopped(Stop::Index {
            clock: clock_number(tracer.made),
            array: range.array,
            index: range.index,
        })),
        Ok(()) => {
            tell(&mut tracer.trace, &tracer.values, &mut tracer.text);
            tracer.made += 1;
            match write(desk, &tracer.text) {
                Err(_) => Err(TraceEnd::Write),
                Ok(()) => Ok(()),
            }
        }
    }
}

// The clock of this number, counted from 0, in which each din has its pixel of that number. A frame has `area` pixels.
fn pixel_clock<D: Desk>(
    desk: &mut D,
    tracer: &mut Tracer,
    rounds: &[Round],
    area: usize,
    number: u64,
) -> Result<(), TraceEnd>
    requires can { CanTrace tracer.old (D.outside desk.old) }
    requires few { tracer.old.made < 2 ^ 62 }
    requires pixels { HavePixels (din_widths tracer.old.sim.netlist) rounds.now area }
    ensures traces { Traces (clocks_at None (din_widths tracer.old.sim.netlist) (rounds_of
        rounds.now) number) tracer.old tracer.new (D.outside desk.old) (D.outside desk.new) result }
    ensures made { OnOk result (tracer.new.made ≡ tracer.old.made + 1) }
{
    fill_dins(rounds, area, number, &mut tracer.dins);
    clock(desk, tracer, false)
}

// This many clocks with the pixels.
pub(crate) fn pixel_clocks<D: Desk>(
    desk: &mut D,
    tracer: &mut Tracer,
    rounds: &[Round],
    area: usize,
    clocks: u64,
) -> Result<(), TraceEnd>
    requires can { CanTrace tracer.old (D.outside desk.old) }
    requires made { tracer.old.made ≤ 1 }
    requires clocks { clocks < 2 ^ 60 }
    requires pixels { HavePixels (din_widths tracer.old.sim.netlist) rounds.now area }
    ensures { Traces (pixel_clocks_of tracer.old rounds.now clocks) tracer.old tracer.new
        (D.outside desk.old) (D.outside desk.new) result }
{
    for number in 0..clocks {
        match pixel_clock(desk, tracer, rounds, area, number) {
            Err(end) => return Err(end),
            Ok(()) => {}
        }
    }
    Ok(())
}
