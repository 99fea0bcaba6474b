// A trace.

ghost use Rattle.std.specs.Prelude.{◌≡◌, IfOk};
ghost use Rattle.cycle_sim.specs.Slots.{all_widths};
ghost use Rattle.vcd_trace.specs.Told.{room_of};

use crate::clock::{TIME_LINE_BYTES, push_clock, push_time, room_for_lines};
use dk_base::OutOfMemory;
use netlist::{Module, Width};
use std::alloc::{AllocError, Global};
use std::marker::Model;

/// What a trace has shown: the widths of its variables, the time of the next clock, and the values at the clock before it.
#[derive(Debug, Drop)]
pub struct Trace {
    widths: Vec<Width>,
    values: Vec<u64>,
    time: u64,
    room: usize,
}

impl Model for Trace {
    ghost use Rattle.std.specs.Prelude.{◌≡◌, length};
    ghost use Rattle.vcd_trace.specs.Told.{Told, room_of};

    ghost Value = { Told };

    ghost view = { λ t. record { widths = t.widths.items; values = t.values.items; time = t.time } };

    ghost invariant = { λ t. (length t.values.items ≡ length t.widths.items) × (t.room ≡ room_of t.widths.items) };
}

// The widths of all variables.
pub(crate) fn widths_of(alloc: Global, module: &Module) -> Result<Vec<Width>, OutOfMemory>
    ensures { IfOk result (λ ws. ws.items ≡ all_widths «module».now.netlist) }
{
    let wiring = module.wiring();
    let mut widths = Vec::from_slice(alloc, &wiring.inputs)?;
    widths.extend_from_slice(&wiring.outputs)?;
    widths.extend_from_slice(&wiring.wires)?;
    widths.extend_from_slice(&wiring.regs)?;
    Ok(widths)
}

// The greatest length of one clock's text. One that is no length finds no memory.
fn room_for(widths: &[Width]) -> Result<usize, OutOfMemory>
    ensures { IfOk result (λ n. n ≡ room_of widths.now) }
{
    match room_for_lines(widths) {
        None => Err(AllocError),
        Some(lines) => match lines.checked_add(TIME_LINE_BYTES) {
            None => Err(AllocError),
            Some(room) => Ok(room),
        },
    }
}

impl Trace {
    ghost use Rattle.std.specs.Prelude.{◌≡◌, ◌≤◌, ◌<◌, ◌+◌, ◌^◌, ◌++◌, length, IfOk, IsOk, OnOk, OnErr};
    ghost use Rattle.std.specs.Vec.{vec_len, vec_capacity};
    ghost use Rattle.cycle_sim.specs.Slots.{all_widths};
    ghost use Rattle.vcd_trace.specs.Layout.{AreValues};
    ghost use Rattle.vcd_trace.specs.Told.{IsRoomFor, clock_text, end_text, room_of};

    /// A trace of a module's run that has shown nothing yet. The only error is out of memory.
    pub fn new(alloc: Global, module: &Module) -> Result<Trace, OutOfMemory>
        ensures widths { IfOk result (λ t. t.widths ≡ all_widths «module».now.netlist) }
        ensures time { IfOk result (λ t. t.time ≡ 0) }
    {
        let widths = widths_of(alloc, module)?;
        let room = room_for(&widths)?;
        let mut values = Vec::new(alloc);
        values.resize(widths.len(), 0u64)?;
        Ok(Trace {
            widths,
            values,
            time: 0,
            room,
        })
    }

    /// The greatest length of one clock's text, in bytes.
    pub fn room(&self) -> usize
        ensures value { result ≡ room_of self.now.widths }
        ensures enough { IsRoomFor self.now.widths result }
    {
        self.room
    }

    /// Adds the text of one clock, with the values of the variables before its edge: the time, and the variables whose value changed, at time 0 all of them (IEEE Std 1364-2005, 18.2.1). It takes no memory where the vector has as many free bytes as `room` tells. Without memory the trace is as before.
    pub fn change(&mut self, values: &[u64], to: &mut Vec<u8>) -> Result<(), OutOfMemory>
        requires values { AreValues self.old.widths values.now }
        requires time { self.old.time + 1 < 2 ^ 64 }
        ensures text { OnOk result (to.new.items ≡ to.old.items ++ clock_text self.old values.now) }
        ensures next { OnOk result (self.new ≡ record self.old { values = values.now; time = self.old.time + 1 }) }
        ensures room { vec_len to.old + room_of self.old.widths ≤ vec_capacity to.old → IsOk result }
        ensures capacity { vec_capacity to.old ≤ vec_capacity to.new }
        ensures err { OnErr result (self.new ≡ self.old) }
        ensures same { OnErr result (to.new.items ≡ to.old.items) }
    {
        to.try_reserve(self.room)?;
        push_clock(to, self.time, &self.widths, &self.values, values);
        self.values.copy_from_slice(values);
        self.time += 1;
        Ok(())
    }
    /// Adds the last line, the time of the clock that is not specified. It takes no memory where the vector has as many free bytes as `room` tells.
    pub fn end(&self, to: &mut Vec<u8>) -> Result<(), OutOfMemory>
        ensures text { OnOk result (to.new.items ≡ to.old.items ++ end_text self.now) }
        ensures room { vec_len to.old + room_of self.now.widths ≤ vec_capacity to.old → IsOk result }
        ensures same { OnErr result (to.new.items ≡ to.old.items) }
    {
        to.try_reserve(self.room)?;
        push_time(to, self.time);
        Ok(())
    }
}
