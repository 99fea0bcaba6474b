// What a trace needs.

ghost use Rattle.std.specs.Prelude.{◌≡◌, ◌≤◌, length, IfOk, vec_capacity};
ghost use Rattle.cycle_sim.specs.Slots.{all_widths};
ghost use Rattle.trace_bench.specs.Tracers.{IsTracer};

use cycle_sim::{Fill, Sim, dins_of};
use dk_base::OutOfMemory;
use netlist::Module;
use std::alloc::Global;
use stimulus::zeros;
use vcd_trace::{Trace, header};

/// A module that is traced, with all the memory that this takes. `IsTracer` and `IsTracing` say what its fields keep.
#[derive(Drop)]
pub struct Tracer {
    // The module, after the latest clock.
    pub(crate) sim: Sim,
    // The trace of the clocks so far.
    pub(crate) trace: Trace,
    // The lines before the first clock.
    pub(crate) header: Vec<u8>,
    // The value of each variable before the edge of the latest clock.
    pub(crate) values: Vec<u64>,
    // Room for the text of a clock.
    pub(crate) text: Vec<u8>,
    // What the dins are given in the next clock.
    pub(crate) dins: Vec<u64>,
    // The number of clocks so far.
    pub(crate) made: u64,
}

impl Tracer {
    /// A tracer of a module with these contents at power-up, before the reset clock.
    pub fn new(alloc: Global, module: &Module, fill: Fill) -> Result<Tracer, OutOfMemory>
        ensures { IfOk result (IsTracer «module».now fill) }
    {
        let _wiring = module.wiring();
        let _order = module.order();
        let sim = Sim::new(alloc, module, fill)?;
        let trace = Trace::new(alloc, module)?;
        let header = header(alloc, module)?;
        let values = zeros(alloc, sim.variables())?;
        let text = Vec::with_capacity(alloc, trace.room())?;
        let dins = zeros(alloc, dins_of(module).len())?;
        Ok(Tracer {
            sim,
            trace,
            header,
            values,
            text,
            dins,
            made: 0,
        })
    }
}
