// Rows for a module.

ghost use Rattle.std.specs.Prelude.{◌≡◌, ◌<◌, ◌≤◌, replicate, IfOk, IfSome};
ghost use Rattle.wiring.specs.Netlist.{netlist_of};
ghost use Rattle.lane_rows.specs.Values.{items_of};
ghost use Rattle.batch_code.specs.Code.{IsBatchCode};
ghost use Rattle.batch_guess.specs.Engine.{IsEngine};
ghost use Rattle.batch_sim.specs.Called.{din_count};
ghost use Rattle.batch_sim.specs.Engine.{IsEngineOf, AreRowsOf};

use crate::judge::arrays::{ArrayRoom, PassRoom};
use crate::pieces::{LEAST, MOST_CLOCKS};
use crate::rows::Rows;
use batch_code::batch_code_of;
use batch_guess::{Engine, RowGuess};
use batch_plan::{BatchPlan, make_plan};
use batch_rows::BatchCode;
use dk_base::OutOfMemory;
use netlist::{Module, Netlist};
use std::alloc::{AllocError, Global};

// The most words that rows take.
const MOST_WORDS: usize = 8 * 1024 * 1024;

// How many numbers the loops over rows take at a time.
const VECTOR: usize = 8;

// This many rows of zeros.
#[tactic(auto, using(batch_guess::proofs::Made::rows_more))]
fn zero_rows(alloc: Global, slots: usize, long: usize) -> Result<Vec<Vec<u64>>, AllocError>
    ensures { IfOk result (λ v. items_of v.items ≡ replicate slots (replicate long 0)) }
{
    let mut rows = Vec::new(alloc);
    for _slot in 0..slots {
        rows.push(vec![in alloc; 0; long]?)?;
    }
    Ok(rows)
}

// Room for this many clocks.
fn room_of(alloc: Global, size: usize) -> Result<PassRoom, AllocError> {
    let read = vec![in alloc; 0; size]?;
    let index = vec![in alloc; 0; size]?;
    let value = vec![in alloc; 0; size]?;
    let target = vec![in alloc; 0; size]?;
    let spares = ArrayRoom {
        read,
        index,
        value,
        target,
    };
    let to = vec![in alloc; 0; size]?;
    Ok(PassRoom { spares, to })
}

// The most clocks of a piece for which rows of this many slots and arrays have room: 0 where there is none.
fn room_for(slots: usize) -> usize {
    let most = MOST_WORDS / slots.saturating_add(1);
    if most > MOST_CLOCKS {
        MOST_CLOCKS
    } else if most > MOST_CLOCKS / 2 {
        MOST_CLOCKS / 2
    } else {
        0
    }
}

// The most clocks of a piece that are at most those of a plan and have room. A row, which has one place more, is then a whole
// number of vectors.
fn size_of(planned: usize, slots: usize) -> usize
    ensures { result ≤ 1024 }
{
    let most = planned.min(room_for(slots)).min(MOST_CLOCKS);
    most.saturating_sub((most + 1) % VECTOR)
}

// The rows of an engine.
fn rows_of_engine(
    alloc: Global,
    engine: Engine,
    wiring: &Netlist,
    size: usize,
) -> Result<Rows, AllocError>
    requires some { 1 ≤ size }
    requires size { size ≤ 1024 }
    requires run { IsEngine engine }
    requires engine { IsEngineOf (netlist_of wiring.now) engine }
    ensures { IfOk result (AreRowsOf (netlist_of wiring.now)) }
{
    let guess = RowGuess::new(alloc, engine, wiring, size + 1)?;
    let room = room_of(alloc, size)?;
    let lost = zero_rows(alloc, wiring.arrays.len(), size)?;
    Ok(Rows {
        guess,
        room,
        lost,
        size,
    })
}

// The engine of a code and its plan.
fn engine_of(
    alloc: Global,
    code: BatchCode,
    plan: BatchPlan,
    wiring: &Netlist,
    ports: usize,
) -> Result<Engine, AllocError>
    requires code { IsBatchCode (netlist_of wiring.now) code }
    requires ports { ports ≡ din_count (netlist_of wiring.now) }
    ensures run { IfOk result IsEngine }
    ensures engine { IfOk result (IsEngineOf (netlist_of wiring.now)) }
{
    let engine = Engine::new(alloc, code, plan, wiring, ports)?;
    Ok(engine)
}

// Rows for a module, if there is a plan for it that does not need too much room.
pub fn rows_of(alloc: Global, module: &Module, ports: usize) -> Result<Option<Rows>, OutOfMemory>
    requires ports { ports ≡ din_count «module».now.netlist }
    ensures { IfOk result (λ o. IfSome o (AreRowsOf «module».now.netlist)) }
{
    let wiring = module.wiring();
    if room_for(wiring.assigns.len()) == 0 {
        return Ok(None);
    }
    let Some(plan) = make_plan(alloc, module, MOST_CLOCKS)? else {
        return Ok(None);
    };
    let Some(code) = batch_code_of(alloc, module, &plan.order)? else {
        return Ok(None);
    };
    let slots = code.widths.len().saturating_add(wiring.arrays.len());
    let size = size_of(plan.size, slots);
    if size < LEAST {
        return Ok(None);
    }
    let engine = engine_of(alloc, code, plan, wiring, ports)?;
    let rows = rows_of_engine(alloc, engine, wiring, size)?;
    Ok(Some(rows))
}
