// A module as code over the slots of its nets.

ghost use Rattle.std.specs.Prelude.{IfOk, IfSome};
ghost use Rattle.batch_code.specs.Code.{IsBatchCode};

use crate::instructions::instructions_of;
use crate::reads::reads_of;
use crate::updates::{nexts_of, puts_of};
use batch_rows::BatchCode;
use cycle_sim::{layout_of, widths_of_wiring};
use dk_base::OutOfMemory;
use netlist::Module;
use std::alloc::Global;

/// The code of a module, with its instructions in this order of its assigns. None where the order does not name each assign that
/// reads no array, or does not put an instruction after those that it reads, or where some array is not read by one assign.
pub fn batch_code_of(
    alloc: Global,
    module: &Module,
    order: &[usize],
) -> Result<Option<BatchCode>, OutOfMemory>
    ensures { IfOk result (λ o. IfSome o (IsBatchCode «module».now.netlist)) }
{
    let wiring = module.wiring();
    let widths = widths_of_wiring(alloc, wiring)?;
    let layout = layout_of(wiring);
    let Some(instructions) = instructions_of(alloc, layout, wiring, order)? else {
        return Ok(None);
    };
    let Some(reads) = reads_of(alloc, layout, wiring)? else {
        return Ok(None);
    };
    let puts = puts_of(alloc, layout, wiring)?;
    let nexts = nexts_of(alloc, layout, wiring)?;
    Ok(Some(BatchCode {
        widths,
        first_output: layout.first_output,
        first_reg: layout.first_reg,
        instructions,
        reads,
        puts,
        nexts,
    }))
}
