// The buffer bits of a module.

ghost use Rattle.std.specs.Prelude.{IfOk};
ghost use Rattle.wiring.specs.BufferBits.{IsBufferBits};

use crate::module::Module;
use dk_base::OutOfMemory;
use std::alloc::Global;

/// The bits of all arrays, and of each register that takes in what the inputs were fed, through assigns and state.
pub fn buffer_bits(alloc: Global, module: &Module) -> Result<u128, OutOfMemory>
    ensures { IfOk result (IsBufferBits «module».now.netlist) }
{
    let bits = wiring::buffer_bits(alloc, module.wiring())?;
    Ok(bits)
}
