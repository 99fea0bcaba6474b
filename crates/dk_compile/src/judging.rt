// What a text and a program are found to be.

ghost use Rattle.std.specs.Prelude.{IfOk, IsTrue, MatchOption};
ghost use Rattle.dk_types.specs.Typed.{Typing};
ghost use Rattle.dk_compile.specs.Fronts.{IsForm};
ghost use Rattle.dk_compile.specs.Limits.{IsAcceptedAt, IsFaultAt};
ghost use Rattle.dk_compile.specs.Ports.{IsOnePort};

use crate::{SourceError, one_at_age_law, planned};
use dk_base::OutOfMemory;
use pointwise_ir::Program;
use source_fault::SourceFault;
use std::alloc::{AllocError, Global};

/// Whether the programs of this form have one input and one output.
pub fn is_one_port(ir: &Program) -> bool
    ensures yes { IsTrue result → (p : Typing) → IsForm p ir.now → IsOnePort p }
    ensures no { (p : Typing) → IsForm p ir.now → IsOnePort p → IsTrue result }
{
    ir.inputs().len() == 1 && ir.outputs().len() == 1
}

/// The first fault of a text at age 0, if it has one.
pub fn first_fault(alloc: Global, text: &[u8]) -> Result<Option<SourceFault>, OutOfMemory>
    ensures { IfOk result (λ f. MatchOption f ((p : Typing) × IsAcceptedAt text.now 0 p) (IsFaultAt text.now 0)) }
{
    one_at_age_law();
    let error = match planned(alloc, text, 0) {
        Ok(_) => return Ok(None),
        Err(error) => error,
    };
    match error {
        SourceError::Fault(fault) => Ok(Some(fault)),
        SourceError::OutOfMemory => Err(AllocError),
    }
}
