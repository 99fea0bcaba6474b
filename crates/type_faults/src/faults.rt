// The faults of types of a program, one after another.

ghost use Rattle.std.specs.Prelude.{◌≡◌, ◌≤◌, ◌<◌, IfOk, IfSome, length};
ghost use Rattle.type_faults.specs.Faults.{BeginsWith, AreInOrder};

use crate::conversions::checked;
use crate::found::FoundFault;
use crate::parts::without;
use dk_base::OutOfMemory;
use dk_parser::Program;
use dk_types::TypeFault;
use std::alloc::Global;

/// The greatest number of faults that are found.
pub const MAX_FAULTS: usize = 20;

// The first fault of a program, if it has one.
fn next_fault(alloc: Global, program: &Program) -> Result<Option<TypeFault>, OutOfMemory> {
    match checked(alloc, program)? {
        Some(Err(fault)) => Ok(Some(fault)),
        Some(Ok(_)) | None => Ok(None),
    }
}

// A fault, and the program without what is faulty.
#[derive(Drop)]
struct Judged {
    found: FoundFault,
    rest: Option<Program>,
}

// A fault with the types at it, and what is left of the program.
fn step(alloc: Global, program: Program, fault: TypeFault) -> Result<Judged, OutOfMemory>
    ensures { IfOk result (λ judged. judged.found.fault ≡ fault) }
{
    let cut = without(alloc, program, fault)?;
    Ok(Judged {
        found: FoundFault {
            fault,
            types: cut.types,
        },
        rest: cut.rest,
    })
}

// The next fault of what is left of a program, if it begins after this byte.
fn next_step(
    alloc: Global,
    rest: Option<Program>,
    last: usize,
) -> Result<Option<Judged>, OutOfMemory>
    ensures { IfOk result (λ next. IfSome next (λ judged. last < judged.found.fault.span.start)) }
{
    let Some(program) = rest else {
        return Ok(None);
    };
    let Some(fault) = next_fault(alloc, &program)? else {
        return Ok(None);
    };
    if fault.span.start <= last {
        return Ok(None);
    }
    let next = step(alloc, program, fault)?;
    Ok(Some(next))
}

/// The faults of types of a program, of which `first` is the first one. Each one after it is the first fault of the program in which a constant is in place of each faulty body so far, and other faulty items are left out. Where such a body has no declared type, its definition is left out, and so is all that depends on its type.
pub fn type_faults(
    alloc: Global,
    program: Program,
    first: TypeFault,
) -> Result<Vec<FoundFault>, OutOfMemory>
    ensures few { IfOk result (λ found. length found.items ≤ MAX_FAULTS) }
    ensures first { IfOk result (λ found. BeginsWith first found.items) }
    ensures ordered { IfOk result (λ found. AreInOrder found.items) }
{
    let mut found = Vec::new(alloc);
    let begin = step(alloc, program, first)?;
    found.push(begin.found)?;
    let mut rest = begin.rest;
    let mut last = first.span.start;
    'faults: while found.len() < MAX_FAULTS {
        let Some(next) = next_step(alloc, rest, last)? else {
            return Ok(found);
        };
        last = next.found.fault.span.start;
        found.push(next.found)?;
        rest = next.rest;
    }
    Ok(found)
}
