// The module of a netlist that a pass proposes.

ghost use Rattle.std.specs.Prelude.{◌≡◌, IfOk, IfSome};
ghost use Rattle.net_build.specs.Naming.{names_for};

use crate::naming::has_made_names;
use crate::parts::parts_of;
use dk_base::OutOfMemory;
use netlist::{Module, NetError};
use std::alloc::{AllocError, Global};
use wiring::Netlist;

// The module that the parts of a netlist make, or None where it breaks a net rule.
fn checked_module(alloc: Global, wiring: &Netlist) -> Result<Option<Module>, OutOfMemory> {
    let made = match parts_of(alloc, wiring) {
        Ok(parts) => Module::checked(alloc, parts),
        Err(error) => Err(error),
    };
    match made {
        Ok(module) => Ok(Some(module)),
        Err(NetError::Fault(_)) => Ok(None),
        Err(NetError::OutOfMemory) => Err(AllocError),
    }
}

/// The module of a netlist, under the names that a builder gives; None where the netlist breaks a net rule. That its netlist is the given one is not specified: a pass tests the module itself.
pub fn made_module(alloc: Global, wiring: &Netlist) -> Result<Option<Module>, OutOfMemory>
    ensures named { IfOk result (λ made. IfSome made (λ m. m.names ≡ names_for m.netlist)) }
{
    let Some(module) = checked_module(alloc, wiring)? else {
        return Ok(None);
    };
    if !has_made_names(alloc, &module)? {
        return Ok(None);
    }
    Ok(Some(module))
}
