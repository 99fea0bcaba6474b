// Names of nets and arrays.

ghost use Rattle.std.specs.Prelude.{◌≡◌, ◌++◌, OnOk};
ghost use Rattle.netlist.specs.Names.{name_at};
ghost use Rattle.verilog_layout.specs.Layout.{net_name as name_of_net, array_name as name_of_array, atom_layout};

use crate::number::push_constant;
use netlist::{Atom, Module, Name, Net, input_name, output_name};
use std::alloc::AllocError;

// Adds the name at this place, where there is one.
pub(crate) fn push_name(out: &mut Vec<u8>, names: &[Name], place: usize) -> Result<(), AllocError>
    ensures { OnOk result (out.new.items ≡ out.old.items ++ name_at names.now place) }
{
    match names.get(place) {
        None => Ok(()),
        Some(name) => {
            out.extend_from_slice(name.as_bytes())?;
            Ok(())
        }
    }
}

/// Adds the name of a net in a module's text.
pub fn push_net(out: &mut Vec<u8>, module: &Module, net: Net) -> Result<(), AllocError>
    ensures { OnOk result (out.new.items ≡ out.old.items ++ name_of_net «module».now net) }
{
    match net {
        Net::Input(k) => out.extend_from_slice(input_name(module.wiring().enable, k))?,
        Net::Output(k) => out.extend_from_slice(output_name(k))?,
        Net::Wire(k) => push_name(out, &module.names().wires, k)?,
        Net::Reg(k) => push_name(out, &module.names().regs, k)?,
    }
    Ok(())
}

pub(crate) fn push_array(out: &mut Vec<u8>, module: &Module, array: usize) -> Result<(), AllocError>
    ensures { OnOk result (out.new.items ≡ out.old.items ++ name_of_array «module».now array) }
{
    push_name(out, &module.names().arrays, array)
}

pub(crate) fn push_atom(
    out: &mut Vec<u8>,
    module: &Module,
    atom: Atom<Net>,
) -> Result<(), AllocError>
    ensures { OnOk result (out.new.items ≡ out.old.items ++ atom_layout «module».now atom) }
{
    match atom {
        Atom::Net(net) => push_net(out, module, net),
        Atom::Constant(constant) => push_constant(out, constant),
    }
}
