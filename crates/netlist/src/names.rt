// The names beside a netlist.

use net_names::Name;

/// The name of the module, and those of wires, registers and arrays in order. The ports have the names of the profile.
#[derive(Debug, Drop)]
pub struct Names {
    pub module: Name,
    pub wires: Vec<Name>,
    pub regs: Vec<Name>,
    pub arrays: Vec<Name>,
}
