//! Modules: netlists with names that keep the net rules.
#![tactic(auto)]

mod buffer;
mod checking;
mod declare;
mod drive;
mod fault;
mod laws;
mod module;
mod names;
mod parts;
mod port_names;
mod profile;
mod resolve;
mod scope;
mod statement;
mod width;

pub use buffer::buffer_bits;
pub use fault::{Declared, NetError, NetFault, Statement};
pub use laws::{bounds_are_limits_law, one_fault_law, one_run_law, rules_kept_law, values_fit_law};
pub use module::Module;
pub use names::Names;
pub use net_names::Name;
pub use parts::{Declaration, Direction, NamedAssign, NamedUpdate, Parts, Port, Sort};
pub use port_names::{input_name, output_name};
pub use wiring::{
    Assign, Atom, Constant, Depth, Net, Netlist, Operator, Right, Shape, Update, Width,
};
