//! Laws: no parts of a netlist and no Verilog text are without a verdict, and a module that a text denotes can be printed.
#![tactic(auto)]

mod laws;

pub use laws::{every_netlist_law, every_verilog_text_law, printable_law};
