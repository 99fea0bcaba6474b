//! A simulator of modules, a clock at a time.
#![tactic(auto)]

mod build;
mod circuit;
mod edge;
mod evaluate;
mod fill;
mod machine;
mod ports;
mod running;
mod settle;
mod sim;

pub use build::{Layout, atom_of, layout_of, right_of, slot_of, widths_of_wiring};
pub use edge::IndexRange;
pub use fill::Fill;
pub use ports::{Out, dins_of};
pub use running::{Clock, RunFault, clocks_fit, run};
pub use sim::Sim;
