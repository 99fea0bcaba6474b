//! Synchronous netlists without names: what they are, when they keep the net rules, what a clock does to them, and which bits they buffer.
#![tactic(auto)]

mod buffer;
mod drivers;
mod laws;
mod marks;
mod netlist;
mod order;
mod right;
mod size;
mod values;

pub use buffer::buffer_bits;
pub use drivers::{Drivers, TableFault, Updaters, drivers_of, updaters_of};
pub use laws::{
    clocks_counted_law, counted_since_law, equal_rights_law, no_cycle_law, one_count_law,
    one_next_law, one_valuation_law, runs_are_histories_law,
};
pub use netlist::{Assign, Holder, Net, Netlist, Shape, Update};
pub use order::{OrderFault, evaluation_order};
pub use right::{Atom, Operator, Right};
pub use size::{Constant, Depth, Width};
pub use values::{join_value, limit, low_bits, operator_value};

/// The greatest width, in bits.
pub const MOST_BITS: u8 = 64;

/// The greatest number of words of an array.
pub const MOST_WORDS: u32 = 67_108_864;

/// The greatest width of a port, in bits.
pub const MOST_PORT_BITS: u8 = 16;

/// The greatest number of dins, and of douts.
pub const MOST_PORTS: usize = 8;
