//! Netlists built a net at a time, with equal right sides shared.
#![tactic(auto)]

mod builder;
mod counters;
mod finish;
mod gates;
mod grow;
mod laws;
mod naming;
mod ports;
mod size;

pub use builder::Builder;
pub use counters::{
    Counted, Indices, count, counter, counter_up_to, cycle, loaded, register_value, started,
    unless_held,
};
pub use gates::{gate, number};
pub use laws::{
    held_law, indices_last_law, outputs_shown_law, parts_grow_law, ports_shown_law, reads_grow_law,
    runs_last_law, runs_on_law, still_grows_law,
};
