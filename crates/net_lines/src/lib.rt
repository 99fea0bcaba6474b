//! The nets of a program's circuit, by the names of its images, as lines of text.
#![tactic(auto)]

mod lines;

pub use lines::{NamedNets, net_lines};
