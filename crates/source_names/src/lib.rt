//! A law on the names of a source's images.
#![tactic(auto)]

mod laws;

pub use laws::source_names_law;
