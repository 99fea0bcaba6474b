//! The least bits of a system, with a flow that shows them least.
//!
//! A network simplex proposes a flow and numbers of the nodes, and one check shows them optimal. Where it does not, each image's width is sent from its begin node to its end node along tight constraints, and where there is no way the numbers of the nodes that are reached are raised.
#![tactic(auto)]

mod checking;
mod pushing;
mod sending;
mod settling;
mod shifting;
mod simplex;
mod solution;
mod solving;
mod tree;

pub use checking::is_optimal;
pub use simplex::{Proposal, propose};
pub use solution::{Numbers, Solution};
pub use solving::solve;
