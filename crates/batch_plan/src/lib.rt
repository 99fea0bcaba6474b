//! The order in which the nets of a module are evaluated over a batch of clocks.
#![tactic(auto)]

mod graph;
mod groups;
mod plan;
mod search;

pub use plan::{BatchPlan, BatchStep, WriteForm, make_plan};
