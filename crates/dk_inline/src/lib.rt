//! Programs with their inline images substituted, and the pass that folds constants.
#![tactic(auto)]

mod extent;
mod fold;
mod inlining;
mod substitution;
mod worked;

pub use fold::Fold;
pub use inlining::{InlineFault, inline};
pub use worked::worked_folds;
