//! The faults of a program's text.
#![tactic(auto)]

mod fault;
mod widen;

pub use fault::{SourceFault, Subject};
pub use widen::WidenFault;
