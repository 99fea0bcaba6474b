//! The faults of types of a program: the first one, and those of the program in which what is faulty is taken away.
#![tactic(auto)]

mod conversions;
mod faults;
mod found;
mod operands;
mod parts;
mod places;
mod probes;

pub use faults::{MAX_FAULTS, type_faults};
pub use found::{FoundFault, FoundTypes};
