//! Whether two programs show the same pictures, where the second may have images that only it has: definitions that name a part of a body.
#![tactic(auto)]

mod behind;
mod matching;
mod moves;
mod operands;
mod pairing;
mod products;
mod unneeded;

pub use pairing::{Comparison, compared, have_same_pictures};
