//! What a circuit takes from the delays of a solution: each image's delay, depth and ages, the latencies, the clocks and the bits, within the limits.
#![tactic(auto)]

mod ages;
mod fault;
mod find;
mod laws;
mod planning;
mod plans;

pub use fault::PlanFault;
pub use laws::{ages_of_images_law, one_limit_law};
pub use planning::plan;
pub use plans::Plan;
