//! Whether a report of delays and least bits holds, whoever made it. Nothing here takes memory.
#![tactic(auto)]

mod ages;
mod checking;
mod flow;
mod judging;
mod laws;
mod lines;
mod numbering;
mod program;
mod sums;
mod verdict;

pub use checking::check;
pub use judging::judge;
pub use laws::least_agree_law;
pub use verdict::Verdict;
