//! The report of a program's plan, and whether a report holds of a program.
#![tactic(auto)]

mod judging;
mod one;
mod printed;
mod report;

pub use judging::{CheckFault, Claim, judge_report};
pub use one::one_plan_law;
pub use printed::{printed_holds_law, printed_yes_law};
pub use report::plan_report;
