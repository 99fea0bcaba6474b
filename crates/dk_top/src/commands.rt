//! The commands, each as an implementation of `Work` for its words.

mod checking;
mod compiling;
mod evaluating;
mod explaining;
mod listing;
mod making;
mod planning;
mod rewriting;
mod running;
mod simulating;
mod streaming;
mod tracing;
