//! The messages of a program's faults, as `dk explain` prints them: places, sentences, excerpts and help.
#![tactic(auto)]

mod details;
mod lexical;
mod limits;
mod listing;
mod names;
mod type_help;
mod types;

pub use listing::explanation;

/// The greatest number of messages of an explanation.
pub const MAX_MESSAGES: usize = 20;

/// The greatest length of what a message has after its head, in bytes.
pub const MAX_DETAIL_BYTES: usize = 2_048;
