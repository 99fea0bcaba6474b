//! Names of Verilog texts, and the words that are none.
#![tactic(auto)]

mod name;
mod word;

pub use name::Name;
pub use word::{is_name, is_refused_word, is_structure_word, is_word};

/// The greatest length of a name, in bytes.
pub const MOST_NAME_BYTES: usize = 64;
