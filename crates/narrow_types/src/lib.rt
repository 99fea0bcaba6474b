//! Programs whose images have the types of fewest bits that hold their values. Nothing is proved of what they show: the text is for a check.
#![tactic(auto)]

mod changes;
mod places;
mod ranges;
mod text;
mod tokens;
mod types;
mod words;

pub use text::narrowed_text;
