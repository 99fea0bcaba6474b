//! Programs that show the phases of another one's pictures: of each P columns, one. Nothing is proved of what they show: the text is for a check.
#![tactic(auto)]

mod columns;
mod names;
mod parts;
mod place;
mod reads;
mod text;
mod tokens;
mod words;

pub use text::phases_text;
