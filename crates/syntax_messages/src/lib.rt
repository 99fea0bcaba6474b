//! What a message states of a faulty token: what could stand there, its line, and help with common mistakes. Also what other messages share with it.
#![tactic(auto)]

mod around;
mod classes;
mod expected;
mod helps;
mod mistake;
mod program_mistakes;
mod read_mistakes;
mod spelling_mistakes;
mod syntax;
mod words;

pub use around::{Source, bytes_of, class_before, is_word, token_at};
pub use syntax::{push_excerpt, push_syntax};
pub use words::{Detail, begin_help, push_help, push_numbered, push_place, push_quoted};
