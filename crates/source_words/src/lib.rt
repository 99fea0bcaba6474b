//! Words of the source language: reserved words, type words and names.
#![tactic(auto)]

mod word;

pub use word::{KEYWORDS, Keyword, find_keyword, is_name, read_type, spellings_law};
