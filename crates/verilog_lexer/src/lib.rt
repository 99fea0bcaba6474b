//! The tokens of a Verilog text, each cut as it is reached, or the first fault in the text.
#![tactic(auto)]

mod byte;
mod lexeme;
mod number;
mod symbol;
mod tokens;
mod word;

pub use tokens::Tokens;
