//! The tokens of a program's text, or the first fault in it.
#![tactic(auto)]

mod fault;
mod lexeme;
mod token;
mod tokens;

pub use fault::{LexError, LexFault, LexKind};
pub use token::{Symbol, Token, TokenKind};
pub use tokens::{faithful_law, lex, one_reading_law};
