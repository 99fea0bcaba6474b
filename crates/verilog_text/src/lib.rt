//! What the texts of the Verilog subset are: their tokens, what is written in them, the modules that they denote, and every fault. Nothing here reads a text.
#![tactic(auto)]

mod fault;
mod laws;
mod token;
mod worked;
mod written;

pub use fault::{LimitFault, LimitKind, TextError, TextFault};
pub use laws::{one_module_law, one_reading_law};
pub use token::{Keyword, LexFault, LexKind, Symbol, Token, TokenKind};
pub use worked::{worked_constants, worked_words};
pub use written::{
    Count, Range, Written, WrittenAssign, WrittenDeclaration, WrittenPort, WrittenRight,
    WrittenSort, WrittenUpdate,
};
