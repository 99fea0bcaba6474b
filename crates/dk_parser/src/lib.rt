//! Programs of the Darkroom language, from their tokens.
#![tactic(auto)]

mod built;
mod classes;
mod expression;
mod halt;
mod items;
mod nest;
mod read;
mod single;
mod terminal;
mod tree;
mod whole;

pub use classes::terminal_at;
pub use terminal::{Mark, Terminal};
pub use tree::{
    Def, Expr, ImageRead, Input, Literal, Name, Node, Offset, Program, Start, Step, TypeWord,
};
pub use whole::{ParseError, one_judgement_law, parse};
