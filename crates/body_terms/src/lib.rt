//! Bodies of a program as terms, how they move, how many levels each form adds, and their text.
#![tactic(auto)]

mod levels;
mod moves;
mod part;
mod term;
mod words;

pub use levels::{only_widens, own_levels};
pub use moves::{MoveFault, framed, is_cut_off, moved};
pub use part::{
    Part, Precedence, binary, converted, most_levels, number, piece_read, scaled, selected, unary,
};
pub use term::{PixelRead, Term, TermNode, boxed, is_constant, node_count};
pub use words::{numbered, push_number, push_read, push_type};
