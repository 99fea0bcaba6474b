//! Assigns evaluated over whole rows of clocks, as instructions over slots.
#![tactic(auto)]

mod choices;
mod code;
mod module_code;
mod ordered;
mod pairs;
mod rights;
mod singles;
mod sizes;
mod uses;

pub use code::{Code, Instruction, Rooms, Scratch, run_code};
pub use module_code::{BatchCode, WordPut, WordRead};
pub use ordered::is_ordered;
pub use pairs::operator_row;
pub use rights::{
    Slots, Spares, atom_numbers, atom_row, atom_words, note_atom, note_words, right_row,
};
pub use sizes::{size_of, sizes_of};
pub use uses::first_uses;
