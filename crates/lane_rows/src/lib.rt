//! Rows of values over the clocks of a batch, in lanes of 16, 32 or 64 bits.
#![tactic(auto)]

mod lanes;
mod row;
mod store;
mod words;

pub use lanes::Lane;
pub use row::{
    Numbers, Row, Size, copy_words, first_numbers, first_of, lane_in, length_of, number_of,
    trim_row, widen_row, words_of_row,
};
pub use store::{put_row, size_of_width, zero_row};
pub use words::{all_inside, change_row, number_at, take_back, word_row};
