//! Places in a source text as lines and columns, excerpts that mark a span, text that any terminal can show, and names of files.
#![tactic(auto)]

mod marked;
mod name;
mod position;
mod text;

pub use marked::excerpt;
pub use name::shown_name;
pub use position::{TextPosition, place_of};
pub use text::PlainText;

/// The greatest length of a `PlainText`, in bytes.
pub const MAX_PLAIN_BYTES: usize = 2_047;
