//! PGM files as rounds of frames: a frame for each input is read, and the bytes of an image are written.
#![tactic(auto)]

mod fault;
mod image;
mod laws;
mod reading;
mod round;
mod rounds;
mod writing;

pub use fault::{FileError, FileFault};
pub use laws::one_file_law;
pub use round::Round;
pub use rounds::read_rounds;
pub use writing::write_image;
