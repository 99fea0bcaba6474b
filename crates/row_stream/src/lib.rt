//! A module of one input and one output, driven with the lines of a file of images, whose pictures are written line by line.
//!
//! The form of an image is that of the Netpbm manual page "pgm", as pgm_codec narrows it.
#![tactic(auto)]

mod batch;
mod clocking;
mod faults;
mod heads;
mod images;
mod laws;
mod line;
mod ports;
mod rows;
mod state;
mod streaming;

pub use faults::StreamFault;
pub use laws::streams_most;
pub use line::OutputFormat;
pub use ports::{din_bits, dout_bits, format_of};
pub use rows::RowsFault;
pub use state::Stream;
