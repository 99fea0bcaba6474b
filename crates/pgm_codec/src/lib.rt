//! Images in the binary form of PGM, read and written exactly. No call takes memory.
//!
//! The form is that of the Netpbm manual page "pgm", narrowed as the README says.
#![tactic(auto)]

mod header;
mod laws;
mod raster;
mod read;
mod reading;
mod scan;
mod write;

pub use header::{Header, HeaderFault};
pub use laws::{
    one_answer_law, one_cut_law, one_reading_law, read_again_law, rows_are_rasters_law,
};
pub use raster::{RasterFault, check_raster, check_row, sample};
pub use read::read_header;
pub use scan::{HeaderScan, Scan};
pub use write::{put_sample, write_header};
