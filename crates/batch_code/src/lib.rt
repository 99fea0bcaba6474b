//! Modules as code over rows of values.
#![tactic(auto)]

mod code;
mod instructions;
mod laws;
mod reads;
mod updates;

pub use code::batch_code_of;
pub use laws::{
    array_kept_law, batch_runs_law, contents_fit_law, rows_run_law, streams_run_law,
    words_are_put_law,
};
