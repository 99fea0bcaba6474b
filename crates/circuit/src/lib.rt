//! The circuit of a program: a module whose nets are the images' pixels, with buffers of any form.
#![tactic(auto)]

mod choices;
mod finer;
mod finishing;
mod forms;
mod images;
mod known;
mod laws;
mod leaves;
mod making;
mod options;
mod outs;
mod ports;
mod positions;
mod reader;
mod slots;
mod splits;
mod taps;
mod valid;

pub use finishing::Built;
pub use forms::{BlockChain, BufferForm, Chain, ImageNet, Ring};
pub use laws::frame_drive_law;
pub use making::{build, build_with};
pub use options::Options;
pub use slots::Slot;
pub use splits::{MAX_REGISTERS, finer_ages};
pub use taps::Taps;
