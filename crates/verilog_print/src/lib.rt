//! The Verilog text of a module, byte for byte.
#![tactic(auto)]

mod line;
mod name;
mod number;
mod right;
mod text;

pub use name::push_net;
pub use text::print;
