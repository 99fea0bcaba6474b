//! What is written in a Verilog text, or the first fault of its tokens or of its grammar.
#![tactic(auto)]

mod class;
mod declaration;
mod halt;
mod kind;
mod module;
mod port;
mod right;
mod table;
mod text;
mod update;

pub use text::{name_span, parse};
