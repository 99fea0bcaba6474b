//! The layout of a module's text, byte for byte, and the law that a text of this layout denotes its module and no other. Nothing here prints a text.
#![tactic(auto)]

mod laws;
mod worked;

pub use laws::layout_stands_law;
pub use worked::worked_layouts;
