//! Whether a program shows the phases of another one's pictures: of each P columns, one.
#![tactic(auto)]

mod bodies;
mod columns;
mod images;
mod operands;
mod phases;
mod reads;
mod role;
mod worked;

pub use phases::have_phases;
pub use worked::worked_phases;
