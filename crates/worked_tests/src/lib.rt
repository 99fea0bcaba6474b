//! Tables that the definitions of the lower crates compute: laws whose clauses were worked out by hand or come from the rules of the language.
#![tactic(auto)]

mod headers;
mod identifiers;
mod nets;
mod numbers;
mod systems;

pub use headers::worked_headers;
pub use identifiers::worked_identifiers;
pub use nets::{worked_names, worked_operators, worked_places, worked_sizes};
pub use numbers::{worked_conversions, worked_numbers, worked_ranges, worked_types};
pub use systems::system_by_hand;
