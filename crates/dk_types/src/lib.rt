//! The types of a program: each expression with its one type, or the first fault.
#![tactic(auto)]

mod expression;
mod fault;
mod items;
mod operators;
mod scope;
mod typed;
mod whole;
mod worked;

pub use fault::{TypeError, TypeFault, TypeFaultKind};
pub use typed::{TypedDefinition, TypedExpr, TypedInput, TypedNode, TypedProgram, TypedRead};
pub use whole::{check, one_typing_law, values_in_types_law};
pub use worked::{worked_choices_and_shifts, worked_types};
