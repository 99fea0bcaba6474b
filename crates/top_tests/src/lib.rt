//! The call of the program over a desk in memory.
#![tactic(auto)]

#[cfg(test)]
mod commands;
#[cfg(test)]
mod failing;
