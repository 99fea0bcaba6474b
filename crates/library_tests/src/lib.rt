//! Public calls that the program does not make: traces that are read again, and buffers as rings.
#![tactic(auto)]

#[cfg(test)]
mod faults;
#[cfg(test)]
mod forms;
#[cfg(test)]
mod modules;
#[cfg(test)]
mod shown;
