//! Programs whose large bodies are cut into definitions of few levels of operators. Nothing is proved of what they show: the text is for a check.
#![tactic(auto)]

mod body;
mod choices;
mod copies;
mod cut;
mod draft;
mod expanded;
mod head;
mod images;
mod levels;
mod names;
mod pieces;
mod product;
mod reached;
mod repeats;
mod text;

pub use cut::cut_program;
pub use head::head_of;
