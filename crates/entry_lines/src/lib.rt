//! The lines of a script that do what the entries of a house's journal say. It does not know the
//! houses that wrote them.
#![tactic(auto)]

mod command;
mod lines;
mod meaning;

pub use command::{Said, crash, making, setting, start, turn};
