//! The commands of a script as lines: each is printed, and its line is read as that command.
#![tactic(auto)]

pub mod laws;
mod lines;
mod members;
mod updates;

pub use lines::{push_command, push_number_word, push_word};
pub use members::listed_others;
