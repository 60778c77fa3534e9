//! Scripts over a cell: lines to commands, and the script of `load`. It does not know what a
//! command does.
#![tactic(auto)]

mod command;
mod commands;
mod fates;
mod fault;
mod generator;
mod lists;
mod parse;
mod place;
mod questions;
mod replicas;
mod service;
mod service_word;
mod service_words;
mod update_word;
mod word;
mod words;
mod work;

pub use command::{Command, Question, ScriptLine};
pub use fault::ParseFault;
pub use generator::{ScriptIter, script_of};
pub use lists::{HouseNos, Listed, Listeds, Note, Octets, StringBindings, Uuids};
pub use parse::{line_behind, parse_line};
pub use update_word::UpdateWord;
pub use word::{house_number, number_up_to};
pub use words::{Parsed, Words};
