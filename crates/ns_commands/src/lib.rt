//! The commands of the name service: what they ask of a cell, or what they answer, over any reader
//! of its entries. It knows neither cells nor lines, and it accepts nothing itself.
#![tactic(auto)]

mod entries;
mod exports;
mod groups;
mod imports;
mod profiles;
mod refusals;
mod updates;

pub use entries::{object, values_of};
pub use exports::{export, unexport};
pub use groups::{add_member, delete_member};
pub use imports::import;
pub use profiles::{add_element, delete_element};
pub use refusals::refusal_of_walk;
pub use updates::Updates;
