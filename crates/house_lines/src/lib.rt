//! The lines that a house reads: what they say. It knows no house.
#![tactic(auto)]

mod given;
mod line;
mod listing;
mod parse;
mod questions;
mod replicas;

pub use given::GivenMembers;
pub use line::{EpochList, HouseLine, HouseOrder, HouseQuestion};
pub use parse::parse_house_line;
