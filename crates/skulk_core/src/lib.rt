//! The two rounds of a skulk at its master, by the places of the members that answered.
#![tactic(auto)]

pub mod laws;
mod skulk;

pub use skulk::{Next, Skulk};
