//! The records of a house's journal: their numbers, their text and their image, and the octets of
//! these.
#![tactic(auto)]

mod body;
mod head;
pub mod laws;

pub use body::{Body, body_octets, read_body};
pub use head::head_octets;
