//! A segment of a house's journal: a journal on a disk of its own, which was empty when it began.
//! Each record ends in a digest of itself and of the record before.
#![tactic(auto)]

mod chain;
mod reading;
mod segment;

pub use chain::DIGEST;
pub use reading::{LastRecord, first_record, last_record, unsealed};
pub use segment::{NotBegun, Segment};
