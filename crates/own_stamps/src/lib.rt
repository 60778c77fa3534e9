//! The stamps of a house's own node in a message: one that is later than its floor says that the
//! house forgot turns, or that another house has its node. It knows of a house its node and its
//! floor alone.
#![tactic(auto)]

mod latest;
pub mod laws;

pub use latest::later_own;
