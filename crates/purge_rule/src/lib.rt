//! Replicas of a directory, and the rule by which they are merged and purged. It knows neither
//! houses nor messages.
#![tactic(auto)]

mod delta;
mod held;
mod latest;
pub mod laws;
mod merging;
mod replica;
mod steps;

pub use delta::Delta;
pub use latest::latest_in_entry;
pub use replica::Replica;
pub use steps::Steps;
