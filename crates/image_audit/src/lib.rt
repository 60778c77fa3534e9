//! Whether two images can come from replicas of a directory that agree up to the smaller AllUpTo.
//! It knows neither octets nor houses that run.
#![tactic(auto)]

mod answers;
mod auditor;
mod fact;
pub mod laws;
mod open_facts;
mod pair;
mod verdict;

pub use auditor::audit;
pub use fact::Fact;
pub use pair::{PairFault, audit_octets};
pub use verdict::Verdict;
