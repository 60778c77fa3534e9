//! The journals of houses, explained: a script whose replay gives each house exactly its entries.
//! It does not know the houses that wrote them.
#![tactic(auto)]

mod cause;
mod comparing;
mod explainer;
mod explanation;
mod houses;
mod making;
mod posted;
mod ready;
mod replay;

pub use cause::{Cause, Reason};
pub use explanation::{Ending, Explanation, explain};
