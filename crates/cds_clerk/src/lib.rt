//! A clerk: what it heard of houses for one command, and what that says of names, or what was not
//! heard yet. It asks no house itself, and knows neither lines nor connections nor cells; nor does
//! it know when a house answered.
#![tactic(auto)]

mod heard;
mod importing;
mod inquiring;
mod linking;
mod planning;
mod reaching;
mod reading;
mod searching;
mod walking;

pub use heard::{Answered, Answers, Heard, Lack, Looked, Root};
pub use importing::import;
pub use inquiring::{Listing, inquire, lookup};
pub use linking::read_link;
pub use planning::{NamedUpdate, Plan, Planned, plan_of, plan_update};
pub use reaching::Reached;
pub use reading::{Outcome, read};
pub use searching::Searched;
pub use walking::{Walked, walk};
