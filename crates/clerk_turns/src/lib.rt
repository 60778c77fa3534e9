//! A clerk of live houses: what it makes of each line that it reads.
#![tactic(auto)]

mod clerk;
mod command;
pub mod laws;
mod outcomes;
mod says;
mod sending;
mod turns;

pub use clerk::{Clerk, Job, Question, Sending, Topic};
pub use command::{BatchSize, Command, parse_command};
pub use outcomes::{Comes, outcome};
