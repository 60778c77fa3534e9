//! A clerk's cache: answers that a reader of a cell gave to its last questions, and the resolution
//! of names by them. It does not know how a reader comes by an answer, and an answer that it keeps
//! stays as it was, whatever the reader would answer now.
#![tactic(auto)]

mod clerk;
mod query;
mod resolution;

pub use clerk::Clerk;
pub use query::{Kept, Query, Told, ValueList};
