//! A form of the program over octets in memory: all that it says of an input, in one call. It knows
//! neither files nor who calls.
#![tactic(auto)]

mod call;
mod ends;
pub mod laws;
mod words;

pub use call::{Answer, Call, put, say, say_into};
pub use cell_replay::Status;
