//! One house of a clearinghouse program: a line to its turn, its answer and its record. It knows
//! other houses by number alone, and no file.
#![tactic(auto)]

mod again;
mod asking;
mod founding;
mod house;
pub mod laws;
mod lists;
mod octets;
mod opening;
mod posts;
mod resuming;
mod running;
mod said;
mod showing;
mod taking;
mod texts;
mod turns;

pub use house::{House, MOST_MESSAGE};
pub use octets::OctetBuffer;
pub use resuming::resume;
