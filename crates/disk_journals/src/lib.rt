//! The journal of one house on a disk in memory, which stops only where it is told to: how an image
//! is put, and how a put is stopped.
#![tactic(auto)]

mod calls;
mod faults;
mod kept;

pub use calls::{open, put, stopped_put};
pub use faults::Unkept;
pub use kept::{KeptHouse, keep};
