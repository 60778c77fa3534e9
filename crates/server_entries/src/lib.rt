//! Entries of servers: their towers and objects, how a server is exported and unexported, and which
//! bindings an entry has for a client. It knows neither directories nor other entries.
#![tactic(auto)]

mod client;
mod exports;
pub mod laws;
mod tower;

pub use client::{Wanted, bindings, bindings_in_order};
pub use exports::{ExportFault, OBJECTS, TOWERS, check_export, export, unexport};
pub use tower::{ServerFault, tower_of_value};
