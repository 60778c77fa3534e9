//! The search for bindings: an import that begins at an entry, goes on at the members of groups and
//! at the elements of profiles, and gives one binding after the other, over any reader of a cell.
//! It knows neither cells nor houses.
#![tactic(auto)]

mod client;
mod fault;
mod importer;
pub mod laws;
mod progress;
mod waiting;

pub use fault::ImportFault;
pub use importer::Importer;
