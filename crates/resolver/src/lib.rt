//! Resolution: where a full name leads, over any reader of a cell. It knows neither cells nor
//! houses nor confidence: these are the reader's.
#![tactic(auto)]

mod component;
pub mod laws;
mod near;
mod reader;
mod refusal;
mod resolution;
mod seen;
mod walk;

pub use near::{Near, resolve_near};
pub use reader::EntryReader;
pub use refusal::Refusal;
pub use resolution::{place, resolve};
pub use seen::{Found, LentEntry, Place, Seen};
pub use walk::{End, Walk};
