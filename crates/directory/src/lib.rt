//! The table of a directory: its entries, and what updates and other tables do to them. It knows
//! neither the clock nor the house.
#![tactic(auto)]

mod attr_map;
mod deletions;
mod entry;
mod entry_map;
mod excerpt;
mod fragments;
mod later;
pub mod laws;
mod table;
mod undo;
mod update;

pub use attr_map::AttrMap;
pub use deletions::{Deletion, What};
pub use entry::{EntryCell, Fragment, Kind, LINK_TARGET, REPLICAS};
pub use excerpt::Excerpt;
pub use later::is_passed;
pub use table::Table;
pub use update::{Update, UpdateRefusal, creation};
