//! A map in the order of its keys: a sorted vector while it has few entries, and a tree from then
//! on.
#![tactic(auto)]

mod iter;
mod map;
mod sorted_vec;
mod table;

pub use iter::Iter;
pub use map::CompactMap;
