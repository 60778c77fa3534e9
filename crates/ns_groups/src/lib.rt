//! Groups of the name service: entries whose values of one attribute spell the full names of their
//! members. It knows neither the entry nor where a member leads.
#![tactic(auto)]

pub mod laws;
mod member;
mod updates;

pub use member::{GroupFault, member_of, members, members_in_order};
pub use updates::{GROUP, add, delete};
