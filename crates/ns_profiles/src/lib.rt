//! Profiles of the name service: the elements of a profile, and in which order a search takes them.
//! An element says that whoever looks for an interface may go on at its member, sooner or later by
//! its priority. A default element says so of all interfaces, after the others. It knows neither
//! the entry nor how a member is found.
#![tactic(auto)]

mod element;
mod fault;
pub mod laws;
mod search;
mod updates;

pub use element::{Annotation, Element, LentElement};
pub use fault::ProfileFault;
pub use search::{elements_for, elements_in_order};
pub use updates::{PROFILE, add, check_new, delete};
