//! Full names of a cell and child pointers.
#![tactic(auto)]

mod full_name;
mod houses;
pub mod laws;
mod lent_name;
mod pointer;
mod spelled;

pub use full_name::{FullName, LONGEST_NAME, ROOT, SpliceFault};
pub use houses::{HouseList, HousesFault, MOST_HOUSES};
pub use lent_name::LentName;
pub use pointer::{ChildFault, ChildPointer};
