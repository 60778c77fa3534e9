//! `cdshouse` over a folder, a source and a sink: a house that goes on where its folder ended. It
//! knows no file of an operating system.
#![tactic(auto)]

mod folder;
mod laws;
mod memory;
mod reading;
mod running;
mod segments;
mod status;

pub use folder::{Folder, FolderCounts, FolderFault, LastFile};
pub use laws::{a_house_starts_again, houses_that_run_are_cells, limits_of_houses};
pub use memory::{Death, MemFolder};
pub use running::run;
pub use status::Status;
