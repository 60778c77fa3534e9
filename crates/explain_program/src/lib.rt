//! `cdsexplain` over the octets of folders and a sink: the journals of houses become a script.
//! It knows no file.
#![tactic(auto)]

mod evidence;
mod folder;
mod running;
mod status;
mod told;

pub use folder::{FolderEnd, FolderFault, FolderOctets};
pub use running::run;
pub use status::Status;
