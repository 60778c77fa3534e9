//! A journal of images on a disk that may stop at any moment: a crash leaves the image of before or
//! the new one.
//!
//! The file is a list of records: a gate octet 1, the image's length as 8 octets, big-endian, and
//! the image. One closed gate follows them.
#![tactic(auto)]

mod append;
mod close;
mod disk;
mod journal;
pub mod laws;
mod leave;
mod list_end;
mod memory;
mod restart;
mod settle;
mod step;

pub use disk::{Disk, DiskError};
pub use journal::{Journal, JournalFault, MOST_OCTETS};
pub use leave::Leave;
pub use memory::MemDisk;
