//! The handle of a session, for a program in another language: null, or the pointer of a box. It
//! knows nothing of lines and records.
#![tactic(auto)]

mod handle;

pub use handle::HouseHandle;
