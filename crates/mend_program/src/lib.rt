//! `cdsmend` over a source and a sink: the commands that mend a directory after a script. It knows
//! neither standard input nor standard output.
#![tactic(auto)]

pub mod laws;
mod mend;
mod mending;

pub use mend::run;
pub use mending::mend_directory;
