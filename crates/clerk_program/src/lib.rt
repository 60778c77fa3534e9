//! `cdsclerk` over a source and a sink: a clerk of live houses, line by line.
#![tactic(auto)]

mod running;
mod serving;
mod words;

pub use running::run;
pub use serving::serve;
pub use words::houses_in;
