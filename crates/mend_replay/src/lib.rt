//! The commands that mend a directory of a cell, as lines of a script. It knows neither the whole
//! input nor how a run ends.
#![tactic(auto)]

mod commands;
mod form;
pub mod laws;
mod leaving;
mod lines;
mod masters;
mod mender;
mod readiness;

pub use mender::Mender;
