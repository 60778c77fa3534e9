//! What a line of a script comes to where a clerk keeps answers: `read` at low confidence goes
//! through the clerk, and each other line to the cell alone. It knows neither the whole input nor
//! how a run ends.
#![tactic(auto)]

mod form;
mod low_read;
mod replayer;
mod through;

pub use replayer::ClerkReplayer;
