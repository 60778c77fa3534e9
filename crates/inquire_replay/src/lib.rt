//! What a line comes to where inquiries are answered: an inquiry asks the cell, and each other line
//! is replayed as in a script. It knows neither the whole input nor how a run ends.
#![tactic(auto)]

mod form;
mod inquiries;
pub mod laws;
mod replies;

pub use form::Inquirer;
