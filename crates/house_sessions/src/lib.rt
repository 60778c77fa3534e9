//! A house that its caller steps, line by line. He keeps its records on a disk of his own: what a
//! line came to is said only after its record was kept. It knows neither files nor the chain of
//! records.
#![tactic(auto)]

mod fault;
mod line;
mod session;

pub use fault::SessionFault;
pub use session::{Session, Stage};
