//! Runs of houses are runs of the cell, in logic alone: what houses did, each as its journal has
//! it, is what commands of the model do. It does not know the program.
#![tactic(auto)]

mod laws;

pub use laws::{every_order_goes_on, runs_are_cells};
