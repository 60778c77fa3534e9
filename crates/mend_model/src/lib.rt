//! The model of mending that leaves houses out of a directory, in logic alone. It knows the model
//! alone.
#![tactic(auto)]

mod laws;

pub use laws::leaving;
