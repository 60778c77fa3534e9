//! A law on sessions, in logic alone: what a caller has kept who does his part is the folder of a
//! house. It knows no handle.
#![tactic(auto)]

pub mod laws;
