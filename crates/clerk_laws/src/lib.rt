//! Theorems on what a clerk hears of houses. No program calls them.
#![tactic(auto)]

pub mod laws;
