//! Skulks of houses that run by themselves, in logic alone: the journal of the master says that a
//! skulk is complete, if its messages come. It may not know the program.
#![tactic(auto)]

mod laws;

pub use laws::orders_end;
