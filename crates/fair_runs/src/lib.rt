//! Skulks whose messages come: a skulk ends, and a cell converges, in logic alone. It owns what is
//! meant by a message that comes. It may not know the program: it uses the model alone.
#![tactic(auto)]

mod laws;

pub use laws::{cells_converge, skulks_end, skulks_end_if_heard, skulks_need};
