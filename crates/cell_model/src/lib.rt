//! The model of a cell, in logic alone: houses that keep whole histories, and what each command
//! does to them. It does not know the program.
#![tactic(auto)]

mod laws;

pub use laws::{
    absences, answers, completion, convergence, floors, holdings, invariant, mending, merges,
    reached, ready, taking,
};
