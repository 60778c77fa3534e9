//! The entries of a house that runs are those of a house that does as the model does, in logic
//! alone. It knows no file.
#![tactic(auto)]

mod laws;

pub use laws::{
    crashes_leave_lines, each_start_has_a_turn, records_tell_one_tale, running_houses_are_cells,
    running_houses_are_honest,
};
