//! Laws on the forms and on skulks, in logic alone: the script that the form `load` replays, the
//! answers that a clerk keeps, and which delivery completes a skulk. It does not know the program.
#![tactic(auto)]

mod laws;

pub use laws::{
    a_last_answer_completes, a_lone_master_completes, all_else_is_as_by_run,
    kept_answers_are_honest, script_is_never_refused,
};
