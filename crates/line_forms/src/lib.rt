//! A form that answers line by line, by a trait: its lines are read, answered and written by one
//! body, whatever the form. And how a run of any form ends. It knows neither cells nor which forms
//! there are.
#![tactic(auto)]

mod dialogue_form;
mod endings;
pub mod laws;
mod line_form;
mod serving;

pub use dialogue_form::{DialogueForm, Said};
pub use endings::{Status, finish, stop_with};
pub use line_form::LineForm;
pub use serving::{serve_form, serve_lines};
