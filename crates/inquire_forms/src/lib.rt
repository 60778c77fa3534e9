//! The lines of the form `inquire` and their answers: its own four, and those of `run` that it
//! takes. It knows no cell.
#![tactic(auto)]

mod inquire_answer;
mod inquire_line;
mod inquire_text;
mod inquire_words;

pub use inquire_answer::{InquireAnswer, list_elements, list_entry, list_members, look_up};
pub use inquire_line::{InquireLine, parse_inquire_line, read_inquiry};
pub use inquire_text::{append_listed, count_listed, print_inquire_answer};
pub use inquire_words::read_most;
