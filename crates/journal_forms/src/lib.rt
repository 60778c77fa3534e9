//! The lines of the form `journal` and their answers: `stop` and `image`, and those of `run`. It
//! knows no cell.
#![tactic(auto)]

mod journal_answer;
mod journal_line;
mod stop;

pub use journal_answer::{JournalAnswer, print_journal_answer};
pub use journal_line::{JournalLine, parse_journal_line};
