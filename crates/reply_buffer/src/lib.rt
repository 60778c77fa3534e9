//! The text of towers and of faults, the towers that lines of text say, and how replies wait to be
//! written. It knows neither cells nor which forms there are.
#![tactic(auto)]

mod answers;
mod digits;
mod limits;
mod replies;
mod tower_text;
mod untowers;
mod words;

pub use answers::{print_line_fault, reply_to_fault};
pub use limits::{LONGEST_TOWER, MOST_WAITING};
pub use replies::{LineEnd, Waiting};
pub use untowers::Speller;
