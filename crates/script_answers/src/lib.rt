//! What a cell answers to the lines of a script, and its text. It knows a table entry by entry
//! alone.
#![tactic(auto)]

mod answer;
mod dump;
mod import;
mod lists;
mod pieces;
mod print;
mod refusals;

pub use answer::{Answer, ScriptRefusal};
pub use lists::{Serials, Values};
pub use pieces::{begin_line, push_hex, push_number, push_stamp, push_stamp_or};
pub use print::{append_answer, append_said, print_fault, print_parse_fault};
pub use refusals::rule_name;
