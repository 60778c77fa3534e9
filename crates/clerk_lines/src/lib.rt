//! The lines of a clerk: what it reads, what it writes, and what it hears of houses. It knows
//! neither connections nor cells.
#![tactic(auto)]

mod answer;
mod hearing;
pub mod laws;
mod line;
mod shown;
mod status;
mod writing;

pub use answer::{AnswerLine, parse_answer_line};
pub use hearing::{Hearing, Told, first_word, is_last};
pub use line::{ClerkLine, ClerkWord, read_clerk_line};
pub use shown::{Lead, ShownAttr, ShownAttrs, ShownEntry, ShownValues};
pub use status::{RootList, read_root};
pub use writing::{push_ask, push_say, push_show};
