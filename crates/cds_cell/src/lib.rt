//! A cell: its houses, its console and the messages between them, and what a reader is told of it.
//! It knows neither lines nor text.
#![tactic(auto)]

mod acting;
mod actors;
mod answers;
mod bag;
mod cell;
mod console;
mod house;
pub mod laws;
mod making;
mod marks;
mod members;
mod messages;
mod pointing;
mod reader;
mod refusing;
mod restarting;
mod updating;

pub use answers::refusal_in_script;
pub use cell::Cell;
pub use house::HouseState;
pub use marks::Mark;
pub use members::{is_bad_list, member_list};
pub use pointing::house_list;
pub use reader::CellReader;
pub use updating::AcceptedAll;
