//! What a line of a script comes to: what a cell answers to it, and what is counted of a line of
//! `load`. It knows neither the whole input nor how a run ends.
#![tactic(auto)]

mod counts;
mod form;
mod kinds;
mod limits;
mod loader;
mod questions;
mod records;
mod replayer;
mod said;
mod shown;

pub use counts::Counts;
pub use limits::MOST_UPDATES;
pub use loader::Loader;
pub use questions::reply_to_question;
pub use replayer::Replayer;
pub use said::Reply;
