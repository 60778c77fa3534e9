//! The run of a house over a source, a sink and a segment: line by line, and nothing is answered
//! before it is durable. It does not know what a line does.
#![tactic(auto)]

mod answering;
mod ending;
mod faults;
mod responder;
mod serving;

pub use ending::Ending;
pub use faults::MOST_LINE;
pub use responder::{Reply, Responder};
pub use serving::serve;
