//! What a program reads from and writes to, each with a count of its failures, readers over it
//! (lines, and a window of octets), and the words of its command line.
#![tactic(auto)]

mod buffer;
mod ends;
pub mod laws;
mod lines;
mod memory;
mod scan;
mod standard;
mod window;
mod words;

pub use ends::{Failed, PutFault, Sink, Source, put_all};
pub use lines::{Line, Lines, MOST_HELD};
pub use memory::{MemSink, MemSource};
pub use scan::{LONGEST_LINE, LineFault, MOST_LINES};
pub use standard::{StdSink, StdSource};
pub use window::Window;
pub use words::{WordsFault, words_of};
