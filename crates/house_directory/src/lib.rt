//! What a house holds of a directory, and what it does with it: updates, skulks, epochs, and the
//! messages that it takes and posts. It knows no octets, and of the house its number, its node, its
//! clock and its floor alone.
#![tactic(auto)]

mod epochs;
mod outgoing;
mod posted;
mod skulks;
mod states;
mod taking;
mod times;
mod updates;

pub use epochs::{EpochRefusal, EpochSet, post_leaves};
pub use outgoing::{Outgoing, Sender, Turn};
pub use posted::{Posted, PostedList};
pub use skulks::{Begun, Skulked};
pub use states::{DirState, DirStates, Held, since_in};
pub use taking::{Taken, Took, taken_with, time_taken, unchanged};
pub use times::{latest_in_image, latest_in_message};
pub use updates::{Accepted, Issuer, refused};
