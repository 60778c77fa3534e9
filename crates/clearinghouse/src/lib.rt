//! A clearinghouse: one house with what it has of directories, its calls, its letters, and its
//! image. It knows other houses by number alone, and neither the bag nor the script.
#![tactic(auto)]

mod house;
mod images;
pub mod laws;
mod letters;
mod running;
mod taking;

pub use house::Clearinghouse;
pub use house_directory::{
    Accepted, Begun, DirState, DirStates, EpochRefusal, EpochSet, Held, Outgoing, Posted,
    PostedList, Skulked, Taken, Took, Turn,
};
pub use images::StartFault;
pub use letters::Letters;
pub use running::{Round, RunningSkulk};
