//! Protocol towers and string bindings.
//!
//! A tower is a list of floors, each of a left and a right part. This crate reads and writes their
//! octets, knows the towers of RPC servers over TCP and UDP among them, and reads and prints string
//! bindings.
#![tactic(auto)]

mod binding;
mod fault;
pub mod laws;
mod octets;
mod rpc;
mod view;
mod writer;

pub use binding::{StringBinding, read_uuid, split_at_mark};
pub use fault::{BindingFault, TowerFault};
pub use rpc::{Interface, Protseq, RpcTower};
pub use view::{FloorView, TowerView};
pub use writer::TowerWriter;
