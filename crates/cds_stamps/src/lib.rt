//! Stamps, floors, house numbers and simple names of a cell, and the joins of what replicas hold.
#![tactic(auto)]

mod alloc_or;
mod lattice;
pub mod laws;
mod mask;
mod members;
mod names;
mod numbers;
mod octet_order;
mod octets;
mod stamp;

pub use alloc_or::AllocOr;
pub use lattice::Lattice;
pub use mask::MemberMask;
pub use members::{MOST_MEMBERS, Member, MemberKind, Members, MembersFault};
pub use names::{
    AttrFault, AttrName, LONGEST_ATTR, LONGEST_COMPONENT, NameFault, SimpleName, is_attr_octet,
    is_name_octet,
};
pub use numbers::{DirId, EpochNo, HouseNo};
pub use octets::Octets;
pub use stamp::{Floor, NODE_BITS, Node, Stamp, later_of};
