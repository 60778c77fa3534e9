//! Inquiries: what an entry says, asked for directly. The elements of a profile, the interfaces and
//! the objects of a server, and the bindings of an import in batches. It does not know how an entry
//! is found, or who asks.
#![tactic(auto)]

mod inquiry;
pub mod laws;
mod lookup;
mod servers;
mod version;

pub use inquiry::{Inquiry, elements, elements_by};
pub use lookup::Lookup;
pub use servers::{interfaces, objects};
pub use version::Version;
