// Octets that a house keeps.
ghost use Rattle.std.specs.Prelude.{◌≡◌, [], ◌++◌, OnOk};

use std::alloc::{AllocError, Global};
use std::marker::Model;

/// Octets, in their order.
pub struct OctetBuffer {
    items: Vec<u8>,
}

impl Drop for OctetBuffer {
    fn drop(self) {
        let OctetBuffer { items: _items } = self;
    }
}

impl Model for OctetBuffer {
    ghost use Rattle.std.specs.Prelude.{ℕ, List};

    ghost Value = { List ℕ };

    ghost view = { λ v. v.items.items };
}

impl OctetBuffer {
    /// No octet. It takes no memory.
    pub fn new(alloc: Global) -> OctetBuffer
        ensures { result ≡ [] }
    {
        OctetBuffer {
            items: Vec::new(alloc),
        }
    }

    /// The octets of a vector.
    pub fn of(items: Vec<u8>) -> OctetBuffer
        ensures { result ≡ items.items }
    {
        OctetBuffer { items }
    }

    /// Puts octets after the others.
    pub fn extend(&mut self, octets: &[u8]) -> Result<(), AllocError>
        ensures { OnOk result (self.new ≡ self.old ++ octets.now) }
    {
        self.items.extend_from_slice(octets)
    }

    /// No octet any more.
    pub fn clear(&mut self)
        ensures { self.new ≡ [] }
    {
        self.items.clear();
    }

    /// The octets.
    pub fn list(&self) -> &[u8]
        ensures { result.now ≡ self.now }
    {
        self.items.as_slice()
    }
}
