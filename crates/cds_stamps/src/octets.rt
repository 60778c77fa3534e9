// Octets, the ground of names and values.
ghost use Rattle.std.specs.Prelude.{◌≡◌, List, ℕ, IfOk, nat_eq};
ghost use Rattle.std.specs.Ordering.{nat_cmp, as_partial_cmp};
ghost use Rattle.std.specs.Cmp.{partial_order_from_own_ties};
ghost use Rattle.std.specs.Cmp.Lexicographic.{slice_cmp, pointwise};
ghost use Rattle.std.specs.Cmp.Rules.{comparing, hashing};
ghost use Rattle.std.specs.Hash as fed;
ghost use Rattle.std.proofs.Common.{rules};

use crate::octet_order::octet_order;
use smallvec::SmallVec;
use std::alloc::{AllocError, Global};
use std::cmp::Ordering;
use std::hash::{Hash, Hasher};
use std::marker::Model;

/// So many octets are kept in place, and more in an allocation.
const IN_PLACE: usize = 16;

/// Octets, ordered one by one: what names and values are made of.
#[derive(Debug)]
pub struct Octets {
    items: SmallVec<u8, IN_PLACE>,
}

impl Model for Octets {
    ghost use Rattle.std.specs.Prelude.{ℕ, List};

    ghost Value = { List ℕ };

    ghost view = { λ v. v.items.items };
}

// (a value is let go by one call, wherever its octets are kept)
impl Drop for Octets {
    fn drop(self) {
        let Octets { items: _items } = self;
    }
}

impl PartialEq for Octets {
    ghost eq = { pointwise nat_eq };

    ghost laws = { Prim.search (comparing, rules) };

    fn eq(&self, other: &Octets) -> bool {
        self.items.as_slice() == other.items.as_slice()
    }
}

impl Eq for Octets {
    ghost laws = { Prim.search (comparing, rules) };
}

impl PartialOrd for Octets {
    ghost partial_cmp = { as_partial_cmp (slice_cmp nat_cmp) };

    ghost laws = { partial_order_from_own_ties (Prim.search (comparing, rules)) (Prim.search (comparing, rules)) };

    fn partial_cmp(&self, other: &Octets) -> Option<Ordering> {
        Some(self.cmp(other))
    }
}

impl Ord for Octets {
    ghost cmp = { slice_cmp nat_cmp };

    ghost total = { Prim.search (comparing, rules) };

    ghost matches_partial_cmp = { Prim.search (comparing, rules) };

    ghost matches_eq = { Prim.search (comparing, rules) };

    fn cmp(&self, other: &Octets) -> Ordering {
        octet_order(self.items.as_slice(), other.items.as_slice())
    }
}

impl Hash for Octets {
    ghost hash_input = { λ v. fed.slice fed.u8 v };

    ghost respects_eq = { Prim.search (hashing, rules) };

    fn hash<H: Hasher>(&self, state: &mut H) {
        self.items.as_slice().hash(state);
    }
}

impl Clone for Octets {
    ghost is_clone = { λ x y. y ≡ x };

    fn clone(&self) -> Result<Octets, AllocError> {
        Octets::of(*self.items.allocator(), self.items.as_slice())
    }
}

impl Octets {
    /// A copy of these octets.
    pub fn of(alloc: Global, octets: &[u8]) -> Result<Octets, AllocError>
        ensures { IfOk result (λ v. v ≡ octets.now) }
    {
        Ok(Octets {
            items: SmallVec::from_slice(alloc, octets)?,
        })
    }

    /// Another list of the same octets.
    pub fn copy(&self, alloc: Global) -> Result<Octets, AllocError>
        ensures { IfOk result (λ v. v ≡ self.now) }
    {
        Octets::of(alloc, self.items.as_slice())
    }

    /// The octets, in their order.
    pub fn list(&self) -> &[u8]
        ensures { result.now ≡ self.now }
    {
        self.items.as_slice()
    }
}
