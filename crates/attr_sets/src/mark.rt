// Marks of values.
ghost use Rattle.std.specs.Prelude.{◌≡◌, IsOk, OnOk, OnErr};
ghost use Rattle.attr_sets.specs.Marks.{later, later_laws};

use cds_stamps::{Lattice, Stamp};
use std::alloc::{AllocError, Global};

/// Whether a value is present, by its latest mark.
#[derive(Clone, Copy, Debug, PartialEq, Eq)]
pub struct ValueMark {
    pub present: bool,
    pub stamp: Stamp,
}

impl ValueMark {
    /// The later of two marks of one value; of two with one stamp the absent one.
    pub fn later(self, other: ValueMark) -> ValueMark
        ensures { result ≡ later self other }
    {
        if self.stamp < other.stamp || (self.stamp == other.stamp && !other.present) {
            other
        } else {
            self
        }
    }
}

impl Lattice for ValueMark {
    ghost valid = { λ _. Unit {0} };

    ghost joined = { later };

    ghost keeps_valid = { λ _ _ _ _. tt };

    ghost commutative = { λ x y _ _. later_laws.comm x y };

    ghost associative = { λ x y z _ _ _. later_laws.assoc x y z };

    ghost idempotent = { λ x _. later_laws.idem x };

    fn join(&mut self, _alloc: Global, other: &Self) -> Result<(), AllocError>
        ensures always { IsOk result }
        ensures ok { OnOk result (self.new ≡ later self.old other.now) }
        ensures err { OnErr result (self.new ≡ self.old) }
    {
        *self = self.later(*other);
        Ok(())
    }
}
