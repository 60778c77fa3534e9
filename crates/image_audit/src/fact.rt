// What replicas say of a directory.
ghost use Rattle.std.specs.Prelude.{◌≡◌, IfOk};
ghost use Rattle.std.specs.Ordering.{is_lt};
ghost use Rattle.std.specs.declared.cmp.Ordering.TheVariants.{Equal};
ghost use Rattle.cds_stamps.specs.Octets.{octets_cmp};
ghost use Rattle.image_audit.specs.Facts.{fact_cmp, fact_name};
ghost use Rattle.image_audit.specs.PrivateOpen.{fact_of};

use attr_sets::Value;
use cds_stamps::{AttrName, SimpleName, Stamp};
use directory::Kind;
use std::alloc::{AllocError, Global};
use std::cmp::Ordering;

/// What a replica says of an entry.
pub enum Fact {
    /// An entry of this name and kind was born at this stamp.
    Birth(SimpleName, Kind, Stamp),
    /// The entry of this name and birth has this value of the attribute, since the last stamp.
    Value(SimpleName, Stamp, AttrName, Value, Stamp),
}

impl Drop for Fact {
    fn drop(self) {
        match self {
            Fact::Birth(_field_1, _field_2, _field_3) => (),
            Fact::Value(_field_1, _field_2, _field_3, _field_4, _field_5) => (),
        }
    }
}

/// A fact as the image has it.
#[derive(Clone, Copy)]
pub(crate) enum OpenFact<'a> {
    Birth(&'a SimpleName, Kind, Stamp),
    Value(&'a SimpleName, Stamp, &'a AttrName, &'a Value, Stamp),
}

impl OpenFact<'_> {
    /// A copy that outlives the image.
    pub(crate) fn copy(&self, alloc: Global) -> Result<Fact, AllocError>
        ensures { IfOk result (λ f. f ≡ fact_of self.now) }
    {
        match self {
            OpenFact::Birth(name, kind, birth) => {
                Ok(Fact::Birth(name.copy(alloc)?, *kind, *birth))
            }
            OpenFact::Value(name, birth, attr, value, stamp) => {
                let name = name.copy(alloc)?;
                let attr = attr.copy(alloc)?;
                let value = value.copy(alloc)?;
                Ok(Fact::Value(name, *birth, attr, value, *stamp))
            }
        }
    }

    // The name of the entry.
    fn name(&self) -> &SimpleName
        ensures { result.now ≡ fact_name (fact_of self.now) }
    {
        match self {
            OpenFact::Birth(name, _, _) => name,
            OpenFact::Value(name, _, _, _, _) => name,
        }
    }

    /// Whether it comes before the other: by name, the birth before the values, and these by
    /// attribute and value.
    pub(crate) fn is_before(&self, other: &OpenFact<'_>) -> bool
        ensures { result ≡ is_lt (fact_cmp (fact_of self.now) (fact_of other.now)) }
    {
        match self.name().cmp(other.name()) {
            Ordering::Less => true,
            Ordering::Equal => self.is_before_within(other),
            Ordering::Greater => false,
        }
    }

    // Of two facts of one name.
    fn is_before_within(&self, other: &OpenFact<'_>) -> bool
        ensures { octets_cmp (fact_name (fact_of self.now)) (fact_name (fact_of other.now)) ≡ Equal
            → result ≡ is_lt (fact_cmp (fact_of self.now) (fact_of other.now)) }
    {
        match (self, other) {
            (_, OpenFact::Birth(_, _, _)) => false,
            (OpenFact::Birth(_, _, _), OpenFact::Value(_, _, _, _, _)) => true,
            (OpenFact::Value(_, _, a, v, _), OpenFact::Value(_, _, b, w, _)) => match a.cmp(b) {
                Ordering::Less => true,
                Ordering::Equal => v < w,
                Ordering::Greater => false,
            },
        }
    }
}
