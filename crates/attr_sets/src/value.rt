// Values of an attribute.
ghost use Rattle.std.specs.Prelude.{◌≡◌, length, None, IfOk, IfSome};
ghost use Rattle.cds_stamps.specs.Outcomes.{Answers, ok_unless};
ghost use Rattle.cds_stamps.specs.declared.alloc_or.AllocOr.TheVariants.{Fault};
ghost use Rattle.attr_sets.specs.Values.{value_fault};

use cds_stamps::{AllocOr, Octets};
use std::alloc::{AllocError, Global};
use std::marker::Model;
use thiserror::Error;

/// The most octets of a value.
pub const LONGEST_VALUE: usize = 1024;

/// Why octets are no value.
#[derive(Clone, Copy, Debug, PartialEq, Eq, Drop, Error)]
pub enum ValueFault {
    #[error("a value has 1 to 1,024 octets")]
    BadSize,
}

/// The octets of a value, 1 to 1,024 of them, ordered by the octets.
#[derive(Clone, Debug, PartialEq, Eq, PartialOrd, Ord)]
pub struct Value {
    octets: Octets,
}

impl Drop for Value {
    fn drop(self) {
        let Value { octets: _octets } = self;
    }
}

impl Model for Value {
    ghost use Rattle.std.specs.Prelude.{ℕ, List, ◌≤◌, ◌<◌, length};
    ghost use Rattle.attr_sets.specs.Values.{longest_value};

    ghost Value = { List ℕ };

    ghost view = { λ v. v.octets };

    ghost invariant = { λ v. (0 < length v.octets) × (length v.octets ≤ longest_value) };

    ghost inverse = { λ xs. record { octets = xs } };
}

impl Value {
    /// The value of these octets. No memory is asked for where they are none.
    pub fn new(alloc: Global, octets: &[u8]) -> Result<Value, AllocOr<ValueFault>>
        ensures answer { Answers result (ok_unless (value_fault octets.now) octets.now) }
        ensures faulty { IfSome (value_fault octets.now) (λ fault. result ≡ Err (Fault fault)) }
    {
        if octets.is_empty() || octets.len() > LONGEST_VALUE {
            return Err(AllocOr::Fault(ValueFault::BadSize));
        }
        Ok(Value {
            octets: Octets::of(alloc, octets)?,
        })
    }

    /// The value of octets that are one: only memory can be wanting.
    pub fn known(alloc: Global, octets: &[u8]) -> Result<Value, AllocError>
        requires { value_fault octets.now ≡ None }
        ensures { IfOk result (λ v. v ≡ octets.now) }
    {
        Ok(Value {
            octets: Octets::of(alloc, octets)?,
        })
    }

    /// The octets of the value, 1 to 1,024 of them.
    pub fn octets(&self) -> &[u8]
        ensures { result.now ≡ self.now }
    {
        self.octets.list()
    }

    /// How many octets it has: 1 to 1,024.
    pub fn len(&self) -> usize
        ensures len { result ≡ length self.now }
        ensures lawful { value_fault self.now ≡ None }
    {
        self.octets.list().len()
    }

    /// Another value of the same octets.
    pub fn copy(&self, alloc: Global) -> Result<Value, AllocError>
        ensures { IfOk result (λ v. v ≡ self.now) }
    {
        Ok(Value {
            octets: self.octets.copy(alloc)?,
        })
    }
}
