// Simple names and attribute names.
ghost use Rattle.std.specs.Prelude.{◌≡◌, List, ℕ, IfOk, IfSome, Some, None};
ghost use Rattle.cds_stamps.specs.Names.{simple_name_fault, attr_fault, is_name_octet, is_attr_octet};
ghost use Rattle.cds_stamps.specs.Outcomes.{Answers, ok_unless};
ghost use Rattle.cds_stamps.specs.declared.alloc_or.AllocOr.TheVariants.{Fault};

use crate::alloc_or::AllocOr;
use crate::octets::Octets;
use std::alloc::{AllocError, Global};
use std::marker::Model;
use thiserror::Error;

/// The most octets of a simple name, which is one component of a full name.
pub const LONGEST_COMPONENT: usize = 254;

/// The most octets of an attribute name.
pub const LONGEST_ATTR: usize = 31;

/// Why octets are no name. A place is counted from 1.
#[derive(Clone, Copy, Debug, PartialEq, Eq, Drop, Error)]
pub enum NameFault {
    #[error("empty at {0}")]
    Empty(usize),
    #[error("an octet that no name has at {0}")]
    BadOctet(usize),
    #[error("a component of 255 octets at {0}")]
    ComponentTooLong(usize),
    #[error("more than 1,023 octets")]
    NameTooLong,
    #[error("no name of this cell")]
    NotLocal,
}

/// Why octets are no attribute name. A place is counted from 1.
#[derive(Clone, Copy, Debug, PartialEq, Eq, Drop, Error)]
pub enum AttrFault {
    #[error("no attribute name at {0}")]
    BadAttr(usize),
}

/// Whether names have this octet: 0x21 to 0x7E other than the slash.
pub fn is_name_octet(octet: u8) -> bool
    ensures { result ≡ is_name_octet octet }
{
    octet.is_ascii_graphic() && octet != b'/'
}

/// Whether attribute names have this octet: a letter, a digit or the low line.
pub fn is_attr_octet(octet: u8) -> bool
    ensures { result ≡ is_attr_octet octet }
{
    octet.is_ascii_alphanumeric() || octet == b'_'
}

// Whether the octets are a simple name, without memory.
fn check_simple_name(octets: &[u8]) -> Result<(), NameFault>
    ensures { result ≡ ok_unless (simple_name_fault octets.now) tt }
{
    if octets.is_empty() {
        return Err(NameFault::Empty(1));
    }
    for (i, octet) in octets.iter().enumerate() {
        if !is_name_octet(*octet) {
            return Err(NameFault::BadOctet(i + 1));
        }
        if i == LONGEST_COMPONENT {
            return Err(NameFault::ComponentTooLong(i + 1));
        }
    }
    Ok(())
}

// Whether the octets are an attribute name, without memory.
fn check_attr_name(octets: &[u8]) -> Result<(), AttrFault>
    ensures { result ≡ ok_unless (attr_fault octets.now) tt }
{
    if octets.is_empty() {
        return Err(AttrFault::BadAttr(1));
    }
    for (i, octet) in octets.iter().enumerate() {
        if !is_attr_octet(*octet) || i == LONGEST_ATTR {
            return Err(AttrFault::BadAttr(i + 1));
        }
    }
    Ok(())
}

/// A simple name: one component of a full name.
#[derive(Clone, Debug, PartialEq, Eq, PartialOrd, Ord, Hash)]
pub struct SimpleName {
    octets: Octets,
}

impl Drop for SimpleName {
    fn drop(self) {
        let SimpleName { octets: _octets } = self;
    }
}

impl Model for SimpleName {
    ghost use Rattle.std.specs.Prelude.{ℕ, List, ◌≡◌, None};
    ghost use Rattle.cds_stamps.specs.Names.{simple_name_fault};

    ghost Value = { List ℕ };

    ghost view = { λ v. v.octets };

    ghost invariant = { λ v. simple_name_fault v.octets ≡ None };

    ghost inverse = { λ xs. record { octets = xs } };
}

impl SimpleName {
    /// The simple name of these octets, or the first of them that breaks its rule. No memory is
    /// asked for where there is a fault.
    pub fn parse(alloc: Global, octets: &[u8]) -> Result<SimpleName, AllocOr<NameFault>>
        ensures answer { Answers result (ok_unless (simple_name_fault octets.now) octets.now) }
        ensures faulty { IfSome (simple_name_fault octets.now)
            (λ fault. result ≡ Err (Fault fault)) }
    {
        check_simple_name(octets).map_err(AllocOr::Fault)?;
        Ok(SimpleName::known(alloc, octets)?)
    }

    /// The simple name of octets that are known to be one: only memory can be wanting.
    pub fn known(alloc: Global, octets: &[u8]) -> Result<SimpleName, AllocError>
        requires { simple_name_fault octets.now ≡ None }
        ensures { IfOk result (λ v. v ≡ octets.now) }
    {
        Ok(SimpleName {
            octets: Octets::of(alloc, octets)?,
        })
    }

    /// Another simple name of the same octets.
    pub fn copy(&self, alloc: Global) -> Result<SimpleName, AllocError>
        ensures { IfOk result (λ v. v ≡ self.now) }
    {
        Ok(SimpleName {
            octets: self.octets.copy(alloc)?,
        })
    }

    /// The octets of the name, 1 to 254 of them.
    pub fn octets(&self) -> &[u8]
        ensures value { result.now ≡ self.now }
        ensures lawful { simple_name_fault result.now ≡ None }
    {
        self.octets.list()
    }
}

/// The name of an attribute.
#[derive(Clone, Debug, PartialEq, Eq, PartialOrd, Ord, Hash)]
pub struct AttrName {
    octets: Octets,
}

impl Drop for AttrName {
    fn drop(self) {
        let AttrName { octets: _octets } = self;
    }
}

impl Model for AttrName {
    ghost use Rattle.std.specs.Prelude.{ℕ, List, ◌≡◌, None};
    ghost use Rattle.cds_stamps.specs.Names.{attr_fault};

    ghost Value = { List ℕ };

    ghost view = { λ v. v.octets };

    ghost invariant = { λ v. attr_fault v.octets ≡ None };

    ghost inverse = { λ xs. record { octets = xs } };
}

impl AttrName {
    /// The attribute name of these octets, or the first of them that breaks its rule. No memory is
    /// asked for where there is a fault.
    pub fn parse(alloc: Global, octets: &[u8]) -> Result<AttrName, AllocOr<AttrFault>>
        ensures answer { Answers result (ok_unless (attr_fault octets.now) octets.now) }
        ensures faulty { IfSome (attr_fault octets.now) (λ fault. result ≡ Err (Fault fault)) }
    {
        check_attr_name(octets).map_err(AllocOr::Fault)?;
        Ok(AttrName::known(alloc, octets)?)
    }

    /// The attribute name of octets that are known to be one: only memory can be wanting.
    pub fn known(alloc: Global, octets: &[u8]) -> Result<AttrName, AllocError>
        requires { attr_fault octets.now ≡ None }
        ensures { IfOk result (λ v. v ≡ octets.now) }
    {
        Ok(AttrName {
            octets: Octets::of(alloc, octets)?,
        })
    }

    /// Another attribute name of the same octets.
    pub fn copy(&self, alloc: Global) -> Result<AttrName, AllocError>
        ensures { IfOk result (λ v. v ≡ self.now) }
    {
        Ok(AttrName {
            octets: self.octets.copy(alloc)?,
        })
    }

    /// The octets of the name, 1 to 31 of them.
    pub fn octets(&self) -> &[u8]
        ensures value { result.now ≡ self.now }
        ensures lawful { attr_fault result.now ≡ None }
    {
        self.octets.list()
    }
}
