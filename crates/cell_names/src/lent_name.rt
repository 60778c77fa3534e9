// Full names whose octets are kept elsewhere.
ghost use Rattle.std.specs.Prelude.{◌≡◌, ◌≢◌, ◌++◌, ◌∷◌, [], ℕ, List, None, IfOk, IfSome, MatchOption};
ghost use Rattle.cds_stamps.specs.Names.{simple_name_fault};
ghost use Rattle.cds_stamps.specs.Outcomes.{ok_unless};
ghost use Rattle.cell_names.specs.FullNames.{components_of, name_fault};

use crate::full_name::FullName;
use crate::spelled::behind_name;
use cds_stamps::NameFault;
use std::alloc::{AllocError, Global};
use std::marker::Model;

/// A full name whose octets are kept elsewhere: it takes no memory of its own.
#[derive(Debug, Drop)]
pub struct LentName<'a> {
    octets: &'a [u8],
}

impl<'a> Model for LentName<'a> {
    ghost use Rattle.std.specs.Prelude.{◌≡◌, ℕ, List, None};
    ghost use Rattle.cell_names.specs.FullNames.{components_of, name_fault};

    ghost Value = { List (List ℕ) };

    ghost view = { λ v. components_of v.octets.now };

    ghost invariant = { λ v. name_fault v.octets.now ≡ None };
}

impl<'a> LentName<'a> {
    /// The full name of these octets, or their fault, which is that of `FullName::check`. Takes no
    /// memory.
    pub fn of(octets: &'a [u8]) -> Result<LentName<'a>, NameFault>
        ensures { result ≡ ok_unless (name_fault octets.now) (components_of octets.now) }
    {
        FullName::check(octets)?;
        Ok(LentName { octets })
    }

    /// The full name of octets that are known to be one.
    pub fn known(octets: &'a [u8]) -> LentName<'a>
        requires { name_fault octets.now ≡ None }
        ensures { result ≡ components_of octets.now }
    {
        LentName { octets }
    }

    /// The same name, with memory of its own.
    pub fn copy(&self, alloc: Global) -> Result<FullName, AllocError>
        ensures { IfOk result (λ v. v ≡ self.now) }
    {
        FullName::known(alloc, self.octets)
    }

    /// The same names, with memory of their own.
    pub fn copies(alloc: Global, names: &[LentName<'_>]) -> Result<Vec<FullName>, AllocError>
        ensures { IfOk result (λ v. v.items ≡ names.now) }
    {
        let mut copies = Vec::with_capacity(alloc, names.len())?;
        for name in names {
            copies.push(name.copy(alloc)?)?;
        }
        Ok(copies)
    }

    /// The octets of the last component, where those in front of it are the components of this
    /// name. Takes no memory.
    pub fn last_behind(&self, front: &FullName) -> Option<&'a [u8]>
        ensures value { MatchOption result
            ((last : List ℕ) → self.now ≢ front.now ++ last ∷ [])
            (λ last. self.now ≡ front.now ++ last.now ∷ []) }
        ensures lawful { IfSome result (λ last. simple_name_fault last.now ≡ None) }
    {
        let last = behind_name(self.octets, front.components())?.strip_prefix(b"/")?;
        if last.contains(&b'/') {
            return None;
        }
        Some(last)
    }
}
