// Full names.
ghost use Rattle.std.specs.Prelude.{◌≡◌, ◌==◌, ◌↔◌, ◌+◌, ◌-◌, ◌≤◌, ◌<◌, ◌++◌};
ghost use Rattle.std.specs.Prelude.{None, length, take, slice_get, option_copied, IsSome, SomeIff, OnSome, IfOk, OnOk, OnErr, IfSome};
ghost use Rattle.std.specs.List.{All, slice_split};
ghost use Rattle.std.specs.Cmp.Rules.{comparing, hashing};
ghost use Rattle.std.specs.Hash as fed;
ghost use Rattle.std.specs.Hash.{items_Alike};
ghost use Rattle.std.proofs.Common.{rules};
ghost use Rattle.cds_stamps.specs.Names.{simple_name_fault, IsSimpleName};
ghost use Rattle.cds_stamps.specs.Octets.{is_octets};
ghost use Rattle.cds_stamps.specs.Outcomes.{Answers, ok_unless};
ghost use Rattle.cds_stamps.specs.declared.alloc_or.AllocOr.TheVariants.{Fault};
ghost use Rattle.cell_names.specs.FullNames.{slash, behind_slashes, full_name_octets, components_of, components_fault, name_fault, splice_fault};
ghost use Rattle.cell_names.specs.FullNames.{first_component, longest_name, is_name, IsComponentList};

use crate::spelled::spell;
use cds_stamps::{AllocOr, LONGEST_COMPONENT, NameFault, SimpleName, is_name_octet};
use std::alloc::{AllocError, Global};
use std::hash::{Hash, Hasher};
use std::marker::Model;
use thiserror::Error;

/// The octets of the root of the cell, with which each full name begins.
pub const ROOT: &[u8] = b"/.:";

// What is before the first component.
const ROOT_SLASH: &[u8] = b"/.:/";

// The place of the first octet of the first component, counted from 1.
const FIRST_COMPONENT: usize = 5;

/// The most octets of a full name.
pub const LONGEST_NAME: usize = 1023;

/// Why simple names after a full name make no full name.
#[derive(Clone, Copy, Debug, PartialEq, Eq, Drop, Error)]
pub enum SpliceFault {
    #[error("more than 1,023 octets")]
    NameTooLong,
}

/// A full name: the components after `/.:`, each a simple name, which are none for the root of the
/// cell. It is spelled in at most 1,023 octets.
#[derive(Debug)]
pub struct FullName {
    components: Vec<SimpleName>,
}

impl Drop for FullName {
    fn drop(self) {
        let FullName {
            components: _components,
        } = self;
    }
}

impl Model for FullName {
    ghost use Rattle.std.specs.Prelude.{ℕ, List};
    ghost use Rattle.cell_names.specs.FullNames.{IsComponentList};

    ghost Value = { List (List ℕ) };

    ghost view = { λ v. v.components.items };

    ghost invariant = { λ v. IsComponentList v.components.items };
}

impl PartialEq for FullName {
    ghost eq = { is_name };

    ghost laws = { Prim.search (comparing, rules) };

    fn eq(&self, other: &FullName) -> bool {
        self.components.as_slice() == other.components.as_slice()
    }
}

impl Eq for FullName {
    ghost laws = { Prim.search (comparing, rules) };
}

impl Hash for FullName {
    ghost hash_input = { λ v. fed.slice (fed.slice fed.u8) v };

    ghost respects_eq = { (items_Alike {F = fed.slice fed.u8} (record { fed = Prim.search (hashing, rules) })).fed };

    fn hash<H: Hasher>(&self, state: &mut H) {
        self.components.as_slice().hash(state);
    }
}

impl FullName {
    /// Whether octets are a full name, and else what is wrong: no octets (Empty at 1), not `/.:`
    /// and nothing that begins with `/.:/` (NotLocal), more than 1,023 octets (NameTooLong), and
    /// then from left to right a component that ends where it begins (Empty), an octet that no name
    /// has (BadOctet) or the 255th octet of a component (ComponentTooLong). Takes no memory.
    pub fn check(octets: &[u8]) -> Result<(), NameFault>
        ensures { result ≡ ok_unless (name_fault octets.now) tt }
    {
        if octets.is_empty() {
            return Err(NameFault::Empty(1));
        }
        if octets == ROOT {
            return Ok(());
        }
        if !octets.starts_with(ROOT_SLASH) {
            return Err(NameFault::NotLocal);
        }
        if octets.len() > LONGEST_NAME {
            return Err(NameFault::NameTooLong);
        }
        check_components(&octets[ROOT_SLASH.len()..])
    }

    /// The full name of these octets, or their fault, which is that of `check`. No memory is asked
    /// for where there is a fault.
    pub fn parse(alloc: Global, octets: &[u8]) -> Result<FullName, AllocOr<NameFault>>
        ensures answer { Answers result
            (ok_unless (name_fault octets.now) (components_of octets.now)) }
        ensures faulty { IfSome (name_fault octets.now) (λ fault. result ≡ Err (Fault fault)) }
    {
        FullName::check(octets).map_err(AllocOr::Fault)?;
        Ok(FullName::known(alloc, octets)?)
    }

    /// The full name of octets that are known to be one: only memory can be wanting.
    pub fn known(alloc: Global, octets: &[u8]) -> Result<FullName, AllocError>
        requires { name_fault octets.now ≡ None }
        ensures { IfOk result (λ v. v ≡ components_of octets.now) }
    {
        Ok(FullName {
            components: components_in(alloc, octets)?,
        })
    }

    /// How many components there are.
    pub fn len(&self) -> usize
        ensures { result ≡ length self.now }
    {
        self.components.len()
    }

    /// The component at this place, counted from 0.
    pub fn component(&self, n: usize) -> Option<&SimpleName>
        ensures value { option_copied result ≡ slice_get self.now n }
        ensures there { IsSome result ↔ (n < length self.now) }
    {
        self.components.get(n)
    }

    /// The components, from the root on.
    pub fn components(&self) -> &[SimpleName]
        ensures value { result.now ≡ self.now }
        ensures lawful { IsComponentList result.now }
    {
        &self.components
    }

    /// The octets that spell the name.
    pub fn print(&self, alloc: Global) -> Result<Vec<u8>, AllocError>
        ensures spelled { IfOk result (λ v. v.items ≡ full_name_octets self.now) }
        ensures lawful { IfOk result (λ v. name_fault v.items ≡ None) }
        ensures read { IfOk result (λ v. components_of v.items ≡ self.now) }
    {
        let mut octets = Vec::with_capacity(alloc, self.spelled_len())?;
        self.append_spelling(&mut octets)?;
        Ok(octets)
    }

    /// Puts the octets that spell the name after others. After it ran out of memory some of them
    /// may be there.
    pub fn append_spelling(&self, octets: &mut Vec<u8>) -> Result<(), AllocError>
        ensures ok { OnOk result
            (octets.new.items ≡ octets.old.items ++ full_name_octets self.now) }
        ensures err { OnErr result
            (take (length octets.old.items) octets.new.items ≡ octets.old.items) }
    {
        octets.extend_from_slice(ROOT)?;
        let components = self.components();
        for component in components {
            octets.push(b'/')?;
            octets.extend_from_slice(component.octets())?;
        }
        Ok(())
    }

    /// How many octets spell the name.
    pub fn spelled_len(&self) -> usize
        ensures value { result ≡ length (full_name_octets self.now) }
        ensures within { result ≤ longest_name }
        ensures lawful { IsComponentList self.now }
    {
        LONGEST_NAME - self.room()
    }

    /// Whether octets spell the name. Takes no memory.
    pub fn is_spelled(&self, octets: &[u8]) -> bool
        ensures value { result ≡ is_octets (full_name_octets self.now) octets.now }
        ensures lawful { IsComponentList self.now }
    {
        spell(octets, self.components())
    }

    // How many octets more a full name may have.
    fn room(&self) -> usize
        ensures value { result + length (full_name_octets self.now) ≡ longest_name }
        ensures lawful { IsComponentList self.now }
    {
        room_behind(LONGEST_NAME - ROOT.len(), &self.components).unwrap()
    }

    /// The name with these components after its own.
    pub fn splice(
        &self,
        alloc: Global,
        rest: &[SimpleName],
    ) -> Result<FullName, AllocOr<SpliceFault>>
        ensures answer { let all = self.now ++ rest.now in
            Answers result (ok_unless (splice_fault all) all) }
        ensures faulty { IfSome (splice_fault (self.now ++ rest.now))
            (λ fault. result ≡ Err (Fault fault)) }
    {
        self.check_splice(rest).map_err(AllocOr::Fault)?;
        Ok(FullName {
            components: copies_of(alloc, self.components(), rest)?,
        })
    }

    // Whether these components may stand after the name's own.
    fn check_splice(&self, rest: &[SimpleName]) -> Result<(), SpliceFault>
        ensures lawful { OnOk result (IsComponentList (self.now ++ rest.now)) }
        ensures value { result ≡ ok_unless (splice_fault (self.now ++ rest.now)) tt }
    {
        match room_behind(self.room(), rest) {
            Some(_) => Ok(()),
            None => Err(SpliceFault::NameTooLong),
        }
    }

    /// The name without its last component. That of the root has none, and stays.
    pub fn without_last(mut self) -> FullName
        ensures { result ≡ take (length self - 1) self }
    {
        self.components.pop();
        self
    }

    /// Another full name of the same components.
    pub fn copy(&self, alloc: Global) -> Result<FullName, AllocError>
        ensures { IfOk result (λ v. v ≡ self.now) }
    {
        Ok(FullName {
            components: copies_of(alloc, self.components(), &[])?,
        })
    }
}

// The components of octets that are a full name.
fn components_in(alloc: Global, octets: &[u8]) -> Result<Vec<SimpleName>, AllocError>
    requires { name_fault octets.now ≡ None }
    ensures value { IfOk result (λ v. v.items ≡ components_of octets.now) }
    ensures lawful { OnOk result (IsComponentList (components_of octets.now)) }
{
    let behind = &octets[ROOT.len()..];
    let count = behind.iter().filter(|octet| **octet == b'/').count();
    let mut components = Vec::with_capacity(alloc, count)?;
    for component in behind.split(|octet| *octet == b'/').skip(1) {
        components.push(SimpleName::known(alloc, component)?)?;
    }
    Ok(components)
}

// Copies of names, and of others after them.
fn copies_of(
    alloc: Global,
    names: &[SimpleName],
    others: &[SimpleName],
) -> Result<Vec<SimpleName>, AllocError>
    ensures { IfOk result (λ v. v.items ≡ names.now ++ others.now) }
{
    let mut copies = Vec::with_capacity(alloc, names.len() + others.len())?;
    append_copies(alloc, &mut copies, names)?;
    append_copies(alloc, &mut copies, others)?;
    Ok(copies)
}

// Puts copies of names after others. After it ran out of memory some of the copies may be there.
fn append_copies(
    alloc: Global,
    names: &mut Vec<SimpleName>,
    others: &[SimpleName],
) -> Result<(), AllocError>
    ensures { OnOk result (names.new.items ≡ names.old.items ++ others.now) }
{
    for name in others {
        names.push(name.copy(alloc)?)?;
    }
    Ok(())
}

#[tactic(auto, using(crate::proofs::Spellings::spelled_more))]
// What is left of so much room after these components, each with its slash; none where they don't
// fit.
fn room_behind(room: usize, components: &[SimpleName]) -> Option<usize>
    ensures left { let taken = length (behind_slashes components.now) in
        SomeIff result (taken ≤ room) (room - taken) }
    ensures simple { OnSome result (All IsSimpleName components.now) }
{
    let mut room = room;
    for component in components {
        room = room.checked_sub(component.octets().len() + 1)?;
    }
    Some(room)
}

// Whether octets after the first slash are components with a slash between any two.
fn check_components(octets: &[u8]) -> Result<(), NameFault>
    ensures { result ≡ ok_unless
        (components_fault first_component (slice_split (λ b. b == slash) octets.now)) tt }
{
    let mut taken = 0;
    for (i, octet) in octets.iter().enumerate() {
        let place = FIRST_COMPONENT + i;
        if *octet == b'/' {
            if taken == 0 {
                return Err(NameFault::Empty(place));
            }
            taken = 0;
        } else if !is_name_octet(*octet) {
            return Err(NameFault::BadOctet(place));
        } else if taken == LONGEST_COMPONENT {
            return Err(NameFault::ComponentTooLong(place));
        } else {
            taken += 1;
        }
    }
    if taken == 0 {
        return Err(NameFault::Empty(FIRST_COMPONENT + octets.len()));
    }
    Ok(())
}
