// The entries that a search comes to by what was heard.
ghost use Rattle.std.specs.Prelude.{◌≡◌, [], ◌∷◌, ◌++◌, true, None, IfOk, IfSome, OnOk};
ghost use Rattle.std.specs.List.{Contains, list_any};
ghost use Rattle.cds_stamps.specs.Names.{attr_fault};
ghost use Rattle.ns_import.specs.Imports.{names_of};
ghost use Rattle.cds_clerk.specs.Heards.{heard_root};
ghost use Rattle.cds_clerk.specs.Readings.{IsShown, least_reader};
ghost use Rattle.cds_clerk.specs.Searches.{AreAll, AreAsked, AreReached, IfClosed, IfLost, IfMisses, IsClosed, IsSought, Settles, object_in, same_lack, with_lack};

use crate::heard::{Heard, Lack};
use crate::reading::values_in;
use crate::walking::{Walked, walk};
use cds_stamps::AttrName;
use cell_names::FullName;
use directory::Kind;
use ns_groups::{GROUP, members};
use ns_profiles::{PROFILE, elements_for};
use resolver::laws::ends_are_seen;
use resolver::{End, Found};
use script_answers::Values;
use std::alloc::{AllocError, Global};
use tower_codec::Interface;

/// What a search comes to by what was heard: what it is for, or all that was not heard yet.
#[derive(Drop)]
pub enum Searched<T> {
    Closed(T),
    /// Where the root directory is.
    LacksRoot,
    Lacks(Vec<Lack>),
}

// The object that the end of a walk is.
fn object_in(end: End) -> Option<Found>
    ensures { result ≡ object_in end }
{
    match end {
        End::Found(found) => match found.kind {
            Kind::Object => Some(found),
            Kind::Link | Kind::Child => None,
        },
        End::Missing(_, _) | End::Refused(_) => None,
    }
}

// Whether two objects are one.
#[tactic(auto, using(crate::proofs::SearchLaws::same_object))]
fn is_same(a: &Found, b: &Found) -> bool
    ensures { result ≡ true → a.now ≡ b.now }
{
    match (a.kind, b.kind) {
        (Kind::Object, Kind::Object) => a.dir == b.dir && a.house == b.house && a.name == b.name,
        _ => false,
    }
}

// Whether a search came to an object before.
fn is_known(entries: &[Found], found: &Found) -> bool
    ensures { result ≡ true → Contains entries.now found.now }
{
    for entry in entries {
        if is_same(entry, found) {
            return true;
        }
    }
    false
}

// The values of an attribute of this name that an entry shows.
fn shown_in(alloc: Global, heard: &Heard, found: &Found, attr: &[u8]) -> Result<Values, AllocError>
    requires shown { IsShown heard.now found.now }
    requires named { attr_fault attr.now ≡ None }
    ensures { IfOk result (λ vs. vs ≡ (least_reader heard.now).values found.now attr.now) }
{
    let attr = AttrName::known(alloc, attr)?;
    let values = values_in(alloc, heard, found, &attr)?;
    Ok(values)
}

// The names at which a search goes on from an entry.
pub(crate) fn names_in(
    alloc: Global,
    heard: &Heard,
    found: &Found,
    interface: &Interface,
) -> Result<Vec<FullName>, AllocError>
    requires { IsShown heard.now found.now }
    ensures { IfOk result (λ v. v.items
        ≡ names_of (least_reader heard.now) interface.now found.now) }
{
    let group = shown_in(alloc, heard, found, GROUP)?;
    let profile = shown_in(alloc, heard, found, PROFILE)?;
    let mut names = members(alloc, group.list())?;
    let mut more = elements_for(alloc, profile.list(), interface)?;
    names.append(&mut more)?;
    Ok(names)
}

// Enters an object: the names at which a search goes on from it wait.
fn enter(
    alloc: Global,
    heard: &Heard,
    interface: &Interface,
    found: Found,
    entries: &mut Vec<Found>,
    names: &mut Vec<FullName>,
) -> Result<(), AllocError>
    requires { IsShown heard.now found }
    ensures names { OnOk result (names.new.items
        ≡ names.old.items ++ names_of (least_reader heard.now) interface.now found) }
    ensures entries { OnOk result (entries.new.items ≡ entries.old.items ++ found ∷ []) }
{
    let mut more = names_in(alloc, heard, &found, interface)?;
    names.append(&mut more)?;
    entries.push(found)?;
    Ok(())
}

// Goes on from the end of a walk: at an object, unless the search came to it before.
fn settle(
    alloc: Global,
    heard: &Heard,
    interface: &Interface,
    end: End,
    entries: &mut Vec<Found>,
    names: &mut Vec<FullName>,
) -> Result<(), AllocError>
    requires { IfSome (object_in end) (IsShown heard.now) }
    ensures { OnOk result (Settles heard.now interface.now end
        entries.old.items names.old.items entries.new.items names.new.items) }
{
    let Some(found) = object_in(end) else {
        return Ok(());
    };
    if is_known(entries, &found) {
        return Ok(());
    }
    enter(alloc, heard, interface, found, entries, names)
}

// Whether it is what the same house says of the same name.
fn is_same_lack(a: &Lack, b: &Lack) -> bool
    ensures { result ≡ same_lack a.now b.now }
{
    a.dir == b.dir && a.house == b.house && a.name == b.name
}

// Whether it is known that this lacks.
fn is_missed(lacks: &[Lack], lack: &Lack) -> bool
    ensures { result ≡ list_any (λ q. same_lack q lack.now) lacks.now }
{
    for other in lacks {
        if is_same_lack(other, lack) {
            return true;
        }
    }
    false
}

// Notes that this lacks, too.
fn miss(lacks: &mut Vec<Lack>, lack: Lack) -> Result<(), AllocError>
    ensures { OnOk result (lacks.new.items ≡ with_lack lacks.old.items lack) }
{
    if is_missed(lacks, &lack) {
        return Ok(());
    }
    Ok(lacks.push(lack)?)
}

// The name at which a search begins.
fn begun(alloc: Global, first: &FullName) -> Result<Vec<FullName>, AllocError>
    ensures { IfOk result (λ v. v.items ≡ first.now ∷ []) }
{
    let mut names = Vec::new(alloc);
    names.push(first.copy(alloc)?)?;
    Ok(names)
}

/// Searches from a name on, by what was heard. A name whose walk lacks something is passed over, so
/// that what lacks of others is found, too.
#[tactic(auto, using(crate::proofs::SearchLaws::way_all, crate::proofs::SearchLaws::way_asks, crate::proofs::SearchLaws::way_closed, crate::proofs::SearchLaws::way_reached))]
pub(crate) fn search(
    alloc: Global,
    heard: &Heard,
    first: &FullName,
    interface: &Interface,
) -> Result<Searched<Vec<Found>>, AllocError>
    ensures closed { IfOk result (λ s. IfClosed s
        (λ entries. IsClosed heard.now interface.now first.now entries.items)) }
    ensures reached { IfOk result (λ s. IfClosed s
        (λ entries. AreReached heard.now interface.now first.now entries.items)) }
    ensures asks { IfOk result (λ s. IfMisses s
        (AreAsked heard.now (IsSought heard.now interface.now first.now))) }
    ensures all { IfOk result (λ s. IfMisses s (AreAll heard.now interface.now first.now)) }
    ensures root { IfOk result (λ s. IfLost s (heard_root heard.now.root ≡ None)) }
{
    ends_are_seen();
    let mut entries = Vec::new(alloc);
    let mut lacks = Vec::new(alloc);
    let mut names = begun(alloc, first)?;
    'steps: for _ in 0..u64::MAX {
        let Some(name) = names.pop() else {
            if lacks.is_empty() {
                return Ok(Searched::Closed(entries));
            }
            return Ok(Searched::Lacks(lacks));
        };
        match walk(alloc, heard, &name, true)? {
            Walked::Ended(end) => {
                settle(alloc, heard, interface, end, &mut entries, &mut names)?;
            }
            Walked::LacksRoot => return Ok(Searched::LacksRoot),
            Walked::Lacks(lack) => miss(&mut lacks, lack)?,
        }
    }
    Err(AllocError)
}
