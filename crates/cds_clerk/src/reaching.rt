// The directories that a search did not reach, by what was heard.
ghost use Rattle.std.specs.Prelude.{◌≡◌, ◌↔◌, ◌++◌, ℕ, map, IfOk, OnOk};
ghost use Rattle.std.specs.List.{Contains, filter_map, flat_map};
ghost use Rattle.std.specs.List.Sorted.{IsStrictlySortedBy};
ghost use Rattle.std.specs.Option.{option_to_list};
ghost use Rattle.std.specs.Ordering.{nat_cmp};
ghost use Rattle.resolver.specs.declared.seen.Found.{Found};
ghost use Rattle.cds_clerk.specs.Readings.{IsShown};
ghost use Rattle.cds_clerk.specs.Searches.{AreReached, IsClosed};
ghost use Rattle.cds_clerk.specs.Unreached.{AreMissed, dir_refused, unreached_at, unreached_from};

use crate::heard::Heard;
use crate::importing::HeardReader;
use crate::searching::names_in;
use cds_stamps::{AllocOr, DirId};
use cell_names::FullName;
use resolver::{Found, Refusal, resolve};
use std::alloc::{AllocError, Global};
use tower_codec::Interface;

/// What a search is answered, and the directories that it did not reach: those of which no listed
/// house answered, in ascending order, each once. There are none if it does not begin: the answer
/// says why.
#[derive(Drop)]
pub struct Reached<T> {
    pub answer: T,
    pub unreached: Vec<DirId>,
}

// The directory of which no listed house answers, if that is why a walk is refused.
fn dir_refused(refusal: Refusal) -> Option<u32>
    ensures { result ≡ dir_refused refusal }
{
    match refusal {
        Refusal::Unreachable(dir) => Some(dir.0),
        Refusal::NoSuchName(_)
        | Refusal::NotDirectory(_)
        | Refusal::LinkCycle
        | Refusal::TooManyLinks
        | Refusal::NameTooLong
        | Refusal::RootName => None,
    }
}

// The directory of which no listed house answers, if the walk of a name is refused for that.
fn unreached_at(alloc: Global, heard: &Heard, name: &FullName) -> Result<Option<u32>, AllocError>
    ensures { IfOk result (λ o. unreached_at heard.now name.now ≡ o) }
{
    match resolve(alloc, &HeardReader { heard }, name, true) {
        Ok(_found) => Ok(None),
        Err(AllocOr::Fault(refusal)) => Ok(dir_refused(refusal)),
        Err(AllocOr::OutOfMemory) => Err(AllocError),
    }
}

// Puts a number after the others, if there is one.
fn push_some(list: &mut Vec<u32>, number: Option<u32>) -> Result<(), AllocError>
    ensures { OnOk result (list.new.items ≡ list.old.items ++ option_to_list number) }
{
    match number {
        Some(number) => Ok(list.push(number)?),
        None => Ok(()),
    }
}

// The directories that are not reached at these names.
fn unreached_among(alloc: Global, heard: &Heard, names: &[FullName]) -> Result<Vec<u32>, AllocError>
    ensures { IfOk result (λ v. v.items ≡ filter_map (unreached_at heard.now) names.now) }
{
    let mut dirs = Vec::new(alloc);
    for name in names {
        push_some(&mut dirs, unreached_at(alloc, heard, name)?)?;
    }
    Ok(dirs)
}

// The directories that are not reached from one entry.
fn unreached_from(
    alloc: Global,
    heard: &Heard,
    interface: &Interface,
    entry: &Found,
) -> Result<Vec<u32>, AllocError>
    requires { IsShown heard.now entry.now }
    ensures { IfOk result (λ v. v.items ≡ unreached_from heard.now interface.now entry.now) }
{
    let names = names_in(alloc, heard, entry, interface)?;
    let dirs = unreached_among(alloc, heard, &names)?;
    Ok(dirs)
}

// The directories that are not reached from these entries, in the order of the search.
fn all_unreached(
    alloc: Global,
    heard: &Heard,
    interface: &Interface,
    entries: &[Found],
) -> Result<Vec<u32>, AllocError>
    requires { (e : Found) → Contains entries.now e → IsShown heard.now e }
    ensures { IfOk result (λ v. v.items
        ≡ flat_map (unreached_from heard.now interface.now) entries.now) }
{
    let mut dirs = Vec::new(alloc);
    for entry in entries {
        let mut more = unreached_from(alloc, heard, interface, entry)?;
        dirs.append(&mut more)?;
    }
    Ok(dirs)
}

// The numbers in ascending order, each once.
fn in_order(mut numbers: Vec<u32>) -> Vec<u32>
    ensures ascending { IsStrictlySortedBy nat_cmp result.items }
    ensures same { (n : ℕ) → Contains result.items n ↔ Contains numbers.items n }
{
    numbers.sort_unstable();
    numbers.dedup();
    numbers
}

// The directories of these numbers.
fn dirs_of(alloc: Global, numbers: &[u32]) -> Result<Vec<DirId>, AllocError>
    ensures { IfOk result (λ v. map (λ d. d.0) v.items ≡ numbers.now) }
{
    let mut dirs = Vec::with_capacity(alloc, numbers.len())?;
    for number in numbers {
        dirs.push(DirId(*number))?;
    }
    Ok(dirs)
}

/// The directories that a closed search did not reach, by the entries to which it came.
pub(crate) fn closed_unreached(
    alloc: Global,
    heard: &Heard,
    first: &FullName,
    interface: &Interface,
    entries: &[Found],
) -> Result<Vec<DirId>, AllocError>
    requires closed { IsClosed heard.now interface.now first.now entries.now }
    requires reached { AreReached heard.now interface.now first.now entries.now }
    ensures { IfOk result (λ dirs. AreMissed heard.now interface.now first.now dirs.items) }
{
    let all = all_unreached(alloc, heard, interface, entries)?;
    let numbers = in_order(all);
    dirs_of(alloc, &numbers)
}
