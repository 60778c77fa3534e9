// What of a table is later than a stamp, and what of that another table takes.
ghost use Rattle.std.specs.Prelude.{◌≡◌, ℕ, List, IsTrue, IfSome, IfOk, OnOk, OnErr, Some, None, false, if◌then◌else◌, option_copied};
ghost use Rattle.std.specs.FinMap as map;
ghost use Rattle.cds_stamps.specs.Semilattice.{maybe};
ghost use Rattle.cds_stamps.specs.Octets.{is_octets};
ghost use Rattle.directory.specs.Applied.{JoinsEntry, LeavesOthers};
ghost use Rattle.directory.specs.Entries.{join_entries, IsValidEntry, IsValidTable};
ghost use Rattle.directory.specs.IndexWords.{IsIndexed, IsKnown, IsLogged, Keeps, KnowsAll, insert_each};
ghost use Rattle.directory.specs.Purges.{delta_entry, delta_table, holds, is_passed, take_entry, take_table};

use crate::deletions::Deletions;
use crate::entry::EntryCell;
use crate::entry_map::EntryMap;
use crate::undo::EntryUndo;
use cds_stamps::{SimpleName, Stamp};
use std::alloc::{AllocError, Global};

/// Joins in what of other entries is later than t, and its deletions.
pub(crate) fn take_later(
    entries: &mut EntryMap,
    deletions: &mut Deletions,
    alloc: Global,
    other: &EntryMap,
    t: Stamp,
) -> Result<(), AllocError>
    requires { IsValidTable other.now }
    ensures ok { OnOk result (IsValidTable entries.old
        → entries.new ≡ take_table t entries.old other.now) }
    ensures err { OnErr result (entries.new ≡ entries.old) }
    ensures index { IsIndexed deletions.old entries.old → IsIndexed deletions.new entries.new }
{
    let mut log = Vec::new(alloc);
    if let Err(error) = take_each(entries, deletions, alloc, other, t, &mut log) {
        entries.take_back(log);
        deletions.settle(entries);
        return Err(error);
    }
    deletions.settle(entries);
    Ok(())
}

/// Joins in what of each other entry is later than t, logged before the next one, and adds its
/// deletions.
fn take_each(
    entries: &mut EntryMap,
    deletions: &mut Deletions,
    alloc: Global,
    other: &EntryMap,
    t: Stamp,
    log: &mut Vec<(SimpleName, Option<EntryUndo>)>,
) -> Result<(), AllocError>
    ensures ok { OnOk result (IsValidTable entries.old → IsValidTable other.now
        → entries.new ≡ take_table t entries.old other.now) }
    ensures knows { OnOk result (IsValidTable other.now → IsKnown deletions.old entries.old
        → IsKnown deletions.new entries.new) }
    ensures logged { IsLogged entries.old entries.new deletions.old deletions.new log.old.items
        log.new.items }
{
    let t = &t;
    for (name, entry) in other.iter() {
        take_one(entries, deletions, alloc, name, entry, *t, log)?;
    }
    Ok(())
}

/// Joins in what of one other entry is later than t, unless it is passed by or changes nothing. A
/// copy is made only where not all of it is later.
fn take_one(
    entries: &mut EntryMap,
    deletions: &mut Deletions,
    alloc: Global,
    name: &SimpleName,
    entry: &EntryCell,
    t: Stamp,
    log: &mut Vec<(SimpleName, Option<EntryUndo>)>,
) -> Result<(), AllocError>
    ensures ok { let own = map.get entries.old name.now in
        OnOk result (IfSome own IsValidEntry → IsValidEntry entry.now → (q : List ℕ)
        → map.get entries.new q
        ≡ take_entry t (map.get entries.old q)
        (if is_octets q name.now then Some entry.now else None)) }
    ensures knows { OnOk result (IsKnown deletions.old entries.old → IsValidEntry entry.now
        → IsKnown deletions.new entries.new) }
    ensures logged { IsLogged entries.old entries.new deletions.old deletions.new log.old.items
        log.new.items }
{
    let t = &t;
    if is_known(entries.get(name), entry, *t) {
        return Ok(());
    }
    if entry.is_after(*t) {
        return raise_known(entries, deletions, alloc, name, entry, log);
    }
    let later = entry.after(alloc, *t)?;
    raise_known(entries, deletions, alloc, name, &later, log)
}

/// Joins one entry in, logged, and adds its deletions.
fn raise_known(
    entries: &mut EntryMap,
    deletions: &mut Deletions,
    alloc: Global,
    name: &SimpleName,
    entry: &EntryCell,
    log: &mut Vec<(SimpleName, Option<EntryUndo>)>,
) -> Result<(), AllocError>
    ensures ok { OnOk result (JoinsEntry entries.old entries.new name.now entry.now) }
    ensures knows { OnOk result (IsKnown deletions.old entries.old → IsValidEntry entry.now
        → IsKnown deletions.new entries.new) }
    ensures logged { IsLogged entries.old entries.new deletions.old deletions.new log.old.items
        log.new.items }
{
    deletions.add_entry(alloc, name, entry)?;
    entries.raise_logged(alloc, name, entry, log)
}

/// Adds the deletions of all entries.
pub(crate) fn add_deletions(
    deletions: &mut Deletions,
    alloc: Global,
    entries: &EntryMap,
) -> Result<(), AllocError>
    ensures keeps { Keeps deletions.old deletions.new }
    ensures ok { OnOk result (KnowsAll deletions.new entries.now) }
    ensures room { deletions.new.most ≡ deletions.old.most }
{
    for (name, entry) in entries.iter() {
        deletions.add_entry(alloc, name, entry)?;
    }
    Ok(())
}

/// What of each entry is later than t, with its birth: a copy of that, and of nothing else. Entries
/// of which a birth up to t alone is left are not in it.
pub(crate) fn later_entries(alloc: Global, own: &EntryMap, t: Stamp) -> Result<EntryMap, AllocError>
    ensures { IfOk result (λ d. d ≡ delta_table (Some t) own.now) }
{
    let t = &t;
    let mut later = Vec::new(alloc);
    for (name, entry) in own.iter() {
        put_delta(&mut later, alloc, name, entry, *t)?;
    }
    EntryMap::from_pairs(alloc, later)
}

/// Puts what is later than t of the entry of a name after that of other names, unless it is a birth
/// up to t alone.
fn put_delta(
    later: &mut Vec<(SimpleName, EntryCell)>,
    alloc: Global,
    name: &SimpleName,
    entry: &EntryCell,
    t: Stamp,
) -> Result<(), AllocError>
    ensures here { OnOk result (map.get (insert_each later.old.items) name.now ≡ None →
        map.get (insert_each later.new.items) name.now ≡ delta_entry t entry.now) }
    ensures others { OnOk result (
        LeavesOthers (insert_each later.old.items) (insert_each later.new.items) name.now) }
{
    let t = &t;
    if !entry.is_old(*t) {
        later.push((name.copy(alloc)?, entry.after(alloc, *t)?))?;
    }
    Ok(())
}

/// Whether nothing is taken up to t of an entry, beside the one that its name has: it is passed by,
/// or changes nothing.
fn is_known(own: Option<&EntryCell>, entry: &EntryCell, t: Stamp) -> bool
    ensures known { IsTrue result → IfSome (option_copied own.entry) IsValidEntry
        → IsValidEntry entry.now →
        take_entry t (option_copied own.entry) (Some entry.now) ≡ option_copied own.entry }
    ensures new { result ≡ false → is_passed t (option_copied own.entry) entry.now ≡ false }
{
    is_passed(own, entry, t) || outdates(own, entry)
}

/// Whether an entry is passed by: it was born up to t, and it is not the one that its name has.
pub fn is_passed(own: Option<&EntryCell>, entry: &EntryCell, t: Stamp) -> bool
    ensures { result ≡ is_passed t (option_copied own.entry) entry.now }
{
    !(t < entry.birth) && !holds(own, entry.birth)
}

/// Whether the entry that a name has, if any, was born at this stamp.
fn holds(own: Option<&EntryCell>, birth: Stamp) -> bool
    ensures { result ≡ holds (option_copied own.entry) birth }
{
    match own {
        Some(own) => own.birth == birth,
        None => false,
    }
}

/// Whether joining an entry into the one that a name has, if any, changes nothing.
fn outdates(own: Option<&EntryCell>, entry: &EntryCell) -> bool
    ensures { IsTrue result → IfSome (option_copied own.entry) IsValidEntry → IsValidEntry entry.now
        →
        maybe join_entries (option_copied own.entry) (Some entry.now) ≡ option_copied own.entry }
{
    match own {
        Some(own) => own.outdates(entry),
        None => false,
    }
}
