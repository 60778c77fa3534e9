// Merges of tables, and of the entry of one name, up to a stamp.
ghost use Rattle.std.specs.Prelude.{◌≡◌, ℕ, List, Some, None, IfSome, OnOk, OnErr, if◌then◌else◌};
ghost use Rattle.std.specs.FinMap as map;
ghost use Rattle.cds_stamps.specs.Octets.{is_octets};
ghost use Rattle.directory.specs.Applied.{JoinsEntry, LeavesOthers};
ghost use Rattle.directory.specs.Entries.{IsValidEntry};
ghost use Rattle.directory.specs.Purges.{after_entry, purged_table, take_entry, take_table};
ghost use Rattle.purge_rule.specs.Replicas.{merged_entry, MergesTable};

use cds_stamps::{Lattice, Stamp};
use directory::{Excerpt, Fragment, Table, is_passed};
use std::alloc::{AllocError, Global};

/// Merges another table in, up to a stamp, if there is one.
pub(crate) fn merge_table(
    own: &mut Table,
    alloc: Global,
    other: &Table,
    up_to: Option<Stamp>,
) -> Result<(), AllocError>
    ensures { MergesTable up_to own.old own.new other.now result }
{
    match up_to {
        Some(t) => take_table(own, alloc, other, t),
        None => own.join(alloc, other),
    }
}

/// Takes of another table what is later than t, and then drops deletions up to t, since what is
/// dropped could not come back where memory runs out.
fn take_table(own: &mut Table, alloc: Global, other: &Table, t: Stamp) -> Result<(), AllocError>
    ensures ok { OnOk result (own.new ≡ purged_table t (take_table t own.old other.now)) }
    ensures err { OnErr result (own.new ≡ own.old) }
{
    let t = &t;
    own.take_up_to(alloc, other, *t)?;
    own.drop_up_to(*t);
    Ok(())
}

/// Merges an excerpt in, up to a stamp, if there is one.
pub(crate) fn merge_excerpt(
    own: &mut Table,
    alloc: Global,
    other: &Excerpt,
    up_to: Option<Stamp>,
) -> Result<(), AllocError>
    ensures { MergesTable up_to own.old own.new other.now result }
{
    match up_to {
        Some(t) => take_excerpt(own, alloc, other, t),
        None => own.join_excerpt(alloc, other),
    }
}

/// Takes of an excerpt what is later than t, and then drops deletions up to t, as `take_table`
/// does.
fn take_excerpt(own: &mut Table, alloc: Global, other: &Excerpt, t: Stamp) -> Result<(), AllocError>
    ensures ok { OnOk result (own.new ≡ purged_table t (take_table t own.old other.now)) }
    ensures err { OnErr result (own.new ≡ own.old) }
{
    let t = &t;
    own.take_excerpt_up_to(alloc, other, *t)?;
    Table::drop_up_to(own, *t);
    Ok(())
}

/// Takes of the entry of one name what is later than t, unless it is passed by. An entry that is
/// not valid is left out. Nothing is copied where all of it is later.
fn take_entry(
    own: &mut Table,
    alloc: Global,
    fragment: &Fragment,
    t: Stamp,
) -> Result<(), AllocError>
    ensures ok { OnOk result (let f = fragment.now in IfSome (map.get own.old f.name) IsValidEntry
        → IsValidEntry f.entry →
        (q : List ℕ)
        → map.get own.new q
        ≡ take_entry t (map.get own.old q) (if is_octets q f.name then Some f.entry else None)) }
    ensures others { OnOk result (LeavesOthers own.old own.new fragment.now.name) }
    ensures left_out { OnOk result ((IsValidEntry fragment.now.entry → ⊥) → own.new ≡ own.old) }
    ensures err { OnErr result (own.new ≡ own.old) }
{
    let t = &t;
    if is_passed(own.get(&fragment.name), &fragment.entry, *t) {
        return Ok(());
    }
    if fragment.entry.is_after(*t) {
        return own.join_entry(alloc, fragment);
    }
    if !fragment.entry.is_valid() {
        return Ok(());
    }
    join_later(own, alloc, fragment, *t)
}

/// Joins a copy in of what is later than t of the entry of one name.
fn join_later(
    own: &mut Table,
    alloc: Global,
    fragment: &Fragment,
    t: Stamp,
) -> Result<(), AllocError>
    ensures ok { OnOk result (let f = fragment.now in
        JoinsEntry own.old own.new f.name (after_entry t f.entry)) }
    ensures others { OnOk result (LeavesOthers own.old own.new fragment.now.name) }
    ensures err { OnErr result (own.new ≡ own.old) }
{
    let t = &t;
    let later = Fragment {
        name: fragment.name.copy(alloc)?,
        entry: fragment.entry.after(alloc, *t)?,
    };
    own.join_entry(alloc, &later)
}

/// Merges the entry of one name in, up to a stamp, if there is one. An entry that is not valid is
/// left out.
pub(crate) fn merge_entry(
    own: &mut Table,
    alloc: Global,
    fragment: &Fragment,
    up_to: Option<Stamp>,
) -> Result<(), AllocError>
    ensures ok { OnOk result (let f = fragment.now in IfSome (map.get own.old f.name) IsValidEntry
        → IsValidEntry f.entry →
        (q : List ℕ)
        → map.get own.new q
        ≡ merged_entry up_to (map.get own.old q)
        (if is_octets q f.name then Some f.entry else None)) }
    ensures others { OnOk result (LeavesOthers own.old own.new fragment.now.name) }
    ensures left_out { OnOk result ((IsValidEntry fragment.now.entry → ⊥) → own.new ≡ own.old) }
    ensures err { OnErr result (own.new ≡ own.old) }
{
    match up_to {
        Some(t) => take_entry(own, alloc, fragment, t),
        None => own.join_entry(alloc, fragment),
    }
}
