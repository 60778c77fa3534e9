// The greatest time that is in a table.
ghost use Rattle.std.specs.Prelude.{◌≡◌};
ghost use Rattle.purge_rule.specs.Latest.{greatest_of, latest_in_entry, latest_in_cell, time_of};

use attr_sets::AttrCell;
use cds_stamps::{SimpleName, Stamp};
use directory::EntryCell;
use std::collections::btree_map::Iter;

/// The greatest time in these entries; 0 where there is none.
pub(crate) fn latest_in(entries: Iter<'_, SimpleName, EntryCell>) -> u64
    ensures { result ≡ greatest_of (λ e. latest_in_entry e.1) entries.entry }
{
    let mut time = 0;
    for (_, entry) in entries {
        time = time.max(latest_in_entry(entry));
    }
    time
}

/// The greatest time in an entry: of its birth, its death, its clears, and the marks of its values.
pub fn latest_in_entry(entry: &EntryCell) -> u64
    ensures { result ≡ latest_in_entry entry.now }
{
    let mut time = entry.birth.time.max(time_of(entry.death));
    for (_, cell) in entry.attrs.iter() {
        time = time.max(latest_in_cell(cell));
    }
    time
}

/// The greatest time in the cell of an attribute.
fn latest_in_cell(cell: &AttrCell) -> u64
    ensures { result ≡ latest_in_cell cell.now }
{
    let mut time = time_of(cell.cleared);
    for (_, mark) in cell.values.iter() {
        time = time.max(mark.stamp.time);
    }
    time
}

/// The time of a stamp, 0 where there is none.
pub(crate) fn time_of(stamp: Option<Stamp>) -> u64
    ensures { result ≡ time_of stamp }
{
    match stamp {
        Some(stamp) => stamp.time,
        None => 0,
    }
}
