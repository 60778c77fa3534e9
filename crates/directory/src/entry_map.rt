// A map of entries by name. What updates and other tables do to it is in the modules below.
ghost use Rattle.std.specs.Prelude.{◌≡◌, Some, IfOk, IfSome, OnOk, OnErr, option_copied};
ghost use Rattle.std.specs.FinMap as map;
ghost use Rattle.std.specs.BTreeMap as tree;
ghost use Rattle.std.specs.List.{fold};
ghost use Rattle.std.specs.Option.{option_map};
ghost use Rattle.cds_stamps.specs.Octets.{octets_cmp};
ghost use Rattle.directory.specs.Shown.{face_of, shown_in};

mod checks;
mod drops;
mod fragments;
mod joins;
mod told;
mod updates;

use crate::entry::EntryCell;
use cds_stamps::SimpleName;
use std::alloc::{AllocError, Global};
use std::collections::BTreeMap;
use std::collections::btree_map::Iter;
use std::marker::Model;

/// So many entries are inserted one by one, which takes less time than to sort them first.
const FEW: usize = 4;

/// An entry for each simple name, in ascending order of the names.
#[derive(Drop)]
pub(crate) struct EntryMap {
    entries: BTreeMap<SimpleName, EntryCell>,
}

impl Model for EntryMap {
    ghost use Rattle.std.specs.FinMap as map;
    ghost use Rattle.cds_stamps.specs.Octets.{octets_cmp, octets_code};
    ghost use Rattle.directory.specs.Entries.{entry_code};
    ghost use Rattle.directory.specs.declared.entry.EntryCell.{EntryCell};

    ghost Value = { map.FinMap octets_cmp EntryCell };

    ghost coded = { map.code octets_code entry_code };

    ghost view = { λ m. map.from_entries m.entries.entries };
}

impl Clone for EntryMap {
    ghost is_clone = { λ x y. y ≡ x };

    fn clone(&self) -> Result<EntryMap, AllocError> {
        Ok(EntryMap {
            entries: self.entries.clone()?,
        })
    }
}

impl EntryMap {
    pub(crate) fn new(alloc: Global) -> Self
        ensures { result ≡ map.empty }
    {
        EntryMap {
            entries: BTreeMap::new(alloc),
        }
    }

    /// How many names have an entry, live or not.
    pub(crate) fn len(&self) -> usize
        ensures { result ≡ map.len self.now }
    {
        self.entries.len()
    }

    /// The names with their entries, live or not, ascending.
    pub(crate) fn iter(&self) -> Iter<'_, SimpleName, EntryCell>
        ensures { result ≡ map.entries self.now }
    {
        self.entries.iter()
    }

    /// The entry of a name, live or not.
    pub(crate) fn get(&self, name: &SimpleName) -> Option<&EntryCell>
        ensures { option_copied result ≡ map.get self.now name.now }
    {
        self.entries.get(name)
    }

    /// Gives a name this entry, whatever it had. The entry that it had.
    pub(crate) fn insert(
        &mut self,
        name: SimpleName,
        entry: EntryCell,
    ) -> Result<Option<EntryCell>, AllocError>
        ensures before { IfOk result (λ before. before ≡ map.get self.old name) }
        ensures ok { OnOk result (self.new ≡ map.insert self.old name entry) }
        ensures err { OnErr result (self.new ≡ self.old) }
    {
        Ok(self.entries.insert(name, entry)?)
    }

    /// The table of these entries, inserted in turn, and faster than that where their names ascend:
    /// each is compared with the next one alone.
    pub(crate) fn from_pairs(
        alloc: Global,
        pairs: Vec<(SimpleName, EntryCell)>,
    ) -> Result<EntryMap, AllocError>
        ensures { IfOk result (λ t. t ≡ fold (λ m p. map.insert m p.0 p.1) map.empty pairs.items) }
    {
        if pairs.len() <= FEW {
            return EntryMap::of_few(alloc, pairs);
        }
        let entries = collected(alloc, pairs)?;
        Ok(EntryMap { entries })
    }

    /// The same, of few entries.
    fn of_few(alloc: Global, pairs: Vec<(SimpleName, EntryCell)>) -> Result<EntryMap, AllocError>
        ensures { IfOk result (λ t. t ≡ fold (λ m p. map.insert m p.0 p.1) map.empty pairs.items) }
    {
        let mut entries = EntryMap::new(alloc);
        for (name, entry) in pairs {
            entries.insert(name, entry)?;
        }
        Ok(entries)
    }

    /// The entry that shows of a name. It takes no memory.
    pub(crate) fn live(&self, name: &SimpleName) -> Option<&EntryCell>
        ensures entry { IfSome (option_copied result) (λ e. map.get self.now name.now ≡ Some e) }
        ensures shown { option_map face_of (option_copied result) ≡ shown_in self.now name.now }
    {
        match self.get(name) {
            Some(entry) => entry.if_live(),
            None => None,
        }
    }
}

/// The tree of these entries, inserted in turn.
fn collected(
    alloc: Global,
    pairs: Vec<(SimpleName, EntryCell)>,
) -> Result<BTreeMap<SimpleName, EntryCell>, AllocError>
    ensures { IfOk result (tree.IsFromIterResult octets_cmp pairs.items) }
{
    pairs.into_iter().collect(alloc)
}
