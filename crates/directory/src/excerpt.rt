// Excerpts of tables.
ghost use Rattle.std.specs.Prelude.{◌≡◌, IfOk};
ghost use Rattle.std.specs.FinMap as map;
ghost use Rattle.std.specs.List.{fold, AllByRecursion};
ghost use Rattle.directory.specs.Entries.{IsValidEntry};

use crate::entry::EntryCell;
use crate::entry_map::EntryMap;
use cds_stamps::SimpleName;
use std::alloc::{AllocError, Global};
use std::collections::btree_map::Iter;
use std::marker::Model;

/// Entries of a table, valid, in ascending order of their names, without an index of their
/// deletions: what is read or written once.
pub struct Excerpt {
    pub(crate) entries: EntryMap,
}

impl Drop for Excerpt {
    fn drop(self) {
        let Excerpt { entries: _entries } = self;
    }
}

impl Model for Excerpt {
    ghost use Rattle.std.specs.FinMap as map;
    ghost use Rattle.cds_stamps.specs.Octets.{octets_cmp, octets_code};
    ghost use Rattle.directory.specs.Entries.{entry_code, IsValidTable};
    ghost use Rattle.directory.specs.declared.entry.EntryCell.{EntryCell};

    ghost Value = { map.FinMap octets_cmp EntryCell };

    ghost coded = { map.code octets_code entry_code };

    ghost view = { λ e. e.entries };

    ghost invariant = { λ e. IsValidTable e.entries };
}

impl Clone for Excerpt {
    ghost is_clone = { λ x y. y ≡ x };

    fn clone(&self) -> Result<Excerpt, AllocError> {
        Ok(Excerpt {
            entries: self.entries.clone()?,
        })
    }
}

impl Excerpt {
    /// How many names have an entry.
    pub fn len(&self) -> usize
        ensures { result ≡ map.len self.now }
    {
        self.entries.len()
    }

    /// The names with their entries, ascending.
    pub fn iter(&self) -> Iter<'_, SimpleName, EntryCell>
        ensures { result ≡ map.entries self.now }
    {
        self.entries.iter()
    }

    /// The excerpt of these entries, inserted in turn, and faster than that where their names
    /// ascend: each is compared with the next one alone.
    pub fn from_pairs(
        alloc: Global,
        pairs: Vec<(SimpleName, EntryCell)>,
    ) -> Result<Excerpt, AllocError>
        requires { AllByRecursion (λ p. IsValidEntry p.1) pairs.items }
        ensures { IfOk result (λ e. e ≡ fold (λ m p. map.insert m p.0 p.1) map.empty pairs.items) }
    {
        let entries = EntryMap::from_pairs(alloc, pairs)?;
        Ok(Excerpt { entries })
    }

    /// An excerpt of the same entries.
    pub fn copy(&self, _alloc: Global) -> Result<Excerpt, AllocError>
        ensures { IfOk result (λ e. e ≡ self.now) }
    {
        self.clone()
    }
}
