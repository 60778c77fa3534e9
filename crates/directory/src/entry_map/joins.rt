// Joins of entries, in place; one of two tables is taken back where there is no memory.
ghost use Rattle.std.specs.Prelude.{◌≡◌, List, ℕ, Some, None, MatchBool, IfOk, OnOk, OnErr};
ghost use Rattle.std.specs.FinMap as map;
ghost use Rattle.cds_stamps.specs.Octets.{octets_cmp};
ghost use Rattle.cds_stamps.specs.Undos.{LogsChange, MendsAt, back_at};
ghost use Rattle.directory.specs.Applied.{JoinsEntry, LeavesOthers};
ghost use Rattle.directory.specs.Entries.{join_tables, IsValidTable};
ghost use Rattle.directory.specs.EntryUndoWords.{undo_entry};

use super::EntryMap;
use crate::entry::{EntryCell, Fragment};
use crate::undo::EntryUndo;
use cds_stamps::{Lattice, SimpleName};
use std::alloc::{AllocError, Global};

impl EntryMap {
    /// Joins what an update adds in, in place, with at most one insertion at each level of the
    /// entry: of one mark the cost grows with the logarithm of the number of entries, attributes
    /// and values.
    pub(crate) fn join_entry(
        &mut self,
        alloc: Global,
        fragment: &Fragment,
    ) -> Result<(), AllocError>
        ensures ok { OnOk result
            (JoinsEntry self.old self.new fragment.now.name fragment.now.entry) }
        ensures others { OnOk result (LeavesOthers self.old self.new fragment.now.name) }
        ensures err { OnErr result (self.new ≡ self.old) }
    {
        self.join_one(alloc, &fragment.name, &fragment.entry)?;
        Ok(())
    }

    /// Joins one entry in, in place, with at most one insertion.
    fn join_one(
        &mut self,
        alloc: Global,
        name: &SimpleName,
        entry: &EntryCell,
    ) -> Result<(), AllocError>
        ensures ok { OnOk result (JoinsEntry self.old self.new name.now entry.now) }
        ensures others { OnOk result (LeavesOthers self.old self.new name.now) }
        ensures err { OnErr result (self.new ≡ self.old) }
    {
        let here = self.join_here(alloc, name, entry)?;
        if here {
            return Ok(());
        }
        let key = name.copy(alloc)?;
        self.insert(key, entry.copy(alloc)?)?;
        Ok(())
    }

    /// Joins an entry in where the name has one. Whether it has.
    pub(super) fn join_here(
        &mut self,
        alloc: Global,
        name: &SimpleName,
        entry: &EntryCell,
    ) -> Result<bool, AllocError>
        ensures ok { IfOk result (λ here. MatchBool here
            (JoinsEntry self.old self.new name.now entry.now) ((map.get self.old name.now ≡ None)
            × (self.new ≡ self.old))) }
        ensures others { OnOk result (LeavesOthers self.old self.new name.now) }
        ensures err { OnErr result (self.new ≡ self.old) }
    {
        match self.entries.get_mut(name) {
            Some(own) => {
                own.join(alloc, entry)?;
                Ok(true)
            }
            None => Ok(false),
        }
    }

    /// Joins the entries of another table in, each logged before the next one.
    fn raise_all(
        &mut self,
        alloc: Global,
        other: &EntryMap,
        log: &mut Vec<(SimpleName, Option<EntryUndo>)>,
    ) -> Result<(), AllocError>
        ensures ok { OnOk result (IsValidTable self.old → IsValidTable other.now
            → self.new ≡ join_tables self.old other.now) }
        ensures back { LogsChange undo_entry self.old self.new log.old.items log.new.items }
    {
        for (name, entry) in other.entries.iter() {
            self.raise_logged(alloc, name, entry, log)?;
        }
        Ok(())
    }

    /// Joins one entry in, and logs the change, if it is one: one look-up of a name that is there,
    /// and two of a new one. Room in the log comes first.
    pub(crate) fn raise_logged(
        &mut self,
        alloc: Global,
        name: &SimpleName,
        entry: &EntryCell,
        log: &mut Vec<(SimpleName, Option<EntryUndo>)>,
    ) -> Result<(), AllocError>
        ensures ok { OnOk result (JoinsEntry self.old self.new name.now entry.now) }
        ensures back { LogsChange undo_entry self.old self.new log.old.items log.new.items }
    {
        let here = self.raise_here(alloc, name, entry, log)?;
        if here {
            return Ok(());
        }
        self.raise_new(alloc, name, entry, log)
    }

    /// Joins an entry in where the name has one, and logs the change, if it is one. Whether it has.
    fn raise_here(
        &mut self,
        alloc: Global,
        name: &SimpleName,
        entry: &EntryCell,
        log: &mut Vec<(SimpleName, Option<EntryUndo>)>,
    ) -> Result<bool, AllocError>
        ensures ok { IfOk result
            (λ here. MatchBool here (JoinsEntry self.old self.new name.now entry.now)
            ((map.get self.old name.now ≡ None) × (self.new ≡ self.old)
            × (log.new.items ≡ log.old.items))) }
        ensures back { LogsChange undo_entry self.old self.new log.old.items log.new.items }
    {
        let Some(own) = self.entries.get_mut(name) else {
            return Ok(false);
        };
        if own.outdates(entry) {
            return Ok(true);
        }
        log.reserve(1)?;
        let key = name.copy(alloc)?;
        let undo = own.join_logged(alloc, entry)?;
        log.push((key, Some(undo))).unwrap();
        Ok(true)
    }

    /// Gives a name that has no entry this one, and logs that.
    fn raise_new(
        &mut self,
        alloc: Global,
        name: &SimpleName,
        entry: &EntryCell,
        log: &mut Vec<(SimpleName, Option<EntryUndo>)>,
    ) -> Result<(), AllocError>
        requires { map.get self.old name.now ≡ None }
        ensures ok { OnOk result (JoinsEntry self.old self.new name.now entry.now) }
        ensures back { LogsChange undo_entry self.old self.new log.old.items log.new.items }
    {
        log.reserve(1)?;
        let key = name.copy(alloc)?;
        let logged = name.copy(alloc)?;
        let value = entry.copy(alloc)?;
        self.insert(key, value)?;
        log.push((logged, None)).unwrap();
        Ok(())
    }

    /// Takes the changes of a log back, with no memory.
    pub(crate) fn take_back(&mut self, log: Vec<(SimpleName, Option<EntryUndo>)>)
        ensures { (q : List ℕ)
            → map.get self.new q ≡ back_at octets_cmp undo_entry log.items q (map.get self.old q) }
    {
        let mut log = log;
        while let Some((name, undo)) = log.pop() {
            self.mend(&name, undo);
        }
    }

    fn mend(&mut self, name: &SimpleName, undo: Option<EntryUndo>)
        ensures { MendsAt undo_entry self.old self.new name.now undo }
    {
        match undo {
            Some(undo) => self.mend_here(name, undo),
            None => {
                self.remove(name);
            }
        }
    }

    fn mend_here(&mut self, name: &SimpleName, undo: EntryUndo)
        ensures { MendsAt undo_entry self.old self.new name.now (Some undo) }
    {
        if let Some(own) = self.entries.get_mut(name) {
            own.take_back(undo);
        }
    }

    fn remove(&mut self, name: &SimpleName) -> Option<EntryCell>
        ensures { MendsAt undo_entry self.old self.new name.now None }
    {
        self.entries.remove(name)
    }

    /// Joins the entries of another table in.
    pub(crate) fn join(&mut self, alloc: Global, other: &EntryMap) -> Result<(), AllocError>
        ensures ok { OnOk result (IsValidTable self.old → IsValidTable other.now
            → self.new ≡ join_tables self.old other.now) }
        ensures err { OnErr result (self.new ≡ self.old) }
    {
        let mut log = Vec::new(alloc);
        if let Err(error) = self.raise_all(alloc, other, &mut log) {
            self.take_back(log);
            return Err(error);
        }
        Ok(())
    }
}
