// Deletions: which of them a map has, and how one is dropped.
ghost use Rattle.std.specs.Prelude.{◌≡◌, ◌-◌, min, true, if◌then◌else◌};
ghost use Rattle.std.specs.FinMap as map;
ghost use Rattle.directory.specs.Deletions.{has_deletion, is_lost, is_of_attr, without, change_at, entry_without};
ghost use Rattle.directory.specs.Held.{held_in, most_held};
ghost use Rattle.directory.specs.declared.deletions.What.TheVariants as what;

use super::EntryMap;
use crate::deletions::{Deletion, What};
use cds_stamps::{SimpleName, Stamp};

impl EntryMap {
    /// Whether it has this deletion.
    pub(crate) fn has(&self, deletion: &Deletion) -> bool
        ensures { result ≡ has_deletion self.now deletion.now }
    {
        match self.get(&deletion.name) {
            Some(entry) => entry.has_lost(deletion.stamp, &deletion.what),
            None => false,
        }
    }

    /// Drops a deletion, if it has it: the entry, the clear, or the mark of the value, and an
    /// attribute of which nothing is left. How many records that were.
    pub(crate) fn drop_deletion(&mut self, deletion: &Deletion) -> u64
        ensures dropped { self.new ≡ (if has_deletion self.old deletion.now then without self.old deletion.now else self.old) }
        ensures count { result ≡ min (held_in self.old - held_in self.new) most_held }
    {
        match &deletion.what {
            What::Death if !self.has(deletion) => 0,
            _ => self.drop_known(deletion),
        }
    }

    /// Drops a deletion as drop_deletion does. A death is one that it has, and is not looked for
    /// beforehand.
    pub(crate) fn drop_known(&mut self, deletion: &Deletion) -> u64
        requires { deletion.now.what ≡ what.Death → has_deletion self.old deletion.now ≡ true }
        ensures dropped { self.new ≡ (if has_deletion self.old deletion.now then without self.old deletion.now else self.old) }
        ensures count { result ≡ min (held_in self.old - held_in self.new) most_held }
    {
        match &deletion.what {
            What::Death => self.drop_entry(&deletion.name),
            What::Clear(_) | What::Absent(_, _) => {
                self.drop_lost(&deletion.name, deletion.stamp, &deletion.what)
            }
        }
    }

    /// Drops a clear or the mark of a value of an entry, if it lost that at this stamp. How many
    /// records that were.
    fn drop_lost(&mut self, name: &SimpleName, stamp: Stamp, what: &What) -> u64
        requires { is_of_attr what.now ≡ true }
        ensures dropped { let w = what.now in
            self.new ≡ (if is_lost
            (map.get self.old name.now) stamp w then change_at self.old name.now
            (entry_without w) else self.old) }
        ensures count { result ≡ min (held_in self.old - held_in self.new) most_held }
    {
        let Some(entry) = self.entries.get_mut(name) else {
            return 0;
        };
        if !entry.has_lost(stamp, what) {
            return 0;
        }
        entry.drop_lost(what);
        1
    }

    /// Drops the entry of a name. How many records that were.
    fn drop_entry(&mut self, name: &SimpleName) -> u64
        ensures entry { self.new ≡ change_at self.old name.now (entry_without what.Death) }
        ensures count { result ≡ min (held_in self.old - held_in self.new) most_held }
    {
        match self.entries.remove(name) {
            Some(entry) => entry.held(),
            None => 0,
        }
    }
}
