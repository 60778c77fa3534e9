// Whether an update is accepted by what shows of its name.
ghost use Rattle.std.specs.Prelude.{◌≡◌, List, ℕ};
ghost use Rattle.cds_stamps.specs.Outcomes.{ok_unless};
ghost use Rattle.directory.specs.Updates.{Delete, Clear, Repoint, changed_name, change_of};
ghost use Rattle.directory.specs.Shown.{shown_in, new_refusal, refusal_of};

use super::EntryMap;
use crate::entry::is_reserved;
use crate::update::{Update, UpdateRefusal, refuse_if};
use cds_stamps::{AttrName, SimpleName};

impl EntryMap {
    /// Whether an update is accepted by what shows of its name, or why not. It takes no memory.
    pub(crate) fn check(&self, update: &Update) -> Result<(), UpdateRefusal>
        ensures { result ≡ ok_unless
            (refusal_of (shown_in self.now (changed_name (change_of update.now)))
            (change_of update.now)) tt }
    {
        match update {
            Update::Create(name) => self.check_new(name),
            Update::MakeLink(name, _) => self.check_new(name),
            Update::MakeChild(name, _) => self.check_new(name),
            Update::Delete(name) => self.check_delete(name),
            Update::Add(name, attr, _) => self.check_change(name, attr),
            Update::Remove(name, attr, _) => self.check_change(name, attr),
            Update::Put(name, attr, _) => self.check_change(name, attr),
            Update::Clear(name, attr) => self.check_change(name, attr),
            Update::Repoint(name, _) => self.check_repoint(name),
        }
    }

    /// Whether a new entry of this name is accepted.
    fn check_new(&self, name: &SimpleName) -> Result<(), UpdateRefusal>
        ensures { result ≡ ok_unless (new_refusal (shown_in self.now name.now)) tt }
    {
        match self.live(name) {
            Some(_) => Err(UpdateRefusal::EntryExists),
            None => Ok(()),
        }
    }

    /// Whether a change of an attribute of this name is accepted, whatever the value.
    fn check_change(&self, name: &SimpleName, attr: &AttrName) -> Result<(), UpdateRefusal>
        ensures { result ≡ ok_unless
            (refusal_of (shown_in self.now name.now) (Clear name.now attr.now)) tt }
    {
        if self.live(name).is_none() {
            return Err(UpdateRefusal::NoSuchEntry);
        }
        refuse_if(is_reserved(attr))
    }

    /// Whether the deletion of this name is accepted.
    fn check_delete(&self, name: &SimpleName) -> Result<(), UpdateRefusal>
        ensures { result ≡ ok_unless
            (refusal_of (shown_in self.now name.now) (Delete name.now)) tt }
    {
        match self.live(name) {
            None => Err(UpdateRefusal::NoSuchEntry),
            Some(entry) => refuse_if(entry.kind.is_child()),
        }
    }

    /// Whether other houses of this name are accepted, whichever they are.
    fn check_repoint(&self, name: &SimpleName) -> Result<(), UpdateRefusal>
        ensures { (master : ℕ) (others : List ℕ)
            → result ≡ ok_unless
            (refusal_of (shown_in self.now name.now) (Repoint name.now master others)) tt }
    {
        match self.live(name) {
            None => Err(UpdateRefusal::NoSuchEntry),
            Some(entry) => refuse_if(!entry.kind.is_child()),
        }
    }
}
