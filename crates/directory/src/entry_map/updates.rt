// Updates that are applied in place.
ghost use Rattle.std.specs.Prelude.{◌≡◌, Option, OnOk, OnErr};
ghost use Rattle.directory.specs.Applied.{TakesOwn, JoinsEntry, LeavesOthers};
ghost use Rattle.directory.specs.OwnUpdateWords.{own_made, AcceptsOwn};
ghost use Rattle.directory.specs.Updates.{changed_name, change_of};
ghost use Rattle.directory.specs.Shown.{Shown, new_refusal, refusal_of};
ghost use Rattle.directory.specs.ToldWords.{IsAccepted, TakesMarksOf, AcceptsUpdate};

use super::EntryMap;
use crate::entry::Fragment;
use crate::update::{Accepted, OwnUpdate, Update, UpdateRefusal};
use cds_stamps::{SimpleName, Stamp};
use std::alloc::{AllocError, Global};

impl EntryMap {
    /// Adds the marks of an accepted update with this stamp, in place: what joining its fragment in
    /// would do. Of a change of an attribute nothing is copied but what is new to the table.
    pub(crate) fn apply(
        &mut self,
        alloc: Global,
        update: &Update,
        stamp: Stamp,
    ) -> Result<(), AllocError>
        requires { IsAccepted self.old (change_of update.now) }
        ensures ok { OnOk result (TakesMarksOf self.old self.new (change_of update.now) stamp) }
        ensures others { LeavesOthers self.old self.new (changed_name (change_of update.now)) }
        ensures err { OnErr result (self.new ≡ self.old) }
    {
        if let Some(own) = update.own() {
            return self.apply_own(alloc, update.name(), &own, stamp);
        }
        let fragment = self.fragment(alloc, update, stamp)?;
        self.take_in(alloc, fragment)
    }

    /// Adds the marks of an update with this stamp in place, or refuses it: as check and apply do,
    /// but that the name of a deletion or of a change of an attribute is looked up once.
    pub(crate) fn accept(&mut self, alloc: Global, update: &Update, stamp: Stamp) -> Accepted
        ensures { AcceptsUpdate self.old self.new (change_of update.now) stamp result }
    {
        if let Some(own) = update.own() {
            return self.accept_own(alloc, update.name(), &own, stamp);
        }
        match update {
            Update::Create(_) | Update::MakeLink(_, _) | Update::MakeChild(_, _) => {
                self.accept_new(alloc, update, stamp)
            }
            _ => self.check_and_apply(alloc, update, stamp),
        }
    }

    /// The same for an update that makes an entry. A name that has none, live or not, is looked up
    /// twice, the second time to insert it.
    fn accept_new(&mut self, alloc: Global, update: &Update, stamp: Stamp) -> Accepted
        requires { (e : Option Shown) → refusal_of e (change_of update.now) ≡ new_refusal e }
        ensures { AcceptsUpdate self.old self.new (change_of update.now) stamp result }
    {
        if self.get(update.name()).is_some() {
            return self.check_and_apply(alloc, update, stamp);
        }
        let fragment = self.fragment(alloc, update, stamp)?;
        self.insert(fragment.name, fragment.entry)?;
        Ok(Ok(()))
    }

    /// The same for any update, with look-ups for each of the two.
    fn check_and_apply(&mut self, alloc: Global, update: &Update, stamp: Stamp) -> Accepted
        ensures { AcceptsUpdate self.old self.new (change_of update.now) stamp result }
    {
        match self.check(update) {
            Ok(()) => {
                self.apply(alloc, update, stamp)?;
                Ok(Ok(()))
            }
            Err(refusal) => Ok(Err(refusal)),
        }
    }

    /// Adds the marks of an update of it to the entry of a name, or refuses it.
    fn accept_own(
        &mut self,
        alloc: Global,
        name: &SimpleName,
        update: &OwnUpdate,
        stamp: Stamp,
    ) -> Accepted
        ensures { AcceptsOwn self.old self.new name.now update.now stamp result }
    {
        match self.entries.get_mut(name) {
            Some(own) => own.accept(alloc, update, stamp),
            None => Ok(Err(UpdateRefusal::NoSuchEntry)),
        }
    }

    /// Adds the marks of an update of it to the entry of a name, if it has one.
    fn apply_own(
        &mut self,
        alloc: Global,
        name: &SimpleName,
        update: &OwnUpdate,
        stamp: Stamp,
    ) -> Result<(), AllocError>
        ensures ok { OnOk result
            (TakesOwn self.old self.new name.now (λ e. own_made update.now e stamp)) }
        ensures others { LeavesOthers self.old self.new name.now }
        ensures err { OnErr result (self.new ≡ self.old) }
    {
        match self.entries.get_mut(name) {
            Some(own) => own.apply(alloc, update, stamp),
            None => Ok(()),
        }
    }

    /// Joins what an update adds in, as join_entry does; a new entry is moved in, and not copied.
    fn take_in(&mut self, alloc: Global, fragment: Fragment) -> Result<(), AllocError>
        ensures ok { OnOk result (JoinsEntry self.old self.new fragment.name fragment.entry) }
        ensures others { LeavesOthers self.old self.new fragment.name }
        ensures err { OnErr result (self.new ≡ self.old) }
    {
        let here = self.join_here(alloc, &fragment.name, &fragment.entry)?;
        if here {
            return Ok(());
        }
        self.insert(fragment.name, fragment.entry)?;
        Ok(())
    }
}
