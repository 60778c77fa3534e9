// Updates that are applied in place, and whose fragments are told.
ghost use Rattle.std.specs.Prelude.{◌≡◌, Option, IfOk, IfSome};
ghost use Rattle.std.specs.FinMap as map;
ghost use Rattle.directory.specs.OwnUpdateWords.{own_made, AcceptsOwn};
ghost use Rattle.directory.specs.Updates.{change_of};
ghost use Rattle.directory.specs.Shown.{Shown, new_refusal, refusal_of};
ghost use Rattle.directory.specs.ToldWords.{TellsUpdate};

use super::EntryMap;
use crate::entry::Told;
use crate::update::{OwnUpdate, Update, UpdateRefusal};
use cds_stamps::{SimpleName, Stamp};
use std::alloc::Global;

impl EntryMap {
    /// Adds the marks of an update with this stamp in place, and gives its fragment; or refuses it.
    /// The name of a deletion or of a change of an attribute is looked up once, and that of a new
    /// entry twice.
    pub(crate) fn accept_told(&mut self, alloc: Global, update: &Update, stamp: Stamp) -> Told
        ensures { TellsUpdate self.old self.new (change_of update.now) stamp result }
    {
        if let Some(own) = update.own() {
            return self.tell(alloc, update.name(), &own, stamp);
        }
        match update {
            Update::Create(_) | Update::MakeLink(_, _) | Update::MakeChild(_, _) => {
                self.create_told(alloc, update, stamp)
            }
            _ => self.remake_told(alloc, update, stamp),
        }
    }

    /// The same for an update that makes an entry. A name that has none, live or not, gets a copy
    /// of its fragment.
    fn create_told(&mut self, alloc: Global, update: &Update, stamp: Stamp) -> Told
        requires { (e : Option Shown) → refusal_of e (change_of update.now) ≡ new_refusal e }
        ensures { TellsUpdate self.old self.new (change_of update.now) stamp result }
    {
        if self.get(update.name()).is_some() {
            return self.remake_told(alloc, update, stamp);
        }
        let fragment = self.fragment(alloc, update, stamp)?;
        let key = fragment.name.copy(alloc)?;
        let entry = fragment.entry.copy(alloc)?;
        self.insert(key, entry)?;
        Ok(Ok(fragment))
    }

    /// The same for any update, with look-ups for each of its parts.
    fn remake_told(&mut self, alloc: Global, update: &Update, stamp: Stamp) -> Told
        ensures { TellsUpdate self.old self.new (change_of update.now) stamp result }
    {
        if let Err(refusal) = self.check(update) {
            return Ok(Err(refusal));
        }
        let fragment = self.fragment(alloc, update, stamp)?;
        self.join_entry(alloc, &fragment)?;
        Ok(Ok(fragment))
    }

    /// Adds the marks of an update of it to the entry of a name, and gives its fragment; or refuses
    /// it.
    fn tell(&mut self, alloc: Global, name: &SimpleName, update: &OwnUpdate, stamp: Stamp) -> Told
        ensures accepts { AcceptsOwn self.old self.new name.now update.now stamp result }
        ensures name { IfOk result (λ answer. IfOk answer (λ f. f.name ≡ name.now)) }
        ensures entry { IfOk result
            (λ answer. IfOk answer
            (λ f. IfSome (map.get self.old name.now)
            (λ e. f.entry ≡ own_made update.now e stamp))) }
    {
        match self.entries.get_mut(name) {
            Some(own) => own.accept_told(alloc, name, update, stamp),
            None => Ok(Err(UpdateRefusal::NoSuchEntry)),
        }
    }
}
