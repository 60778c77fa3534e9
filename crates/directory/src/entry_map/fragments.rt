// What an accepted update adds.
ghost use Rattle.std.specs.Prelude.{◌≡◌, Some, None, true, IfOk};
ghost use Rattle.directory.specs.OwnUpdateWords.{is_own};
ghost use Rattle.directory.specs.Updates.{Repoint, changed_name, change_of};
ghost use Rattle.directory.specs.Histories.{entry_of};
ghost use Rattle.directory.specs.Shown.{shown_in, refusal_of, marks_of};
ghost use Rattle.directory.specs.ToldWords.{IsAccepted};

use super::EntryMap;
use crate::attr_map::AttrMap;
use crate::entry::{Fragment, Kind, LINK_TARGET, REPLICAS};
use crate::fragments::{born, born_with, pointer_value, target_value};
use crate::update::Update;
use attr_sets::CellChange;
use cds_stamps::{AttrName, SimpleName, Stamp};
use cell_names::{ChildPointer, HouseList};
use std::alloc::{AllocError, Global};

impl EntryMap {
    /// What an accepted update adds to the table, with this stamp.
    pub(crate) fn fragment(
        &self,
        alloc: Global,
        update: &Update,
        stamp: Stamp,
    ) -> Result<Fragment, AllocError>
        requires { IsAccepted self.now (change_of update.now) }
        ensures name { IfOk result (λ f. f.name ≡ changed_name (change_of update.now)) }
        ensures entry { IfOk result (λ f. let u = change_of update.now in
            entry_of (marks_of (shown_in self.now (changed_name u)) u stamp) f.name
            ≡ Some f.entry) }
    {
        match update {
            Update::Create(name) => { born(alloc, name, Kind::Object, AttrMap::new(alloc), stamp) }
            Update::MakeLink(name, target) => {
                let value = target_value(alloc, target)?;
                born_with(alloc, name, Kind::Link, LINK_TARGET, &value, stamp)
            }
            Update::MakeChild(name, pointer) => {
                let value = pointer_value(alloc, pointer)?;
                born_with(alloc, name, Kind::Child, REPLICAS, &value, stamp)
            }
            Update::Repoint(name, houses) => self.repoint_fragment(alloc, name, houses, stamp),
            Update::Delete(_)
            | Update::Add(_, _, _)
            | Update::Remove(_, _, _)
            | Update::Put(_, _, _)
            | Update::Clear(_, _) => self.own_fragment(alloc, update, stamp),
        }
    }

    /// What an accepted update of an entry that the table has adds to it.
    fn own_fragment(
        &self,
        alloc: Global,
        update: &Update,
        stamp: Stamp,
    ) -> Result<Fragment, AllocError>
        requires own { is_own (change_of update.now) ≡ true }
        requires accepted { IsAccepted self.now (change_of update.now) }
        ensures name { IfOk result (λ f. f.name ≡ changed_name (change_of update.now)) }
        ensures entry { IfOk result (λ f. let u = change_of update.now in
            entry_of (marks_of (shown_in self.now (changed_name u)) u stamp) f.name
            ≡ Some f.entry) }
    {
        let own = update.own().unwrap();
        let entry = self.live(update.name()).unwrap();
        entry.fragment(alloc, update.name(), &own, stamp)
    }

    /// The fragment of a live child with a pointer to the same directory at these houses.
    fn repoint_fragment(
        &self,
        alloc: Global,
        name: &SimpleName,
        houses: &HouseList,
        stamp: Stamp,
    ) -> Result<Fragment, AllocError>
        requires { refusal_of (shown_in self.now name.now)
            (Repoint name.now houses.now.master houses.now.others) ≡ None }
        ensures name { IfOk result (λ f. f.name ≡ name.now) }
        ensures entry { IfOk result
            (λ f. let u = Repoint name.now houses.now.master houses.now.others in
            entry_of (marks_of (shown_in self.now name.now) u stamp) f.name ≡ Some f.entry) }
    {
        let own = self.live(name).unwrap();
        let pointer = ChildPointer {
            dir: own.child_dir(alloc)?,
            houses: houses.copy(alloc)?,
        };
        let value = pointer_value(alloc, &pointer)?;
        let attr = AttrName::known(alloc, REPLICAS)?;
        own.changed(alloc, name, &attr, &CellChange::Put(&value), stamp)
    }
}
