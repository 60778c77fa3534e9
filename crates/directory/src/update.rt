// Updates, and why one is refused.
ghost use Rattle.std.specs.Prelude.{◌≡◌, false, IsOk, IfOk, IfSome, is_some};
ghost use Rattle.cds_stamps.specs.Outcomes.{ok_unless};
ghost use Rattle.directory.specs.Shown.{live_refusal};
ghost use Rattle.directory.specs.Updates.{change_of, changed_name};
ghost use Rattle.directory.specs.EntryChanges.{changes, creation};
ghost use Rattle.directory.specs.OwnUpdateWords.{is_own, IsOwnUpdate};

use attr_sets::{CellChange, Value};
use cds_stamps::{AttrName, SimpleName};
use cell_names::{ChildPointer, FullName, HouseList};
use std::alloc::{AllocError, Global};
use thiserror::Error;

/// An update of one entry of a directory.
pub enum Update {
    /// Makes an object.
    Create(SimpleName),
    /// Makes a link to a full name.
    MakeLink(SimpleName, FullName),
    /// Makes a child with a pointer to its directory.
    MakeChild(SimpleName, ChildPointer),
    /// Deletes an object or a link.
    Delete(SimpleName),
    /// Makes a value of an attribute present.
    Add(SimpleName, AttrName, Value),
    /// Makes a value of an attribute absent, whether it is there or not.
    Remove(SimpleName, AttrName, Value),
    /// Leaves one value of an attribute, which it makes present, in place of all that were there.
    Put(SimpleName, AttrName, Value),
    /// Leaves no value of an attribute.
    Clear(SimpleName, AttrName),
    /// Sets the houses of a child, whose directory stays.
    Repoint(SimpleName, HouseList),
}

impl Drop for Update {
    fn drop(self) {
        match self {
            Update::Create(_field_1) => (),
            Update::MakeLink(_field_1, _field_2) => (),
            Update::MakeChild(_field_1, _field_2) => (),
            Update::Delete(_field_1) => (),
            Update::Add(_field_1, _field_2, _field_3) => (),
            Update::Remove(_field_1, _field_2, _field_3) => (),
            Update::Put(_field_1, _field_2, _field_3) => (),
            Update::Clear(_field_1, _field_2) => (),
            Update::Repoint(_field_1, _field_2) => (),
        }
    }
}

/// What is answered to an update: nothing, if it is applied, or why it is refused; or that there is
/// no memory.
pub(crate) type Accepted = Result<Result<(), UpdateRefusal>, AllocError>;

/// An update of an entry that the table has, whatever its name.
#[derive(Drop)]
pub(crate) enum OwnUpdate<'a> {
    /// Deletes it.
    Delete,
    /// Changes an attribute of it.
    Change(&'a AttrName, CellChange<'a>),
}

impl Update {
    /// The name of the entry that it is about.
    pub fn name(&self) -> &SimpleName
        ensures { result.now ≡ changed_name (change_of self.now) }
    {
        match self {
            Update::Create(name) => name,
            Update::MakeLink(name, _) => name,
            Update::MakeChild(name, _) => name,
            Update::Delete(name) => name,
            Update::Add(name, _, _) => name,
            Update::Remove(name, _, _) => name,
            Update::Put(name, _, _) => name,
            Update::Clear(name, _) => name,
            Update::Repoint(name, _) => name,
        }
    }

    /// What it is of an entry that the table has: a deletion, or a change of an attribute. None for
    /// the others.
    pub(crate) fn own(&self) -> Option<OwnUpdate<'_>>
        ensures some { is_some result ≡ is_own (change_of self.now) }
        ensures own { IfSome result (IsOwnUpdate (change_of self.now)) }
    {
        match self {
            Update::Delete(_) => Some(OwnUpdate::Delete),
            Update::Add(_, attr, value) => Some(OwnUpdate::Change(attr, CellChange::Add(value))),
            Update::Remove(_, attr, value) => {
                Some(OwnUpdate::Change(attr, CellChange::Remove(value)))
            }
            Update::Put(_, attr, value) => Some(OwnUpdate::Change(attr, CellChange::Put(value))),
            Update::Clear(_, attr) => Some(OwnUpdate::Change(attr, CellChange::Clear)),
            Update::Create(_)
            | Update::MakeLink(_, _)
            | Update::MakeChild(_, _)
            | Update::Repoint(_, _) => None,
        }
    }

    /// An equal update.
    pub fn copy(&self, alloc: Global) -> Result<Update, AllocError>
        ensures { IfOk result (λ u. u ≡ self.now) }
    {
        match self {
            Update::Create(name) => Ok(Update::Create(name.copy(alloc)?)),
            Update::MakeLink(name, target) => copy_link(alloc, name, target),
            Update::MakeChild(name, pointer) => copy_child(alloc, name, pointer),
            Update::Delete(name) => Ok(Update::Delete(name.copy(alloc)?)),
            Update::Add(name, attr, value) => copy_addition(alloc, name, attr, value),
            Update::Remove(name, attr, value) => copy_removal(alloc, name, attr, value),
            Update::Put(name, attr, value) => copy_put(alloc, name, attr, value),
            Update::Clear(name, attr) => copy_clear(alloc, name, attr),
            Update::Repoint(name, houses) => copy_repointing(alloc, name, houses),
        }
    }
}

/// An equal update that makes a link.
fn copy_link(alloc: Global, name: &SimpleName, target: &FullName) -> Result<Update, AllocError>
    ensures { IfOk result (λ u. u ≡ Update.MakeLink name.now target.now) }
{
    Ok(Update::MakeLink(name.copy(alloc)?, target.copy(alloc)?))
}

/// An equal update that makes a child.
fn copy_child(
    alloc: Global,
    name: &SimpleName,
    pointer: &ChildPointer,
) -> Result<Update, AllocError>
    ensures { IfOk result (λ u. u ≡ Update.MakeChild name.now pointer.now) }
{
    Ok(Update::MakeChild(name.copy(alloc)?, pointer.copy(alloc)?))
}

/// An equal update that adds a value.
fn copy_addition(
    alloc: Global,
    name: &SimpleName,
    attr: &AttrName,
    value: &Value,
) -> Result<Update, AllocError>
    ensures { IfOk result (λ u. u ≡ Update.Add name.now attr.now value.now) }
{
    Ok(Update::Add(name.copy(alloc)?, attr.copy(alloc)?, value.copy(alloc)?))
}

/// An equal update that removes a value.
fn copy_removal(
    alloc: Global,
    name: &SimpleName,
    attr: &AttrName,
    value: &Value,
) -> Result<Update, AllocError>
    ensures { IfOk result (λ u. u ≡ Update.Remove name.now attr.now value.now) }
{
    Ok(Update::Remove(name.copy(alloc)?, attr.copy(alloc)?, value.copy(alloc)?))
}

/// An equal update that puts a value.
fn copy_put(
    alloc: Global,
    name: &SimpleName,
    attr: &AttrName,
    value: &Value,
) -> Result<Update, AllocError>
    ensures { IfOk result (λ u. u ≡ Update.Put name.now attr.now value.now) }
{
    Ok(Update::Put(name.copy(alloc)?, attr.copy(alloc)?, value.copy(alloc)?))
}

/// An equal update that clears an attribute.
fn copy_clear(alloc: Global, name: &SimpleName, attr: &AttrName) -> Result<Update, AllocError>
    ensures { IfOk result (λ u. u ≡ Update.Clear name.now attr.now) }
{
    Ok(Update::Clear(name.copy(alloc)?, attr.copy(alloc)?))
}

/// An equal update that sets the houses of a child.
fn copy_repointing(
    alloc: Global,
    name: &SimpleName,
    houses: &HouseList,
) -> Result<Update, AllocError>
    ensures { IfOk result (λ u. u ≡ Update.Repoint name.now houses.now) }
{
    Ok(Update::Repoint(name.copy(alloc)?, houses.copy(alloc)?))
}

/// The update that creates an entry, if it is absent. Where it is not no memory is asked for.
pub fn creation(alloc: Global, name: &SimpleName, absent: bool) -> Result<Vec<Update>, AllocError>
    ensures changes { IfOk result (λ list. changes list.items ≡ creation name.now absent) }
    ensures none { absent ≡ false → IsOk result }
{
    let mut updates = Vec::new(alloc);
    if absent {
        updates.push(Update::Create(name.copy(alloc)?))?;
        return Ok(updates);
    }
    Ok(updates)
}

/// Why a house refuses an update.
#[derive(Clone, Copy, Debug, PartialEq, Eq, Drop, Error)]
pub enum UpdateRefusal {
    #[error("the house holds no replica of the directory")]
    NoReplica,
    #[error("the house is not the master of the directory")]
    NotMaster,
    #[error("no entry of that name shows")]
    NoSuchEntry,
    #[error("an entry of that name shows")]
    EntryExists,
    #[error("the entry or the attribute is of another kind")]
    WrongKind,
    #[error("the house has issued the last stamp")]
    StampsSpent,
}

/// Refuses an update of what shows where the kind of the entry or of the attribute is wrong.
pub(crate) fn refuse_if(wrong: bool) -> Result<(), UpdateRefusal>
    ensures { result ≡ ok_unless (live_refusal wrong) tt }
{
    if wrong {
        Err(UpdateRefusal::WrongKind)
    } else {
        Ok(())
    }
}
