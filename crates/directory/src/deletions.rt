// The index of a table's deletions, by their stamps.
ghost use Rattle.std.specs.Prelude.{◌≡◌, ◌≢◌, ◌<◌, ◌≤◌, ◌*◌, ◌&&◌, max, IsFalse, MatchBool, IfSome, IfNone, IfOk, OnOk, OnErr, true, false, Some, if◌then◌else◌};
ghost use Rattle.directory.specs.declared.deletions.Deletion.{Deletion};
ghost use Rattle.directory.specs.declared.deletions.What.{What};
ghost use Rattle.cds_stamps.specs.declared.stamp.Stamp.{Stamp};
ghost use Rattle.cds_stamps.specs.Stamps.{is_up_to};
ghost use Rattle.directory.specs.Deletions.{has_lost, has_deletion, is_before, is_deletion, deleted_by};
ghost use Rattle.directory.specs.Held.{held_in};
ghost use Rattle.directory.specs.IndexWords.{is_indexed, Keeps, AddsAt, AddsOnly, KnowsMark, KnowsCell, KnowsAll};
ghost use Rattle.directory.specs.IndexWords.{few, deletion_count, IsSettled};
ghost use Rattle.directory.specs.IndexWords.{BeginsWell, BeginsWellElsewhere, is_absence, may_undo, touches, BeginsWellBeside};
ghost use Rattle.directory.specs.Updates.{change_of, changed_name};

use crate::entry::{EntryCell, REPLICAS};
use crate::entry_map::EntryMap;
use crate::update::Update;
use attr_sets::{AttrCell, Value, ValueMark};
use cds_stamps::{AttrName, SimpleName, Stamp};
use std::alloc::{AllocError, Global};
use std::collections::BTreeSet;

/// What was deleted of an entry: the entry itself, all values of an attribute, or one value.
#[derive(Clone, Debug, PartialEq, Eq, PartialOrd, Ord)]
pub enum What {
    Death,
    Clear(AttrName),
    Absent(AttrName, Value),
}

impl Drop for What {
    fn drop(self) {
        match self {
            What::Death => (),
            What::Clear(_field_1) => (),
            What::Absent(_field_1, _field_2) => (),
        }
    }
}

/// A deletion: when, in the entry of which name, and of what. Deletions are ordered by these three.
#[derive(Clone, Debug, PartialEq, Eq, PartialOrd, Ord)]
pub struct Deletion {
    pub stamp: Stamp,
    pub name: SimpleName,
    pub what: What,
}

impl Drop for Deletion {
    fn drop(self) {
        let Deletion {
            stamp: _stamp,
            name: _name,
            what: _what,
        } = self;
    }
}

/// The deletions that a table has, and some that it had: those are thrown away when they come
/// first, or when it knows of more than `most`. That is twice as many as the last sweep left, and
/// so at most twice what the table held then, or `FEW`.
#[derive(Drop)]
pub(crate) struct Deletions {
    known: BTreeSet<Deletion>,
    most: usize,
}

/// What an update with this stamp deletes, if anything.
fn deletion_of(alloc: Global, update: &Update, stamp: Stamp) -> Result<Option<Deletion>, AllocError>
    ensures { IfOk result (λ d. d ≡ deleted_by (change_of update.now) stamp) }
{
    let what = match update {
        Update::Create(_)
        | Update::MakeLink(_, _)
        | Update::MakeChild(_, _)
        | Update::Add(_, _, _) => return Ok(None),
        Update::Delete(_) => What::Death,
        Update::Remove(_, attr, value) => What::Absent(attr.copy(alloc)?, value.copy(alloc)?),
        Update::Put(_, attr, _) | Update::Clear(_, attr) => What::Clear(attr.copy(alloc)?),
        Update::Repoint(_, _) => What::Clear(AttrName::known(alloc, REPLICAS)?),
    };
    Ok(Some(Deletion {
        stamp,
        name: update.name().copy(alloc)?,
        what,
    }))
}

/// Whether an update may undo what was deleted of its entry: one of a value undoes the absence of
/// that value alone.
fn reaches(update: &Update, what: &What) -> bool
    ensures { result ≡ may_undo (change_of update.now) what.now }
{
    match update {
        Update::Add(_, attr, value) | Update::Remove(_, attr, value) => {
            is_absence(what, attr, value)
        }
        _ => true,
    }
}

/// Whether this value of this attribute was deleted.
fn is_absence(what: &What, attr: &AttrName, value: &Value) -> bool
    ensures { result ≡ is_absence attr.now value.now what.now }
{
    match what {
        What::Absent(of, gone) => *of == *attr && *gone == *value,
        _ => false,
    }
}

/// Under so many deletions that the index knows of none is thrown away but the first.
const FEW: usize = 64;

impl Clone for Deletions {
    ghost is_clone = { λ x y. y ≡ x };

    fn clone(&self) -> Result<Deletions, AllocError> {
        Ok(Deletions {
            known: self.known.clone()?,
            most: self.most,
        })
    }
}

impl Deletions {
    pub(crate) fn new(alloc: Global) -> Self
        ensures none { (d : Deletion) → is_indexed result d ≡ false }
        ensures empty { deletion_count result ≡ 0 }
        ensures room { result.most ≡ few }
    {
        Deletions {
            known: BTreeSet::new(alloc),
            most: FEW,
        }
    }

    /// The first deletion that it knows of.
    pub(crate) fn first(&self) -> Option<&Deletion>
        ensures first { IfSome result (λ d. (is_indexed self.now d.now ≡ true)
            × ((e : Deletion) → is_indexed self.now e ≡ true → is_before e d.now ≡ false)) }
        ensures none { IfNone result ((d : Deletion) → is_indexed self.now d ≡ false) }
    {
        self.known.first()
    }

    /// Takes the first deletion out.
    pub(crate) fn pop_first(&mut self) -> Option<Deletion>
        ensures first { IfSome result (λ d. (is_indexed self.old d ≡ true)
            × ((e : Deletion) → is_indexed self.old e ≡ true → is_before e d ≡ false)) }
        ensures rest { IfSome result (λ d. (e : Deletion)
            → is_indexed self.new e ≡ (if is_deletion e d then false else is_indexed self.old e)) }
        ensures none { IfNone result ((self.new ≡ self.old)
            × ((d : Deletion) → is_indexed self.old d ≡ false)) }
        ensures room { self.new.most ≡ self.old.most }
    {
        self.known.pop_first()
    }

    /// Takes the first deletion out, if it is stamped at most t.
    pub(crate) fn pop_up_to(&mut self, t: Stamp) -> Option<Deletion>
        ensures first { IfSome result (λ d. (is_indexed self.old d ≡ true)
            × (is_up_to t d.stamp ≡ true)) }
        ensures shorter { IfSome result (λ _. deletion_count self.new < deletion_count self.old) }
        ensures rest { IfSome result (λ d. (e : Deletion)
            → is_indexed self.new e ≡ (if is_deletion e d then false else is_indexed self.old e)) }
        ensures none { IfNone result ((self.new ≡ self.old)
            × ((d : Deletion) → is_indexed self.old d ≡ true → is_up_to t d.stamp ≡ false)) }
        ensures room { self.new.most ≡ self.old.most }
    {
        match self.known.first() {
            Some(first) if !(t < first.stamp) => self.known.pop_first(),
            _ => None,
        }
    }

    /// Adds a deletion.
    pub(crate) fn add(&mut self, deletion: Deletion) -> Result<(), AllocError>
        ensures ok { OnOk result ((e : Deletion)
            → is_indexed self.new e
            ≡ (if is_deletion e deletion then true else is_indexed self.old e)) }
        ensures err { OnErr result ((e : Deletion)
            → is_indexed self.new e ≡ is_indexed self.old e) }
        ensures same { OnErr result (deletion_count self.new ≡ deletion_count self.old) }
        ensures room { self.new.most ≡ self.old.most }
    {
        self.known.insert(deletion)?;
        Ok(())
    }

    /// Adds what an update with this stamp deletes, if anything.
    pub(crate) fn add_update(
        &mut self,
        alloc: Global,
        update: &Update,
        stamp: Stamp,
    ) -> Result<(), AllocError>
        ensures adds { AddsOnly (deleted_by (change_of update.now) stamp) self.old self.new }
        ensures ok { OnOk result
            (IfSome (deleted_by (change_of update.now) stamp) (λ d. is_indexed self.new d ≡ true)) }
        ensures err { OnErr result ((e : Deletion)
            → is_indexed self.new e ≡ is_indexed self.old e) }
        ensures same { OnErr result (deletion_count self.new ≡ deletion_count self.old) }
        ensures room { self.new.most ≡ self.old.most }
    {
        match deletion_of(alloc, update, stamp)? {
            Some(deletion) => self.add(deletion),
            None => Ok(()),
        }
    }

    /// Adds what was deleted of an entry.
    fn add_what(
        &mut self,
        alloc: Global,
        name: &SimpleName,
        stamp: Stamp,
        what: What,
    ) -> Result<(), AllocError>
        ensures adds { AddsAt name.now self.old self.new }
        ensures ok { OnOk result
            (is_indexed self.new (record { stamp = stamp; name = name.now; what = what }) ≡ true) }
        ensures room { self.new.most ≡ self.old.most }
    {
        let name = name.copy(alloc)?;
        self.add(Deletion { stamp, name, what })
    }

    /// Adds the deletions of an entry.
    pub(crate) fn add_entry(
        &mut self,
        alloc: Global,
        name: &SimpleName,
        entry: &EntryCell,
    ) -> Result<(), AllocError>
        ensures adds { AddsAt name.now self.old self.new }
        ensures ok { OnOk result ((s : Stamp) (w : What) → has_lost entry.now s w ≡ true →
            is_indexed self.new (record { stamp = s; name = name.now; what = w }) ≡ true) }
        ensures room { self.new.most ≡ self.old.most }
    {
        if let Some(death) = entry.death {
            self.add_what(alloc, name, death, What::Death)?;
        }
        for (attr, cell) in entry.attrs.iter() {
            self.add_cell(alloc, name, attr, cell)?;
        }
        Ok(())
    }

    /// Adds the deletions of an attribute of an entry.
    fn add_cell(
        &mut self,
        alloc: Global,
        name: &SimpleName,
        attr: &AttrName,
        cell: &AttrCell,
    ) -> Result<(), AllocError>
        ensures adds { AddsAt name.now self.old self.new }
        ensures ok { OnOk result (KnowsCell self.new name.now attr.now cell.now) }
        ensures room { self.new.most ≡ self.old.most }
    {
        if let Some(clear) = cell.cleared {
            self.add_what(alloc, name, clear, What::Clear(attr.copy(alloc)?))?;
        }
        for (value, mark) in cell.values.iter() {
            self.add_value(alloc, name, attr, value, mark)?;
        }
        Ok(())
    }

    /// Adds the deletion of a value, if its mark is one.
    fn add_value(
        &mut self,
        alloc: Global,
        name: &SimpleName,
        attr: &AttrName,
        value: &Value,
        mark: &ValueMark,
    ) -> Result<(), AllocError>
        ensures adds { AddsAt name.now self.old self.new }
        ensures ok { OnOk result (KnowsMark self.new name.now attr.now value.now mark.now) }
        ensures room { self.new.most ≡ self.old.most }
    {
        if mark.present {
            return Ok(());
        }
        let what = What::Absent(attr.copy(alloc)?, value.copy(alloc)?);
        self.add_what(alloc, name, mark.stamp, what)
    }

    /// Adds all that another index knows of.
    pub(crate) fn add_all(&mut self, other: &Deletions) -> Result<(), AllocError>
        ensures keeps { Keeps self.old self.new }
        ensures ok { OnOk result (Keeps other.now self.new) }
        ensures room { self.new.most ≡ self.old.most }
    {
        for deletion in other.known.iter() {
            self.add(deletion.clone()?)?;
        }
        Ok(())
    }

    /// Throws away what comes first and is no deletion of the entries any more, or all that is
    /// none, where it knows of too many.
    pub(crate) fn settle(&mut self, entries: &EntryMap)
        ensures all { KnowsAll self.old entries.now → KnowsAll self.new entries.now }
        ensures fewer { Keeps self.new self.old }
        ensures first { BeginsWell self.new entries.now }
        ensures settled { IsSettled self.old self.new entries.now }
    {
        if self.known.len() > self.most {
            self.sweep(entries);
        }
        while self.pop_outdated(entries) {}
    }

    /// Settles after a change of the entry of this name alone: where another name comes first, that
    /// is no less a deletion than before.
    pub(crate) fn settle_at(&mut self, entries: &EntryMap, name: &SimpleName)
        ensures all { KnowsAll self.old entries.now → KnowsAll self.new entries.now }
        ensures first { BeginsWellElsewhere name.now self.old entries.now
            → BeginsWell self.new entries.now }
        ensures settled { IsSettled self.old self.new entries.now }
    {
        if self.known.len() > self.most || self.begins_at(name) {
            self.settle(entries);
        }
    }

    /// Whether what comes first is a deletion in the entry of this name.
    fn begins_at(&self, name: &SimpleName) -> bool
        ensures { IsFalse result → (d : Deletion) → is_indexed self.now d ≡ true →
            ((e : Deletion) → is_indexed self.now e ≡ true → is_before e d ≡ false)
            → d.name ≢ name.now }
    {
        match self.first() {
            Some(first) => first.name == *name,
            None => false,
        }
    }

    /// Settles after an update: where what comes first is a deletion that it cannot undo, that is
    /// no less one than before.
    pub(crate) fn settle_after(&mut self, entries: &EntryMap, update: &Update)
        ensures all { KnowsAll self.old entries.now → KnowsAll self.new entries.now }
        ensures first { BeginsWellBeside (change_of update.now) self.old entries.now
            → BeginsWell self.new entries.now }
        ensures settled { IsSettled self.old self.new entries.now }
    {
        if self.known.len() > self.most || self.begins_touched(update) {
            self.settle(entries);
        }
    }

    /// Whether what comes first is a deletion that the update may undo.
    fn begins_touched(&self, update: &Update) -> bool
        ensures { IsFalse result → (d : Deletion) → is_indexed self.now d ≡ true →
            ((e : Deletion) → is_indexed self.now e ≡ true → is_before e d ≡ false)
            → touches (change_of update.now) d ≡ false }
    {
        match self.first() {
            Some(first) => first.name == *update.name() && reaches(update, &first.what),
            None => false,
        }
    }

    /// Throws away what comes first, if it is no deletion of the entries any more. Whether it did.
    fn pop_outdated(&mut self, entries: &EntryMap) -> bool
        ensures all { KnowsAll self.old entries.now → KnowsAll self.new entries.now }
        ensures fewer { Keeps self.new self.old }
        ensures first { MatchBool result (deletion_count self.new < deletion_count self.old)
            ((deletion_count self.new ≡ deletion_count self.old)
            × BeginsWell self.new entries.now) }
        ensures room { self.new.most ≡ self.old.most }
    {
        match self.known.first() {
            Some(first) if !entries.has(first) => {
                self.known.pop_first();
                true
            }
            _ => false,
        }
    }

    /// Throws away all that is no deletion of the entries any more. From then on it may keep twice
    /// as many as are left.
    fn sweep(&mut self, entries: &EntryMap)
        ensures left { (d : Deletion)
            → is_indexed self.new d ≡ (is_indexed self.old d && has_deletion entries.now d) }
        ensures within { deletion_count self.new ≤ self.new.most }
        ensures room { self.new.most ≤ max few (2 * held_in entries.now) }
    {
        self.known.retain(|deletion| entries.has(deletion));
        self.most = self.known.len().saturating_mul(2).max(FEW);
    }
}
