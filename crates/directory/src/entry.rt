// Entries.
ghost use Rattle.std.specs.Prelude.{◌≡◌, ◌≢◌, ◌↔◌, ◌&&◌, IsTrue, min, true, Some, None, if◌then◌else◌, filter, is_some, option_copied};
ghost use Rattle.std.specs.Prelude.{MatchBool, IsSome, IfSome, IsOk, IfOk, OnOk, OnErr};
ghost use Rattle.std.specs.FinMap as map;
ghost use Rattle.std.specs.Option.{option_and_then};
ghost use Rattle.cds_stamps.specs.Semilattice.{maybe, greater};
ghost use Rattle.cds_stamps.specs.Stamps.{earlier_stamp, is_earlier, is_up_to};
ghost use Rattle.directory.specs.Kinds.{kind_cmp, is_child};
ghost use Rattle.directory.specs.Entries.{join_tied, join_entries, IsValidEntry};
ghost use Rattle.directory.specs.EntryLawProofs.{entry_join};
ghost use Rattle.directory.specs.EntryUndoWords.{undo_entry};
ghost use Rattle.directory.specs.EntryJoinWords.{JoinsTied, JoinsWith};
ghost use Rattle.attr_sets.specs.AttributeCells.{cell_values};
ghost use Rattle.attr_sets.specs.CellChanges.{change_marks};
ghost use Rattle.attr_sets.specs.CellPurges.{clear_left};
ghost use Rattle.directory.specs.Purges.{is_dead_up_to, after_entry, is_bare};
ghost use Rattle.directory.specs.Deletions.{has_lost, entry_without};
ghost use Rattle.directory.specs.Held.{held_in_entry, held_in_cell, most_held};
ghost use Rattle.directory.specs.Applied.{changed_entry, deleted_entry};
ghost use Rattle.cds_stamps.specs.Outcomes.{ok_unless};
ghost use Rattle.directory.specs.OwnUpdateWords.{own_made, own_refusal, AcceptsEntry};
ghost use Rattle.directory.specs.declared.update.OwnUpdate.TheVariants.{Delete};
ghost use Rattle.directory.specs.Shown.{is_readable, is_reserved, leads, only_one, lead_of, entry_values, face_of, shown_entry, shown_dir};

use crate::attr_map::{AttrMap, CellLog};
use crate::deletions::What;
use crate::fragments::one_attr;
use crate::undo::EntryUndo;
use crate::update::{Accepted, OwnUpdate, UpdateRefusal, refuse_if};
use attr_sets::{AttrCell, CellChange, Value};
use cds_stamps::{AttrName, DirId, Lattice, SimpleName, Stamp};
use cell_names::{ChildPointer, FullName};
use std::alloc::{AllocError, Global};
use std::cmp::Ordering;
use std::mem::replace;

/// The attribute with the target of a link.
pub const LINK_TARGET: &[u8] = b"CDS_LinkTarget";

/// The attribute with the pointer of a child.
pub const REPLICAS: &[u8] = b"CDS_Replicas";

/// The kind of an entry.
#[derive(Clone, Copy, Debug, PartialEq, Eq, Hash)]
pub enum Kind {
    Object,
    Link,
    Child,
}

impl Kind {
    /// Whether it is that of a child.
    pub(crate) fn is_child(self) -> bool
        ensures { result ≡ is_child self }
    {
        matches!(self, Kind::Child)
    }
}

/// What is known of a name: its greatest birth, the least death of that birth, and its attributes.
pub struct EntryCell {
    pub birth: Stamp,
    pub kind: Kind,
    pub death: Option<Stamp>,
    pub attrs: AttrMap,
}

impl Drop for EntryCell {
    fn drop(self) {
        let EntryCell {
            birth: _birth,
            kind: _kind,
            death: _death,
            attrs: _attrs,
        } = self;
    }
}

/// What one update adds to a table: the entry of its name, with its birth and the new marks alone.
#[derive(Drop)]
pub struct Fragment {
    pub name: SimpleName,
    pub entry: EntryCell,
}

/// What is answered to an update whose fragment is asked for: that, or why it is refused; or that
/// there is no memory.
pub(crate) type Told = Result<Result<Fragment, UpdateRefusal>, AllocError>;

impl Clone for EntryCell {
    ghost is_clone = { λ x y. y ≡ x };

    fn clone(&self) -> Result<EntryCell, AllocError> {
        Ok(EntryCell {
            birth: self.birth,
            kind: self.kind,
            death: self.death,
            attrs: self.attrs.clone()?,
        })
    }
}

impl EntryCell {
    /// An entry of the same birth, kind, death and cells.
    pub fn copy(&self, _alloc: Global) -> Result<EntryCell, AllocError>
        ensures { IfOk result (λ e. e ≡ self.now) }
    {
        self.clone()
    }

    /// Whether it shows: it is not known to be dead, and a link or a child has exactly one readable
    /// value of its attribute. It takes no memory. Of a link or a child it goes through the
    /// attributes, and through the values of one.
    pub fn is_live(&self) -> bool
        ensures { result ≡ is_some (shown_entry self.now) }
    {
        self.death.is_none() && self.leads()
    }

    /// The entry itself, if it shows.
    pub(crate) fn if_live(&self) -> Option<&EntryCell>
        ensures { option_copied result
            ≡ (if is_some (shown_entry self.now) then Some self.now else None) }
    {
        if self.is_live() { Some(self) } else { None }
    }

    /// The values of an attribute that are present, ascending. Where it has no cell no memory is
    /// asked for.
    pub fn values(&self, alloc: Global, attr: &AttrName) -> Result<Vec<Value>, AllocError>
        ensures values { IfOk result (λ found. found.items ≡ entry_values self.now attr.now) }
        ensures none { map.get self.now.attrs attr.now ≡ None → IsOk result }
    {
        match self.attrs.get(attr) {
            Some(cell) => cell.present_values(alloc),
            None => Ok(Vec::new(alloc)),
        }
    }

    /// Where it leads: for a link the value that spells its target, for a child the value of its
    /// pointer. None for an object, and where not exactly one value that is present reads so,
    /// whether the entry is dead or not. Takes no memory.
    pub fn lead(&self) -> Option<&Value>
        ensures { option_copied result ≡ lead_of (face_of self.now) }
    {
        match self.kind {
            Kind::Object => None,
            Kind::Link => self.only_readable(LINK_TARGET),
            Kind::Child => self.only_readable(REPLICAS),
        }
    }

    /// The directory of the pointer of a child that shows.
    pub(crate) fn child_dir(&self, alloc: Global) -> Result<DirId, AllocError>
        requires child { is_child self.now.kind ≡ true }
        requires shown { IsSome (shown_entry self.now) }
        ensures { IfOk result (λ dir. dir.0 ≡ shown_dir (face_of self.now)) }
    {
        let value = self.lead().unwrap();
        let pointer = ChildPointer::known(alloc, value.octets())?;
        Ok(pointer.dir)
    }

    /// Whether there is what an entry of its kind leads to.
    fn leads(&self) -> bool
        ensures { result ≡ leads self.now.kind (entry_values self.now) }
    {
        match self.kind {
            Kind::Object => true,
            Kind::Link | Kind::Child => self.lead().is_some(),
        }
    }

    /// The value that is present in an attribute and reads by the entry's kind, if it is the only
    /// one.
    fn only_readable(&self, attr: &[u8]) -> Option<&Value>
        ensures { option_copied result
            ≡ only_one (filter (is_readable self.now.kind) (entry_values self.now attr.now)) }
    {
        match self.attrs.find(attr) {
            Some(cell) => only_readable(self.kind, cell),
            None => None,
        }
    }

    /// Adds the marks of a change of an attribute, in place.
    fn change(
        &mut self,
        alloc: Global,
        attr: &AttrName,
        change: &CellChange,
        stamp: Stamp,
    ) -> Result<(), AllocError>
        ensures ok { OnOk result (IsValidEntry self.old
            → self.new ≡ join_entries self.old
            (changed_entry self.old attr.now (change_marks change.now stamp))) }
        ensures err { OnErr result (self.new ≡ self.old) }
    {
        self.attrs.change(alloc, attr, change, stamp)?;
        Ok(())
    }

    /// Adds a death.
    fn delete(&mut self, stamp: Stamp)
        ensures { self.new ≡ join_entries self.old (deleted_entry self.old stamp) }
    {
        self.death = earlier_of(self.death, Some(stamp));
    }

    /// Adds the marks of an update, in place. A deletion takes no memory.
    pub(crate) fn apply(
        &mut self,
        alloc: Global,
        update: &OwnUpdate,
        stamp: Stamp,
    ) -> Result<(), AllocError>
        ensures ok { OnOk result (IsValidEntry self.old
            → self.new ≡ join_entries self.old (own_made update.now self.old stamp)) }
        ensures deletes { update.now ≡ Delete → IsOk result }
        ensures err { OnErr result (self.new ≡ self.old) }
    {
        match update {
            OwnUpdate::Delete => self.delete(stamp),
            OwnUpdate::Change(attr, change) => self.change(alloc, attr, change, stamp)?,
        }
        Ok(())
    }

    /// Adds the marks of an update, in place, or refuses it.
    pub(crate) fn accept(&mut self, alloc: Global, update: &OwnUpdate, stamp: Stamp) -> Accepted
        ensures { AcceptsEntry self.old self.new update.now stamp result }
    {
        if let Err(refusal) = self.check(update) {
            return Ok(Err(refusal));
        }
        self.apply(alloc, update, stamp)?;
        Ok(Ok(()))
    }

    /// Adds the marks of an update, in place, and gives the fragment of them, for the name; or
    /// refuses it.
    pub(crate) fn accept_told(
        &mut self,
        alloc: Global,
        name: &SimpleName,
        update: &OwnUpdate,
        stamp: Stamp,
    ) -> Told
        ensures accepts { AcceptsEntry self.old self.new update.now stamp result }
        ensures name { IfOk result (λ answer. IfOk answer (λ f. f.name ≡ name.now)) }
        ensures entry { IfOk result
            (λ answer. IfOk answer (λ f. f.entry ≡ own_made update.now self.old stamp)) }
    {
        if let Err(refusal) = self.check(update) {
            return Ok(Err(refusal));
        }
        let stamp = &stamp;
        let fragment = self.fragment(alloc, name, update, *stamp)?;
        self.apply(alloc, update, *stamp)?;
        Ok(Ok(fragment))
    }

    /// Whether an update of it is accepted, or why not. It takes no memory.
    fn check(&self, update: &OwnUpdate) -> Result<(), UpdateRefusal>
        ensures { result ≡ ok_unless (own_refusal (shown_entry self.now) update.now) tt }
    {
        if !self.is_live() {
            return Err(UpdateRefusal::NoSuchEntry);
        }
        let wrong = match update {
            OwnUpdate::Delete => self.kind.is_child(),
            OwnUpdate::Change(attr, _) => is_reserved(attr),
        };
        refuse_if(wrong)
    }

    /// What an update of it adds, for the name.
    pub(crate) fn fragment(
        &self,
        alloc: Global,
        name: &SimpleName,
        update: &OwnUpdate,
        stamp: Stamp,
    ) -> Result<Fragment, AllocError>
        ensures name { IfOk result (λ f. f.name ≡ name.now) }
        ensures entry { IfOk result (λ f. f.entry ≡ own_made update.now self.now stamp) }
    {
        match update {
            OwnUpdate::Delete => self.marked(alloc, name, Some(stamp), AttrMap::new(alloc)),
            OwnUpdate::Change(attr, change) => self.changed(alloc, name, attr, change, stamp),
        }
    }

    /// What a change of an attribute adds, for the name.
    pub(crate) fn changed(
        &self,
        alloc: Global,
        name: &SimpleName,
        attr: &AttrName,
        change: &CellChange,
        stamp: Stamp,
    ) -> Result<Fragment, AllocError>
        ensures name { IfOk result (λ f. f.name ≡ name.now) }
        ensures entry { IfOk result
            (λ f. f.entry ≡ changed_entry self.now attr.now (change_marks change.now stamp)) }
    {
        let cell = AttrCell::changed(alloc, change, stamp)?;
        let attrs = one_attr(alloc, attr.copy(alloc)?, cell)?;
        self.marked(alloc, name, None, attrs)
    }

    /// Its birth with this death and these cells, for the name.
    fn marked(
        &self,
        alloc: Global,
        name: &SimpleName,
        death: Option<Stamp>,
        attrs: AttrMap,
    ) -> Result<Fragment, AllocError>
        ensures name { IfOk result (λ f. f.name ≡ name.now) }
        ensures entry { IfOk result
            (λ f. f.entry
            ≡ record { birth = self.now.birth; kind = self.now.kind; death = death; attrs = attrs }) }
    {
        Ok(Fragment {
            name: name.copy(alloc)?,
            entry: EntryCell {
                birth: self.birth,
                kind: self.kind,
                death,
                attrs,
            },
        })
    }

    /// Whether joining another entry in changes nothing. It takes no memory.
    pub(crate) fn outdates(&self, other: &EntryCell) -> bool
        ensures { IsTrue result → IsValidEntry self.now → IsValidEntry other.now
            → join_entries self.now other.now ≡ self.now }
    {
        match self.birth.cmp(&other.birth) {
            Ordering::Less => false,
            Ordering::Greater => true,
            Ordering::Equal => self.outdates_tied(other),
        }
    }

    /// The same of an entry of the same birth.
    #[tactic(auto, using(crate::proofs::EntryUnchanged::tied_unchanged))]
    fn outdates_tied(&self, other: &EntryCell) -> bool
        ensures { IsTrue result → IsValidEntry self.now → IsValidEntry other.now
            → join_tied self.now other.now ≡ self.now }
    {
        let kind = greater_kind(self.kind, other.kind);
        let death = earlier_of(self.death, other.death);
        if kind == self.kind && death == self.death {
            return self.attrs.outdates_all(&other.attrs);
        }
        false
    }

    /// Joins another entry in. What takes it back. Where the other birth is later, the old entry is
    /// kept whole. Where it is earlier no memory is asked for.
    pub(crate) fn join_logged(
        &mut self,
        alloc: Global,
        other: &EntryCell,
    ) -> Result<EntryUndo, AllocError>
        ensures joined { JoinsWith self.old self.new other.now result }
        ensures back { IfOk result (λ undo. undo_entry undo self.new ≡ self.old) }
    {
        match self.birth.cmp(&other.birth) {
            Ordering::Less => {
                let next = other.copy(alloc)?;
                Ok(EntryUndo::Whole(replace(self, next)))
            }
            Ordering::Greater => Ok(EntryUndo::Tied(self.kind, self.death, CellLog::new(alloc))),
            Ordering::Equal => {
                let undo = self.join_tied_logged(alloc, other)?;
                Ok(undo)
            }
        }
    }

    /// Joins an entry of the same birth in.
    fn join_tied(&mut self, alloc: Global, other: &EntryCell) -> Result<(), AllocError>
        ensures { JoinsTied self.old self.new other.now result }
    {
        self.attrs.join(alloc, &other.attrs)?;
        let kind = greater_kind(self.kind, other.kind);
        let death = earlier_of(self.death, other.death);
        self.kind = kind;
        self.death = death;
        Ok(())
    }

    /// Joins an entry of the same birth in. What takes it back.
    fn join_tied_logged(
        &mut self,
        alloc: Global,
        other: &EntryCell,
    ) -> Result<EntryUndo, AllocError>
        ensures joined { JoinsTied self.old self.new other.now result }
        ensures back { IfOk result (λ undo. undo_entry undo self.new ≡ self.old) }
    {
        let log = self.attrs.join_logged(alloc, &other.attrs)?;
        let kind = greater_kind(self.kind, other.kind);
        let death = earlier_of(self.death, other.death);
        Ok(EntryUndo::Tied(
            replace(&mut self.kind, kind),
            replace(&mut self.death, death),
            log,
        ))
    }

    /// Whether it died up to t.
    pub(crate) fn is_dead_up_to(&self, t: Stamp) -> bool
        ensures { result ≡ is_dead_up_to t self.now.death }
    {
        match self.death {
            Some(death) => !(t < death),
            None => false,
        }
    }

    /// What of it is later than t, with its birth, however old: its death, and the clears and the
    /// marks of its attributes.
    pub fn after(&self, alloc: Global, t: Stamp) -> Result<EntryCell, AllocError>
        ensures { IfOk result (λ e. e ≡ after_entry t self.now) }
    {
        let t = &t;
        Ok(EntryCell {
            birth: self.birth,
            kind: self.kind,
            death: death_after(self.death, *t),
            attrs: self.attrs.after(alloc, *t)?,
        })
    }

    /// Whether all of it is later than t, but for its birth. It takes no memory.
    pub fn is_after(&self, t: Stamp) -> bool
        ensures { IsTrue result ↔ (after_entry t self.now ≡ self.now) }
    {
        let t = &t;
        !self.is_dead_up_to(*t) && self.attrs.is_after(*t)
    }

    /// Whether neither its birth is later than t nor anything else of it. It takes no memory.
    pub(crate) fn is_old(&self, t: Stamp) -> bool
        ensures { result ≡ (is_up_to t self.now.birth && is_bare (after_entry t self.now)) }
    {
        let t = &t;
        !(*t < self.birth) && self.is_bare_after(*t)
    }

    /// Whether nothing of it but its birth is later than t.
    fn is_bare_after(&self, t: Stamp) -> bool
        ensures { result ≡ is_bare (after_entry t self.now) }
    {
        let t = &t;
        death_after(self.death, *t).is_none() && self.attrs.is_old(*t)
    }

    /// Whether it has nothing but its birth: neither a death nor an attribute.
    pub fn is_bare(&self) -> bool
        ensures { result ≡ is_bare self.now }
    {
        self.death.is_none() && self.attrs.len() == 0
    }

    /// Whether each of its cells is valid and not empty, as those of a table are. It takes no
    /// memory.
    pub fn is_valid(&self) -> bool
        ensures { IsTrue result ↔ IsValidEntry self.now }
    {
        self.attrs.is_valid()
    }

    /// Whether this was deleted of it at the stamp.
    pub(crate) fn has_lost(&self, stamp: Stamp, what: &What) -> bool
        ensures { result ≡ has_lost self.now stamp what.now }
    {
        match what {
            What::Death => self.death == Some(stamp),
            What::Clear(attr) => self.attrs.is_cleared_at(attr, stamp),
            What::Absent(attr, value) => self.attrs.is_absent_at(attr, value, stamp),
        }
    }

    /// Drops a clear of an attribute or the mark of a value, and an attribute of which nothing is
    /// left. A death stays.
    pub(crate) fn drop_lost(&mut self, what: &What)
        ensures { IfSome (entry_without what.now self.old) (λ e. self.new ≡ e) }
    {
        match what {
            What::Death => {}
            What::Clear(attr) => self.attrs.drop_clear(attr),
            What::Absent(attr, value) => self.attrs.drop_value(attr, value),
        }
    }

    /// The entry itself, its death, and the clears and marks of its attributes, counted as far as
    /// 64 bits go.
    pub fn held(&self) -> u64
        ensures { result ≡ min (held_in_entry self.now) most_held }
    {
        let mut sum: u64 = if self.death.is_some() { 2 } else { 1 };
        for (_, cell) in self.attrs.iter() {
            sum = sum.saturating_add(held_in_cell(cell));
        }
        sum
    }

    /// Takes a join back, with no memory.
    pub(crate) fn take_back(&mut self, undo: EntryUndo)
        ensures { self.new ≡ undo_entry undo self.old }
    {
        match undo {
            EntryUndo::Whole(old) => {
                *self = old;
            }
            EntryUndo::Tied(kind, death, log) => {
                self.kind = kind;
                self.death = death;
                self.attrs.take_back(log);
            }
        }
    }
}

impl Lattice for EntryCell {
    ghost valid = { IsValidEntry };

    ghost joined = { join_entries };

    ghost keeps_valid = { λ x y p q. entry_join.keeps x y p q };

    ghost commutative = { λ x y _ _. entry_join.comm x y };

    ghost associative = { λ x y z _ _ _. entry_join.assoc x y z };

    ghost idempotent = { λ x valid. entry_join.idem x valid };

    // Where the other birth is earlier no memory is asked for.
    fn join(&mut self, alloc: Global, other: &Self) -> Result<(), AllocError>
        ensures ok { OnOk result (IsValidEntry self.old → IsValidEntry other.now
            → self.new ≡ join_entries self.old other.now) }
        ensures birth { OnOk result (self.new.birth ≡ (join_entries self.old other.now).birth) }
        ensures kind { OnOk result (self.new.kind ≡ (join_entries self.old other.now).kind) }
        ensures death { OnOk result (self.new.death ≡ (join_entries self.old other.now).death) }
        ensures whole { OnOk result (self.old.birth ≢ other.now.birth
            → self.new ≡ join_entries self.old other.now) }
        ensures stays { is_earlier other.now.birth self.old.birth ≡ true → IsOk result }
        ensures err { OnErr result (self.new ≡ self.old) }
    {
        match self.birth.cmp(&other.birth) {
            Ordering::Less => {
                *self = other.copy(alloc)?;
            }
            Ordering::Greater => {}
            Ordering::Equal => {
                self.join_tied(alloc, other)?;
            }
        }
        Ok(())
    }
}

impl Fragment {
    /// A fragment of the same name and entry.
    pub fn copy(&self, alloc: Global) -> Result<Fragment, AllocError>
        ensures { IfOk result (λ f. f ≡ self.now) }
    {
        Ok(Fragment {
            name: self.name.copy(alloc)?,
            entry: self.entry.copy(alloc)?,
        })
    }
}

/// The clear and the marks of values of an attribute.
fn held_in_cell(cell: &AttrCell) -> u64
    ensures { result ≡ min (held_in_cell cell.now) most_held }
{
    let clears = if cell.cleared.is_some() { 1 } else { 0 };
    (cell.values.len() as u64).saturating_add(clears)
}

/// Whether the attribute changes only by the updates that make or repoint links and children.
pub(crate) fn is_reserved(attr: &AttrName) -> bool
    ensures { result ≡ is_reserved attr.now }
{
    attr.octets() == LINK_TARGET || attr.octets() == REPLICAS
}

/// Whether octets read as what an entry of this kind leads to.
fn is_readable(kind: Kind, octets: &[u8]) -> bool
    ensures { result ≡ is_readable kind octets.now }
{
    match kind {
        Kind::Object => false,
        Kind::Link => FullName::check(octets).is_ok(),
        Kind::Child => ChildPointer::check(octets).is_ok(),
    }
}

/// The value that is present in the cell and reads by this kind, if it is the only one.
fn only_readable(kind: Kind, cell: &AttrCell) -> Option<&Value>
    ensures { option_copied result ≡ only_one (filter (is_readable kind) (cell_values cell.now)) }
{
    let mut found = None;
    for (value, mark) in cell.values.iter() {
        if mark.present && is_readable(kind, value.octets()) {
            if found.is_some() {
                return None;
            }
            found = Some(value);
        }
    }
    found
}

/// The greater of two kinds: object, link, child.
fn greater_kind(a: Kind, b: Kind) -> Kind
    ensures { result ≡ greater kind_cmp a b }
{
    match (a, b) {
        (Kind::Child, _) | (_, Kind::Child) => Kind::Child,
        (Kind::Link, _) | (_, Kind::Link) => Kind::Link,
        (Kind::Object, Kind::Object) => Kind::Object,
    }
}

/// The earlier of two deaths.
fn earlier_of(a: Option<Stamp>, b: Option<Stamp>) -> Option<Stamp>
    ensures { result ≡ maybe earlier_stamp a b }
{
    match (a, b) {
        (Some(x), Some(y)) => Some(if y < x { y } else { x }),
        (Some(x), None) => Some(x),
        (None, y) => y,
    }
}

/// The death, if it is later than t.
fn death_after(death: Option<Stamp>, t: Stamp) -> Option<Stamp>
    ensures { result ≡ option_and_then (clear_left t) death }
{
    match death {
        Some(death) if t < death => Some(death),
        _ => None,
    }
}
