// The table of a directory.
ghost use Rattle.std.specs.Prelude.{◌≡◌, ◌-◌, ◌<◌, min, ℕ, List, Option, Some, None, true, option_copied, if◌then◌else◌};
ghost use Rattle.std.specs.Prelude.{IsOk, IfOk, IfSome, IfNone, OnOk, OnErr};
ghost use Rattle.std.specs.FinMap as map;
ghost use Rattle.std.specs.List.{fold, AllByRecursion};
ghost use Rattle.std.specs.Option.{option_map};
ghost use Rattle.std.specs.Result.{result_err};
ghost use Rattle.cds_stamps.specs.declared.stamp.Stamp.{Stamp};
ghost use Rattle.cds_stamps.specs.Outcomes.{ok_unless};
ghost use Rattle.cds_stamps.specs.Semilattice.{maybe};
ghost use Rattle.cds_stamps.specs.Stamps.{later_stamp};
ghost use Rattle.directory.specs.declared.deletions.Deletion.{Deletion};
ghost use Rattle.directory.specs.Applied.{TakesIn, JoinsEntry, LeavesOthers};
ghost use Rattle.directory.specs.Deletions.{has_deletion, IsFirst, HasNone, without};
ghost use Rattle.directory.specs.Entries.{IsValidEntry, IsValidTable, join_tables};
ghost use Rattle.directory.specs.EntryLawProofs.{table_join};
ghost use Rattle.directory.specs.Held.{held_in, most_held};
ghost use Rattle.directory.specs.Histories.{Mark, entry_of};
ghost use Rattle.directory.specs.IndexWords.{IsIndexed};
ghost use Rattle.directory.specs.Purges.{delta_table, purged_table, purged_entries, take_table};
ghost use Rattle.directory.specs.Shown.{face_of, shown_in, live_count, refusal_of, marks_of};
ghost use Rattle.directory.specs.ToldWords.{IsAccepted, TakesMarksOf, AcceptsUpdate, TellsUpdate};
ghost use Rattle.directory.specs.Updates.{change_of, changed_name};

use crate::deletions::Deletions;
use crate::entry::{EntryCell, Fragment, Told};
use crate::entry_map::EntryMap;
use crate::excerpt::Excerpt;
use crate::later::{add_deletions, later_entries, take_later};
use crate::update::{Accepted, Update, UpdateRefusal};
use attr_sets::Value;
use cds_stamps::{AttrName, Lattice, SimpleName, Stamp};
use std::alloc::{AllocError, Global};
use std::collections::btree_map::Iter;
use std::marker::Model;

/// A valid entry for each simple name, in ascending order of the names; and an index of their
/// deletions, on which `first_deletion`, `drop_first` and `drop_up_to` rest.
pub struct Table {
    entries: EntryMap,
    deletions: Deletions,
}

impl Drop for Table {
    fn drop(self) {
        let Table {
            entries: _entries,
            deletions: _deletions,
        } = self;
    }
}

impl Model for Table {
    ghost use Rattle.std.specs.FinMap as map;
    ghost use Rattle.cds_stamps.specs.Octets.{octets_cmp, octets_code};
    ghost use Rattle.directory.specs.Entries.{entry_code};
    ghost use Rattle.directory.specs.IndexWords.{IsIndexed};
    ghost use Rattle.directory.specs.declared.entry.EntryCell.{EntryCell};

    ghost Value = { map.FinMap octets_cmp EntryCell };

    ghost coded = { map.code octets_code entry_code };

    ghost view = { λ t. t.entries };

    ghost invariant = { λ t. IsIndexed t.deletions t.entries };
}

impl Clone for Table {
    ghost is_clone = { λ x y. y ≡ x };

    fn clone(&self) -> Result<Table, AllocError> {
        // (the pattern names each field, so that there are no others)
        let Table { entries, deletions } = self;
        Ok(Table {
            entries: entries.clone()?,
            deletions: deletions.clone()?,
        })
    }
}

// A table as a map, and what shows of it.
impl Table {
    /// No entry. Takes no memory.
    pub fn new(alloc: Global) -> Self
        ensures { result ≡ map.empty }
    {
        Table {
            entries: EntryMap::new(alloc),
            deletions: Deletions::new(alloc),
        }
    }

    /// How many names have an entry, live or not.
    pub fn len(&self) -> usize
        ensures { result ≡ map.len self.now }
    {
        self.entries.len()
    }

    /// The names with their entries, live or not, ascending.
    pub fn iter(&self) -> Iter<'_, SimpleName, EntryCell>
        ensures { result ≡ map.entries self.now }
    {
        self.entries.iter()
    }

    /// The entry of a name, live or not.
    pub fn get(&self, name: &SimpleName) -> Option<&EntryCell>
        ensures { option_copied result ≡ map.get self.now name.now }
    {
        self.entries.get(name)
    }

    /// The table of these entries, inserted in turn, and faster than that where their names ascend:
    /// each is compared with the next one alone.
    pub fn from_pairs(
        alloc: Global,
        pairs: Vec<(SimpleName, EntryCell)>,
    ) -> Result<Table, AllocError>
        requires { AllByRecursion (λ p. IsValidEntry p.1) pairs.items }
        ensures { IfOk result (λ t. t ≡ fold (λ m p. map.insert m p.0 p.1) map.empty pairs.items) }
    {
        let mut deletions = Deletions::new(alloc);
        for (name, entry) in pairs.iter() {
            deletions.add_entry(alloc, name, entry)?;
        }
        let entries = EntryMap::from_pairs(alloc, pairs)?;
        deletions.settle(&entries);
        Ok(Table { entries, deletions })
    }

    /// A table of the same entries.
    pub fn copy(&self, _alloc: Global) -> Result<Table, AllocError>
        ensures { IfOk result (λ m. m ≡ self.now) }
    {
        self.clone()
    }

    /// The entry that shows of a name. It takes no memory.
    pub fn live(&self, name: &SimpleName) -> Option<&EntryCell>
        ensures entry { IfSome (option_copied result) (λ e. map.get self.now name.now ≡ Some e) }
        ensures shown { option_map face_of (option_copied result) ≡ shown_in self.now name.now }
    {
        self.entries.live(name)
    }

    /// The values of an attribute that show of a name, ascending; none, where the name has no entry
    /// that shows, and then no memory is asked for.
    pub fn values(
        &self,
        alloc: Global,
        name: &SimpleName,
        attr: &AttrName,
    ) -> Result<Option<Vec<Value>>, AllocError>
        ensures values { IfOk result
            (λ found. option_map (λ v. v.items) found
            ≡ option_map (λ e. e.values attr.now) (shown_in self.now name.now)) }
        ensures none { shown_in self.now name.now ≡ None → IsOk result }
    {
        match self.live(name) {
            Some(entry) => Ok(Some(entry.values(alloc, attr)?)),
            None => Ok(None),
        }
    }

    /// How many entries show.
    pub fn live_entries(&self) -> u64
        ensures { result ≡ live_count self.now }
    {
        self.iter().filter(|(_, entry)| entry.is_live()).count() as u64
    }
}

// Updates.
impl Table {
    /// Whether an update is accepted by what shows of its name, or why not. It takes no memory.
    pub fn check(&self, update: &Update) -> Result<(), UpdateRefusal>
        ensures { result ≡ ok_unless
            (refusal_of (shown_in self.now (changed_name (change_of update.now)))
            (change_of update.now)) tt }
    {
        self.entries.check(update)
    }

    /// What an accepted update adds to the table, with this stamp.
    pub fn fragment(
        &self,
        alloc: Global,
        update: &Update,
        stamp: Stamp,
    ) -> Result<Fragment, AllocError>
        requires { refusal_of (shown_in self.now (changed_name (change_of update.now)))
            (change_of update.now) ≡ None }
        ensures name { IfOk result (λ f. f.name ≡ changed_name (change_of update.now)) }
        ensures entry { IfOk result (λ f. let u = change_of update.now in
            entry_of (marks_of (shown_in self.now (changed_name u)) u stamp) f.name
            ≡ Some f.entry) }
    {
        self.entries.fragment(alloc, update, stamp)
    }

    /// Adds the marks of an accepted update with this stamp, in place: what joining its fragment in
    /// would do. Of a change of an attribute nothing is copied but what is new to the table.
    pub fn apply(&mut self, alloc: Global, update: &Update, stamp: Stamp) -> Result<(), AllocError>
        requires { refusal_of (shown_in self.old (changed_name (change_of update.now)))
            (change_of update.now) ≡ None }
        ensures ok { let n = changed_name (change_of update.now) in
            OnOk result (TakesIn self.old self.new n
            (marks_of (shown_in self.old n) (change_of update.now) stamp)) }
        ensures others { LeavesOthers self.old self.new (changed_name (change_of update.now)) }
        ensures err { OnErr result (self.new ≡ self.old) }
    {
        apply_update(&mut self.entries, &mut self.deletions, alloc, update, stamp)
    }

    /// Adds the marks of an update with this stamp in place, or refuses it: as check and apply do,
    /// but that the name of a deletion or of a change of an attribute is looked up once. Memory for
    /// the index is asked for first, so that a refused update too may be told as want of it.
    pub fn accept(
        &mut self,
        alloc: Global,
        update: &Update,
        stamp: Stamp,
    ) -> Result<Result<(), UpdateRefusal>, AllocError>
        ensures answer { IfOk result (λ answer.
            answer ≡ ok_unless
            (refusal_of (shown_in self.old (changed_name (change_of update.now)))
            (change_of update.now)) tt) }
        ensures ok { let n = changed_name (change_of update.now) in
            IfOk result (λ answer. OnOk answer
            (TakesIn self.old self.new n
            (marks_of (shown_in self.old n) (change_of update.now) stamp))) }
        ensures others { LeavesOthers self.old self.new (changed_name (change_of update.now)) }
        ensures refused { IfOk result (λ answer. OnErr answer (self.new ≡ self.old)) }
        ensures err { OnErr result (self.new ≡ self.old) }
    {
        accept_update(&mut self.entries, &mut self.deletions, alloc, update, stamp)
    }

    /// Adds the marks of an update with this stamp in place, and gives its fragment; or refuses it:
    /// what check answers, what fragment gives of the table as it was, and what apply leaves, by
    /// one call. The name of a deletion or of a change of an attribute is looked up once, and that
    /// of a new entry twice, where the table has none of its name, dead or alive. Memory for the
    /// index is asked for first, so that a refused update too may be told as want of it.
    pub fn accept_told(
        &mut self,
        alloc: Global,
        update: &Update,
        stamp: Stamp,
    ) -> Result<Result<Fragment, UpdateRefusal>, AllocError>
        ensures answer { IfOk result (λ answer.
            result_err answer
            ≡ refusal_of (shown_in self.old (changed_name (change_of update.now)))
            (change_of update.now)) }
        ensures ok { let n = changed_name (change_of update.now) in
            IfOk result (λ answer. OnOk answer
            (TakesIn self.old self.new n
            (marks_of (shown_in self.old n) (change_of update.now) stamp))) }
        ensures name { IfOk result
            (λ answer. IfOk answer (λ f. f.name ≡ changed_name (change_of update.now))) }
        ensures entry { IfOk result (λ answer. IfOk answer (λ f. let u = change_of update.now in
            entry_of (marks_of (shown_in self.old (changed_name u)) u stamp) f.name
            ≡ Some f.entry)) }
        ensures others { LeavesOthers self.old self.new (changed_name (change_of update.now)) }
        ensures refused { IfOk result (λ answer. OnErr answer (self.new ≡ self.old)) }
        ensures err { OnErr result (self.new ≡ self.old) }
    {
        tell_update(&mut self.entries, &mut self.deletions, alloc, update, stamp)
    }

    /// Joins what an update adds in, in place, with at most one insertion at each level of the
    /// entry: of one mark the cost grows with the logarithm of the number of entries, attributes
    /// and values. An entry that is not valid is left out.
    pub fn join_entry(&mut self, alloc: Global, fragment: &Fragment) -> Result<(), AllocError>
        ensures ok { OnOk result
            (JoinsEntry self.old self.new fragment.now.name fragment.now.entry) }
        ensures others { OnOk result (LeavesOthers self.old self.new fragment.now.name) }
        ensures left_out { OnOk result ((IsValidEntry fragment.now.entry → ⊥)
            → self.new ≡ self.old) }
        ensures err { OnErr result (self.new ≡ self.old) }
    {
        if !fragment.entry.is_valid() {
            return Ok(());
        }
        join_fragment(&mut self.entries, &mut self.deletions, alloc, fragment)
    }
}

// Deletions.
impl Table {
    /// The least stamp of a deletion: of a death, of the clear of an attribute, or of a value that
    /// is absent. It is at hand.
    pub fn first_deletion(&self) -> Option<Stamp>
        ensures first { IfSome result (λ s. (d : Deletion) × ((d.stamp ≡ s) × IsFirst self.now d)) }
        ensures none { IfNone result (HasNone self.now) }
        ensures valid { IsValidTable self.now }
    {
        match self.deletions.first() {
            Some(deletion) => Some(deletion.stamp),
            None => None,
        }
    }

    /// Drops the first deletion: an entry that died whole, else a clear, or the mark of an absent
    /// value, and an attribute of which nothing is left. Deletions of one stamp are ordered by
    /// name, deaths before clears before values, then by attribute and by value. How many entries,
    /// deaths, clears and marks of values that were, or the last number of 64 bits where there were
    /// more. It takes no memory.
    pub fn drop_first(&mut self) -> u64
        requires { (d : Deletion) × (has_deletion self.old d ≡ true) }
        ensures dropped { (d : Deletion) → IsFirst self.old d → self.new ≡ without self.old d }
        ensures count { result ≡ min (held_in self.old - held_in self.new) most_held }
        ensures fewer { held_in self.new < held_in self.old }
    {
        drop_first_deletion(&mut self.entries, &mut self.deletions)
    }

    /// Drops each entry that died up to t, and the deletions of attributes that are stamped at most
    /// t. It takes no memory, and looks at no entry but those.
    pub fn drop_up_to(&mut self, t: Stamp)
        ensures dropped { self.new ≡ purged_table t self.old }
        ensures histories { (h : List Mark) (a : Option Stamp)
            → maybe later_stamp a (Some t) ≡ Some t →
            self.old ≡ purged_entries h a → self.new ≡ purged_entries h (Some t) }
        ensures valid { IsValidTable self.old → IsValidTable self.new }
    {
        drop_deletions_up_to(&mut self.entries, &mut self.deletions, t);
    }

    /// What of each entry is later than t, with its birth; entries of which a birth up to t alone
    /// is left are not in it. Nothing is copied but what is later.
    pub fn later_than(&self, alloc: Global, t: Stamp) -> Result<Excerpt, AllocError>
        ensures { IfOk result (λ d. d ≡ delta_table (Some t) self.now) }
    {
        let entries = later_entries(alloc, &self.entries, t)?;
        Ok(Excerpt { entries })
    }

    /// All its entries.
    pub fn excerpt(&self) -> Result<Excerpt, AllocError>
        ensures { IfOk result (λ e. e ≡ self.now) }
    {
        Ok(Excerpt {
            entries: self.entries.clone()?,
        })
    }

    /// Takes of another table what is later than t, but no entry that was born up to t and is not
    /// the one that its name has. Of what it has already nothing is copied.
    pub fn take_up_to(&mut self, alloc: Global, other: &Table, t: Stamp) -> Result<(), AllocError>
        ensures ok { OnOk result (self.new ≡ take_table t self.old other.now) }
        ensures err { OnErr result (self.new ≡ self.old) }
    {
        self.take_entries(alloc, &other.entries, t)
    }

    /// The same of an excerpt.
    pub fn take_excerpt_up_to(
        &mut self,
        alloc: Global,
        other: &Excerpt,
        t: Stamp,
    ) -> Result<(), AllocError>
        ensures ok { OnOk result (self.new ≡ take_table t self.old other.now) }
        ensures err { OnErr result (self.new ≡ self.old) }
    {
        self.take_entries(alloc, &other.entries, t)
    }

    /// Takes of other entries what is later than t.
    fn take_entries(&mut self, alloc: Global, other: &EntryMap, t: Stamp) -> Result<(), AllocError>
        requires { IsValidTable other.now }
        ensures ok { OnOk result (self.new ≡ take_table t self.old other.now) }
        ensures err { OnErr result (self.new ≡ self.old) }
    {
        take_later(&mut self.entries, &mut self.deletions, alloc, other, t)
    }

    /// Joins an excerpt in.
    pub fn join_excerpt(&mut self, alloc: Global, other: &Excerpt) -> Result<(), AllocError>
        ensures ok { OnOk result (self.new ≡ join_tables self.old other.now) }
        ensures err { OnErr result (self.new ≡ self.old) }
    {
        join_entries(
            &mut self.entries,
            &mut self.deletions,
            alloc,
            &other.entries,
        )
    }
}

impl Lattice for Table {
    ghost valid = { IsValidTable };

    ghost joined = { join_tables };

    ghost keeps_valid = { λ x y p q. table_join.keeps x y p q };

    ghost commutative = { λ x y _ _. table_join.comm x y };

    ghost associative = { λ x y z _ _ _. table_join.assoc x y z };

    ghost idempotent = { λ x valid. table_join.idem x valid };

    fn join(&mut self, alloc: Global, other: &Self) -> Result<(), AllocError> {
        join_all(
            &mut self.entries,
            &mut self.deletions,
            alloc,
            &other.entries,
            &other.deletions,
        )
    }
}

/// Adds the marks of an accepted update to entries and their index.
fn apply_update(
    entries: &mut EntryMap,
    deletions: &mut Deletions,
    alloc: Global,
    update: &Update,
    stamp: Stamp,
) -> Result<(), AllocError>
    requires { IsAccepted entries.old (change_of update.now) }
    ensures ok { OnOk result (TakesMarksOf entries.old entries.new (change_of update.now) stamp) }
    ensures others { LeavesOthers entries.old entries.new (changed_name (change_of update.now)) }
    ensures err { OnErr result (entries.new ≡ entries.old) }
    ensures index { IsIndexed deletions.old entries.old → IsIndexed deletions.new entries.new }
{
    let stamp = &stamp;
    deletions.add_update(alloc, update, *stamp)?;
    let applied = entries.apply(alloc, update, *stamp);
    deletions.settle_after(entries, update);
    applied
}

/// Adds the marks of an update to entries and their index, or refuses it.
fn accept_update(
    entries: &mut EntryMap,
    deletions: &mut Deletions,
    alloc: Global,
    update: &Update,
    stamp: Stamp,
) -> Accepted
    ensures accepts { AcceptsUpdate entries.old entries.new (change_of update.now) stamp result }
    ensures index { IsIndexed deletions.old entries.old → IsIndexed deletions.new entries.new }
{
    let stamp = &stamp;
    deletions.add_update(alloc, update, *stamp)?;
    let answer = entries.accept(alloc, update, *stamp);
    deletions.settle_after(entries, update);
    answer
}

/// Adds the marks of an update to entries and their index, and gives its fragment; or refuses it.
fn tell_update(
    entries: &mut EntryMap,
    deletions: &mut Deletions,
    alloc: Global,
    update: &Update,
    stamp: Stamp,
) -> Told
    ensures told { TellsUpdate entries.old entries.new (change_of update.now) stamp result }
    ensures index { IsIndexed deletions.old entries.old → IsIndexed deletions.new entries.new }
{
    let stamp = &stamp;
    deletions.add_update(alloc, update, *stamp)?;
    let answer = entries.accept_told(alloc, update, *stamp);
    deletions.settle_after(entries, update);
    answer
}

/// Joins a valid fragment in, and its deletions.
fn join_fragment(
    entries: &mut EntryMap,
    deletions: &mut Deletions,
    alloc: Global,
    fragment: &Fragment,
) -> Result<(), AllocError>
    requires { IsValidEntry fragment.now.entry }
    ensures ok { OnOk result
        (JoinsEntry entries.old entries.new fragment.now.name fragment.now.entry) }
    ensures others { OnOk result (LeavesOthers entries.old entries.new fragment.now.name) }
    ensures err { OnErr result (entries.new ≡ entries.old) }
    ensures index { IsIndexed deletions.old entries.old → IsIndexed deletions.new entries.new }
{
    let mut joined = deletions.add_entry(alloc, &fragment.name, &fragment.entry);
    if joined.is_ok() {
        joined = entries.join_entry(alloc, fragment);
    }
    deletions.settle_at(entries, &fragment.name);
    joined
}

/// Joins other entries in, and what their index knows of.
fn join_all(
    entries: &mut EntryMap,
    deletions: &mut Deletions,
    alloc: Global,
    other: &EntryMap,
    others: &Deletions,
) -> Result<(), AllocError>
    requires { IsIndexed others.now other.now }
    ensures ok { OnOk result (IsValidTable entries.old
        → entries.new ≡ join_tables entries.old other.now) }
    ensures err { OnErr result (entries.new ≡ entries.old) }
    ensures index { IsIndexed deletions.old entries.old → IsIndexed deletions.new entries.new }
{
    let mut joined = deletions.add_all(others);
    if joined.is_ok() {
        joined = entries.join(alloc, other);
    }
    deletions.settle(entries);
    joined
}

/// Joins other entries in, and adds their deletions.
fn join_entries(
    entries: &mut EntryMap,
    deletions: &mut Deletions,
    alloc: Global,
    other: &EntryMap,
) -> Result<(), AllocError>
    requires { IsValidTable other.now }
    ensures ok { OnOk result (IsValidTable entries.old
        → entries.new ≡ join_tables entries.old other.now) }
    ensures err { OnErr result (entries.new ≡ entries.old) }
    ensures index { IsIndexed deletions.old entries.old → IsIndexed deletions.new entries.new }
{
    let mut joined = add_deletions(deletions, alloc, other);
    if joined.is_ok() {
        joined = entries.join(alloc, other);
    }
    deletions.settle(entries);
    joined
}

/// Drops the first deletion, and takes it out of the index. How many records that were.
fn drop_first_deletion(entries: &mut EntryMap, deletions: &mut Deletions) -> u64
    requires indexed { IsIndexed deletions.old entries.old }
    requires some { (d : Deletion) × (has_deletion entries.old d ≡ true) }
    ensures dropped { (d : Deletion) → IsFirst entries.old d → entries.new ≡ without entries.old d }
    ensures count { result ≡ min (held_in entries.old - held_in entries.new) most_held }
    ensures fewer { held_in entries.new < held_in entries.old }
    ensures index { IsIndexed deletions.new entries.new }
{
    let mut dropped = 0;
    if let Some(first) = deletions.pop_first() {
        dropped = entries.drop_known(&first);
    }
    deletions.settle(entries);
    dropped
}

/// Drops deletions up to t, and takes them out of the index.
fn drop_deletions_up_to(entries: &mut EntryMap, deletions: &mut Deletions, t: Stamp)
    ensures dropped { IsIndexed deletions.old entries.old
        → entries.new ≡ purged_table t entries.old }
    ensures index { IsIndexed deletions.old entries.old → IsIndexed deletions.new entries.new }
{
    let t = &t;
    while let Some(first) = deletions.pop_up_to(*t) {
        entries.drop_deletion(&first);
    }
    deletions.settle(entries);
}
