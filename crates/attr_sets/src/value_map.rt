// The marks of an attribute's values.
ghost use Rattle.std.specs.Prelude.{◌≡◌, ◌↔◌, IsTrue, List, ℕ, [], ◌∷◌, Some, None, MatchOption, MatchBool, IfOk, IfSome, OnOk, OnErr};
ghost use Rattle.std.specs.Prelude.{if◌then◌else◌, option_copied};
ghost use Rattle.std.specs.FinMap as map;
ghost use Rattle.compact_map.specs.MapEntries as entries;
ghost use Rattle.std.specs.Option.{option_and_then};
ghost use Rattle.std.specs.Ordering.{eq_by_cmp};
ghost use Rattle.cds_stamps.specs.Keyed.{map_some};
ghost use Rattle.cds_stamps.specs.Joins.{EachValue};
ghost use Rattle.cds_stamps.specs.Octets.{octets_cmp};
ghost use Rattle.cds_stamps.specs.Semilattice.{maybe};
ghost use Rattle.cds_stamps.specs.Undos.{RaisesAt, TakesBack, LogsChange, MendsAt, back_at, put_back};
ghost use Rattle.attr_sets.specs.CellPurges.{mark_left, mark_after};
ghost use Rattle.attr_sets.specs.Marks.{mark_after_clear, later, RaisesKept, JoinsKept};

use crate::mark::ValueMark;
use crate::value::Value;
use cds_stamps::Stamp;
use compact_map::{CompactMap, Iter};
use std::alloc::{AllocError, Global};
use std::marker::Model;
use std::mem::replace;

/// A mark for each value, in ascending order of the values.
pub struct ValueMap {
    marks: CompactMap<Value, ValueMark>,
}

impl Drop for ValueMap {
    fn drop(self) {
        let ValueMap { marks: _marks } = self;
    }
}

impl Model for ValueMap {
    ghost use Rattle.std.specs.FinMap as map;
    ghost use Rattle.cds_stamps.specs.Octets.{octets_cmp, octets_code};
    ghost use Rattle.attr_sets.specs.Marks.{mark_code};
    ghost use Rattle.attr_sets.specs.declared.mark.ValueMark.{ValueMark};

    ghost Value = { map.FinMap octets_cmp ValueMark };

    ghost coded = { map.code octets_code mark_code };

    ghost view = { λ m. map.from_entries m.marks };
}

/// What takes changes of a map of marks back: each value that was changed, and the mark that it
/// had, if any.
#[derive(Drop)]
pub struct MarkLog {
    changes: Vec<(Value, Option<ValueMark>)>,
}

impl Model for MarkLog {
    ghost use Rattle.std.specs.Prelude.{ℕ, List, Option};
    ghost use Rattle.attr_sets.specs.declared.mark.ValueMark.{ValueMark};

    ghost Value = { List (List ℕ × Option ValueMark) };

    ghost view = { λ log. log.changes.items };
}

impl Clone for ValueMap {
    ghost is_clone = { λ x y. y ≡ x };

    fn clone(&self) -> Result<ValueMap, AllocError> {
        Ok(ValueMap {
            marks: self.marks.clone()?,
        })
    }
}

impl ValueMap {
    /// No value has a mark. Takes no memory.
    pub fn new(alloc: Global) -> Self
        ensures { result ≡ map.empty }
    {
        ValueMap {
            marks: CompactMap::new(alloc),
        }
    }

    /// How many values have a mark.
    pub fn len(&self) -> usize
        ensures { result ≡ map.len self.now }
    {
        self.marks.len()
    }

    /// Whether no value has a mark.
    pub fn is_empty(&self) -> bool
        ensures { IsTrue result ↔ (map.len self.now ≡ 0) }
    {
        self.len() == 0
    }

    /// The values with their marks, ascending.
    pub fn iter(&self) -> Iter<'_, Value, ValueMark>
        ensures { result ≡ map.entries self.now }
    {
        self.marks.iter()
    }

    /// The mark of a value, if it has one.
    pub fn get(&self, value: &Value) -> Option<&ValueMark>
        ensures { option_copied result ≡ map.get self.now value.now }
    {
        self.marks.get(value)
    }

    /// Asks for room for so many more marks before they come, but for few at most. An insertion
    /// asks for what this could not get.
    pub fn reserve(&mut self, count: usize)
        ensures { self.new ≡ self.old }
    {
        self.marks.reserve(count);
    }

    /// Gives a value this mark. The mark that it had.
    pub fn insert(&mut self, value: Value, mark: ValueMark) -> Result<Option<ValueMark>, AllocError>
        ensures before { IfOk result (λ before. before ≡ map.get self.old value) }
        ensures ok { OnOk result (self.new ≡ map.insert self.old value mark) }
        ensures err { OnErr result (self.new ≡ self.old) }
    {
        Ok(self.marks.insert(value, mark)?)
    }

    /// Takes the mark of a value away. That one.
    pub fn remove(&mut self, value: &Value) -> Option<ValueMark>
        ensures before { result ≡ map.get self.old value.now }
        ensures after { self.new ≡ map.remove self.old value.now }
    {
        self.marks.remove(value)
    }

    /// A map of the same marks.
    pub fn copy(&self, _alloc: Global) -> Result<ValueMap, AllocError>
        ensures { IfOk result (λ m. m ≡ self.now) }
    {
        self.clone()
    }

    /// Its one mark, if it has one only.
    fn only(&self) -> Option<(&Value, &ValueMark)>
        ensures { IfSome result (λ p. (q : List ℕ)
            → map.get self.now q
            ≡ (if eq_by_cmp octets_cmp q p.0.now then Some p.1.now else None)) }
    {
        if self.marks.len() == 1 {
            self.marks.first_key_value()
        } else {
            None
        }
    }

    /// Joins one mark in, at most one insertion. The mark that the value had.
    pub(crate) fn raise(
        &mut self,
        alloc: Global,
        value: &Value,
        mark: ValueMark,
    ) -> Result<Option<ValueMark>, AllocError>
        ensures ok { OnOk result (RaisesAt later self.old self.new value.now mark) }
        ensures back { IfOk result
            (λ before. TakesBack put_back self.old self.new ((value.now, before) ∷ [])) }
        ensures err { OnErr result (self.new ≡ self.old) }
    {
        let mark = &mark;
        if let Some(before) = self.raise_here(value, *mark) {
            return Ok(Some(before));
        }
        let key = value.copy(alloc)?;
        self.insert(key, *mark)?;
        Ok(None)
    }

    /// Joins a mark in where the value has one. That one.
    fn raise_here(&mut self, value: &Value, mark: ValueMark) -> Option<ValueMark>
        ensures { MatchOption result ((map.get self.old value.now ≡ None)
            × (self.new ≡ self.old)) (λ before.
            RaisesAt later self.old self.new value.now mark
            × TakesBack put_back self.old self.new ((value.now, Some before) ∷ [])) }
    {
        match self.marks.get_mut(value) {
            Some(own) => {
                let next = own.later(mark);
                Some(replace(own, next))
            }
            None => None,
        }
    }

    /// Joins one mark in, unless it is earlier than the clear.
    pub(crate) fn raise_uncovered(
        &mut self,
        alloc: Global,
        value: &Value,
        mark: &ValueMark,
        clear: &Option<Stamp>,
    ) -> Result<(), AllocError>
        ensures ok { OnOk result (RaisesKept clear.now self.old self.new value.now mark.now) }
        ensures err { OnErr result (self.new ≡ self.old) }
    {
        if covers(clear, mark) {
            return Ok(());
        }
        self.raise(alloc, value, *mark)?;
        Ok(())
    }

    /// The same, and logs the change.
    fn raise_uncovered_logged(
        &mut self,
        alloc: Global,
        value: &Value,
        mark: &ValueMark,
        clear: &Option<Stamp>,
        log: &mut Vec<(Value, Option<ValueMark>)>,
    ) -> Result<(), AllocError>
        ensures ok { OnOk result (RaisesKept clear.now self.old self.new value.now mark.now) }
        ensures back { LogsChange put_back self.old self.new log.old.items log.new.items }
    {
        if covers(clear, mark) {
            return Ok(());
        }
        self.raise_logged(alloc, value, *mark, log)?;
        Ok(())
    }

    /// Whether the value has a mark that this one does not change.
    fn outdates(&self, value: &Value, mark: &ValueMark) -> bool
        ensures { IsTrue result
            → maybe later (map.get self.now value.now) (Some mark.now)
            ≡ map.get self.now value.now }
    {
        match self.get(value) {
            Some(own) => own.later(*mark) == *own,
            None => false,
        }
    }

    /// Whether joining one mark in, unless it is earlier than the clear, changes nothing.
    fn outdates_uncovered(&self, value: &Value, mark: &ValueMark, clear: &Option<Stamp>) -> bool
        ensures { IsTrue result → RaisesKept clear.now self.now self.now value.now mark.now }
    {
        if covers(clear, mark) {
            return true;
        }
        self.outdates(value, mark)
    }

    /// Whether joining the marks of another map in that are not earlier than the clear changes
    /// nothing.
    pub(crate) fn outdates_all(&self, other: &ValueMap, clear: &Option<Stamp>) -> bool
        ensures { IsTrue result → JoinsKept clear.now self.now self.now other.now }
    {
        for (value, mark) in other.marks.iter() {
            let outdated = self.outdates_uncovered(value, mark, clear);
            if !outdated {
                return false;
            }
        }
        true
    }

    /// Joins one mark in, and logs the change, if it is one. Room in the log comes first.
    fn raise_logged(
        &mut self,
        alloc: Global,
        value: &Value,
        mark: ValueMark,
        log: &mut Vec<(Value, Option<ValueMark>)>,
    ) -> Result<(), AllocError>
        ensures ok { OnOk result (RaisesAt later self.old self.new value.now mark) }
        ensures back { LogsChange put_back self.old self.new log.old.items log.new.items }
    {
        let mark = &mark;
        if self.outdates(value, mark) {
            return Ok(());
        }
        log.reserve(1)?;
        let key = value.copy(alloc)?;
        let before = self.raise(alloc, value, *mark)?;
        log.push((key, before)).unwrap();
        Ok(())
    }

    /// Joins the marks of another map in that are not earlier than the clear, each logged before
    /// the next one.
    fn raise_all_logged(
        &mut self,
        alloc: Global,
        other: &ValueMap,
        clear: &Option<Stamp>,
        log: &mut Vec<(Value, Option<ValueMark>)>,
    ) -> Result<(), AllocError>
        ensures ok { OnOk result (JoinsKept clear.now self.old self.new other.now) }
        ensures back { LogsChange put_back self.old self.new log.old.items log.new.items }
    {
        for (value, mark) in other.marks.iter() {
            self.raise_uncovered_logged(alloc, value, mark, clear, log)?;
        }
        Ok(())
    }

    /// Joins the marks of another map in that are not earlier than the clear. For a map that is let
    /// go after an Err, since it keeps what was joined till then.
    pub(crate) fn raise_all(
        &mut self,
        alloc: Global,
        other: &ValueMap,
        clear: &Option<Stamp>,
    ) -> Result<(), AllocError>
        ensures { OnOk result (JoinsKept clear.now self.old self.new other.now) }
    {
        for (value, mark) in other.marks.iter() {
            self.raise_uncovered(alloc, value, mark, clear)?;
        }
        Ok(())
    }

    /// Joins the marks of another map in that are not earlier than the clear. What takes it back.
    pub(crate) fn join_logged(
        &mut self,
        alloc: Global,
        other: &ValueMap,
        clear: &Option<Stamp>,
    ) -> Result<MarkLog, AllocError>
        ensures ok { OnOk result (JoinsKept clear.now self.old self.new other.now) }
        ensures back { IfOk result (λ log. TakesBack put_back self.old self.new log) }
        ensures err { OnErr result (self.new ≡ self.old) }
    {
        let mut changes = Vec::new(alloc);
        if let Err(error) = self.raise_all_logged(alloc, other, clear, &mut changes) {
            self.take_changes_back(changes);
            return Err(error);
        }
        Ok(MarkLog { changes })
    }

    /// Joins the marks of another map in that are not earlier than the clear; of one mark with no
    /// log.
    pub(crate) fn join(
        &mut self,
        alloc: Global,
        other: &ValueMap,
        clear: &Option<Stamp>,
    ) -> Result<(), AllocError>
        ensures ok { OnOk result (JoinsKept clear.now self.old self.new other.now) }
        ensures err { OnErr result (self.new ≡ self.old) }
    {
        if let Some((value, mark)) = other.only() {
            self.raise_uncovered(alloc, value, mark, clear)?;
            return Ok(());
        }
        self.join_logged(alloc, other, clear)?;
        Ok(())
    }

    /// Takes the changes of a log back.
    pub(crate) fn take_back(&mut self, log: MarkLog)
        ensures { (q : List ℕ)
            → map.get self.new q ≡ back_at octets_cmp put_back log q (map.get self.old q) }
    {
        self.take_changes_back(log.changes);
    }

    fn take_changes_back(&mut self, changes: Vec<(Value, Option<ValueMark>)>)
        ensures { (q : List ℕ)
            → map.get self.new q
            ≡ back_at octets_cmp put_back changes.items q (map.get self.old q) }
    {
        let mut changes = changes;
        while let Some((value, before)) = changes.pop() {
            self.mend(&value, before);
        }
    }

    fn mend(&mut self, value: &Value, before: Option<ValueMark>)
        ensures { MendsAt put_back self.old self.new value.now before }
    {
        match before {
            Some(before) => {
                if let Some(own) = self.marks.get_mut(value) {
                    *own = before;
                }
            }
            None => {
                self.marks.remove(value);
            }
        }
    }

    /// Whether no mark is earlier than the clear.
    pub(crate) fn is_kept(&self, clear: &Option<Stamp>) -> bool
        ensures { IsTrue result
            ↔ EachValue (λ m. mark_after_clear clear.now (Some m) ≡ Some m) self.now }
    {
        for (_, mark) in self.marks.iter() {
            if covers(clear, mark) {
                return false;
            }
        }
        true
    }

    /// Drops the marks that are earlier than the clear.
    pub(crate) fn keep_from(&mut self, clear: Stamp)
        ensures { (q : List ℕ)
            → map.get self.new q ≡ mark_after_clear (Some clear) (map.get self.old q) }
    {
        keep_marks_from(&mut self.marks, clear);
    }

    /// Drops the absent marks that are stamped at most t.
    pub(crate) fn drop_up_to(&mut self, t: Stamp)
        ensures { self.new ≡ map_some (mark_left t) self.old }
    {
        drop_marks_up_to(&mut self.marks, t);
    }

    /// The marks that are later than t.
    pub(crate) fn after(&self, alloc: Global, t: Stamp) -> Result<ValueMap, AllocError>
        ensures { IfOk result (λ m. m ≡ map_some (mark_after t) self.now) }
    {
        let mut later = ValueMap::new(alloc);
        for (value, mark) in self.marks.iter() {
            if t < mark.stamp {
                later.insert(value.copy(alloc)?, *mark)?;
            }
        }
        Ok(later)
    }

    /// Whether each mark is later than t.
    pub(crate) fn is_after(&self, t: Stamp) -> bool
        ensures { IsTrue result ↔ (map_some (mark_after t) self.now ≡ self.now) }
    {
        for (_, mark) in self.marks.iter() {
            if mark.stamp <= t {
                return false;
            }
        }
        true
    }
}

fn keep_marks_from(marks: &mut CompactMap<Value, ValueMark>, clear: Stamp)
    ensures { (q : List ℕ)
        → entries.get octets_cmp marks.new q
        ≡ mark_after_clear (Some clear) (entries.get octets_cmp marks.old q) }
{
    marks.retain(|_, mark| !(mark.stamp < clear));
}

fn drop_marks_up_to(marks: &mut CompactMap<Value, ValueMark>, t: Stamp)
    ensures { (q : List ℕ)
        → entries.get octets_cmp marks.new q
        ≡ option_and_then (mark_left t) (entries.get octets_cmp marks.old q) }
{
    marks.retain(|_, mark| mark.present || t < mark.stamp);
}

/// Whether the mark is earlier than the clear.
pub(crate) fn covers(clear: &Option<Stamp>, mark: &ValueMark) -> bool
    ensures { mark_after_clear clear.now (Some mark.now)
        ≡ (if result then None else Some mark.now) }
{
    match clear {
        Some(clear) => mark.stamp < *clear,
        None => false,
    }
}
