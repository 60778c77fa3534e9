// The cell of an attribute.
ghost use Rattle.std.specs.Prelude.{◌≡◌, ◌↔◌, ◌≢◌, IsTrue, List, ℕ, [], ◌∷◌, true, false, IfOk, IsOk, OnOk, OnErr, MatchBool};
ghost use Rattle.std.specs.FinMap as map;
ghost use Rattle.std.specs.Option.{option_and_then};
ghost use Rattle.cds_stamps.specs.Semilattice.{maybe};
ghost use Rattle.cds_stamps.specs.Stamps.{later_stamp};
ghost use Rattle.attr_sets.specs.Marks.{mark_after_clear, present_at, absent_at, RaisesKept, AgreesOnKept};
ghost use Rattle.attr_sets.specs.AttributeCells.{Cleared, Marked, cell_of, cell_values, join_cells, IsValidCell, TakesCell};
ghost use Rattle.attr_sets.specs.CellPurges.{clear_left, purged_cell, after_cell, is_empty_cell};
ghost use Rattle.attr_sets.specs.CellUndoWords.{undo_cell};
ghost use Rattle.attr_sets.specs.CellChanges.{change_marks, ChangesCell};
ghost use Rattle.attr_sets.specs.declared.change.CellChange.TheVariants.{Clear};
ghost use Rattle.attr_sets.specs.CellLawProofs.{join_cells-comm, join_cells-assoc, join_cells-idem, join_cells-valid};

use crate::change::CellChange;
use crate::mark::ValueMark;
use crate::undo::CellUndo;
use crate::value::Value;
use crate::value_map::ValueMap;
use cds_stamps::{Lattice, Stamp, later_of};
use std::alloc::{AllocError, Global};
use std::mem::replace;

/// What is known of an attribute: its latest clear, and a mark for each value that the clear keeps.
pub struct AttrCell {
    pub cleared: Option<Stamp>,
    pub values: ValueMap,
}

impl Drop for AttrCell {
    fn drop(self) {
        let AttrCell {
            cleared: _cleared,
            values: _values,
        } = self;
    }
}

impl Clone for AttrCell {
    ghost is_clone = { λ x y. y ≡ x };

    fn clone(&self) -> Result<AttrCell, AllocError> {
        Ok(AttrCell {
            cleared: self.cleared,
            values: self.values.clone()?,
        })
    }
}

impl AttrCell {
    /// The cell of an attribute of which nothing is known.
    pub fn new(alloc: Global) -> Self
        ensures { result ≡ cell_of [] }
    {
        AttrCell {
            cleared: None,
            values: ValueMap::new(alloc),
        }
    }

    /// A cell of the same clear and marks.
    pub fn copy(&self, _alloc: Global) -> Result<AttrCell, AllocError>
        ensures { IfOk result (λ c. c ≡ self.now) }
    {
        self.clone()
    }

    /// The values that are present, ascending.
    pub fn present_values(&self, alloc: Global) -> Result<Vec<Value>, AllocError>
        ensures { IfOk result (λ v. v.items ≡ cell_values self.now) }
    {
        let mut found = Vec::new(alloc);
        for (value, mark) in self.values.iter() {
            if mark.present {
                found.push(value.copy(alloc)?)?;
            }
        }
        Ok(found)
    }

    /// Adds a present mark of a value, in place.
    pub fn add(&mut self, alloc: Global, value: &Value, stamp: Stamp) -> Result<(), AllocError>
        ensures ok { OnOk result (IsValidCell self.old
            → self.new ≡ join_cells self.old (cell_of (Marked value.now (present_at stamp) ∷ []))) }
        ensures cleared { self.new.cleared ≡ self.old.cleared }
        ensures values { OnOk result
            (RaisesKept self.old.cleared self.old.values self.new.values value.now
            (present_at stamp)) }
        ensures err { OnErr result (self.new ≡ self.old) }
    {
        self.mark(
            alloc,
            value,
            ValueMark {
                present: true,
                stamp,
            },
        )
    }

    /// Adds an absent mark of a value, whether it is there or not, in place.
    pub fn remove(&mut self, alloc: Global, value: &Value, stamp: Stamp) -> Result<(), AllocError>
        ensures ok { OnOk result (IsValidCell self.old
            → self.new ≡ join_cells self.old (cell_of (Marked value.now (absent_at stamp) ∷ []))) }
        ensures cleared { self.new.cleared ≡ self.old.cleared }
        ensures values { OnOk result
            (RaisesKept self.old.cleared self.old.values self.new.values value.now
            (absent_at stamp)) }
        ensures err { OnErr result (self.new ≡ self.old) }
    {
        self.mark(
            alloc,
            value,
            ValueMark {
                present: false,
                stamp,
            },
        )
    }

    /// Adds a clear and a present mark of a value with one stamp, in place: the value alone is left
    /// of what was before.
    pub fn put(&mut self, alloc: Global, value: &Value, stamp: Stamp) -> Result<(), AllocError>
        ensures ok { OnOk result
            (self.new ≡ join_cells self.old
            (cell_of (Cleared stamp ∷ Marked value.now (present_at stamp) ∷ []))) }
        ensures err { OnErr result (self.new ≡ self.old) }
    {
        let stamp = &stamp;
        self.add(alloc, value, *stamp)?;
        self.clear(*stamp);
        Ok(())
    }

    /// Adds a clear.
    pub fn clear(&mut self, stamp: Stamp)
        ensures { self.new ≡ join_cells self.old (cell_of (Cleared stamp ∷ [])) }
    {
        self.join_clear(Some(stamp));
    }

    /// Adds the marks of a change with this stamp, in place.
    pub fn change(
        &mut self,
        alloc: Global,
        change: &CellChange,
        stamp: Stamp,
    ) -> Result<(), AllocError>
        ensures ok { OnOk result (IsValidCell self.old
            → self.new ≡ join_cells self.old (cell_of (change_marks change.now stamp))) }
        ensures any { OnOk result (ChangesCell change.now stamp self.old self.new) }
        ensures clear { change.now ≡ Clear → IsOk result }
        ensures cleared { let made = cell_of (change_marks change.now stamp) in
            OnOk result (self.new.cleared ≡ maybe later_stamp self.old.cleared made.cleared) }
        ensures values { let made = cell_of (change_marks change.now stamp) in
            OnOk result (AgreesOnKept self.new.cleared self.old.values made.values self.new.values) }
        ensures err { OnErr result (self.new ≡ self.old) }
    {
        match change {
            CellChange::Add(value) => self.add(alloc, value, stamp)?,
            CellChange::Remove(value) => self.remove(alloc, value, stamp)?,
            CellChange::Put(value) => self.put(alloc, value, stamp)?,
            CellChange::Clear => self.clear(stamp),
        }
        Ok(())
    }

    /// The cell of a change alone.
    pub fn changed(alloc: Global, change: &CellChange, stamp: Stamp) -> Result<AttrCell, AllocError>
        ensures { IfOk result (λ c. c ≡ cell_of (change_marks change.now stamp)) }
    {
        let mut cell = AttrCell::new(alloc);
        cell.change(alloc, change, stamp)?;
        Ok(cell)
    }

    /// Whether joining another cell in changes nothing, where this one is valid. It takes no
    /// memory. Where it is false, the join may change nothing all the same.
    pub fn outdates(&self, other: &AttrCell) -> bool
        ensures { IsTrue result → IsValidCell self.now → join_cells self.now other.now ≡ self.now }
    {
        if covers_clear(&self.cleared, &other.cleared) {
            return self.values.outdates_all(&other.values, &self.cleared);
        }
        false
    }

    /// Joins another cell in. What takes it back. A later clear has no cell to be put back into:
    /// then the old cell is kept whole, and the marks that the clear leaves of it are copied.
    pub fn join_logged(&mut self, alloc: Global, other: &AttrCell) -> Result<CellUndo, AllocError>
        ensures ok { OnOk result (IsValidCell self.old → self.new ≡ join_cells self.old other.now) }
        ensures any { OnOk result (TakesCell self.old other.now self.new) }
        ensures cleared { OnOk result
            (self.new.cleared ≡ maybe later_stamp self.old.cleared other.now.cleared) }
        ensures values { OnOk result
            (AgreesOnKept self.new.cleared self.old.values other.now.values self.new.values) }
        ensures back { IfOk result (λ undo. undo_cell undo self.new ≡ self.old) }
        ensures err { OnErr result (self.new ≡ self.old) }
    {
        if covers_clear(&self.cleared, &other.cleared) {
            let log = self
                .values
                .join_logged(alloc, &other.values, &self.cleared)?;
            return Ok(CellUndo::Marks(log));
        }
        let next = self.joined(alloc, other)?;
        Ok(CellUndo::Whole(replace(self, next)))
    }

    /// Takes a join back, with no memory.
    pub fn take_back(&mut self, undo: CellUndo)
        ensures { self.new ≡ undo_cell undo self.old }
    {
        match undo {
            CellUndo::Whole(old) => {
                *self = old;
            }
            CellUndo::Marks(log) => {
                self.values.take_back(log);
            }
        }
    }

    /// Drops the clear and the absent marks that are stamped at most t, in place and with no
    /// memory.
    pub fn drop_up_to(&mut self, t: Stamp)
        ensures { self.new ≡ purged_cell t self.old }
    {
        let t = &t;
        self.cleared = clear_after(self.cleared, *t);
        self.values.drop_up_to(*t);
    }

    /// The clear and the marks that are later than t.
    pub fn after(&self, alloc: Global, t: Stamp) -> Result<AttrCell, AllocError>
        ensures { IfOk result (λ c. c ≡ after_cell t self.now) }
    {
        let t = &t;
        Ok(AttrCell {
            cleared: clear_after(self.cleared, *t),
            values: self.values.after(alloc, *t)?,
        })
    }

    /// Whether its clear and its marks are all later than t.
    pub fn is_after(&self, t: Stamp) -> bool
        ensures { IsTrue result ↔ (after_cell t self.now ≡ self.now) }
    {
        let t = &t;
        clear_after(self.cleared, *t) == self.cleared && self.values.is_after(*t)
    }

    /// Whether it has neither a clear nor a mark.
    pub fn is_empty(&self) -> bool
        ensures { result ≡ is_empty_cell self.now }
    {
        self.cleared.is_none() && self.values.is_empty()
    }

    /// Whether no mark of a value is earlier than its clear.
    pub fn is_valid(&self) -> bool
        ensures { IsTrue result ↔ IsValidCell self.now }
    {
        self.values.is_kept(&self.cleared)
    }

    /// Both cells joined, apart from either.
    fn joined(&self, alloc: Global, other: &AttrCell) -> Result<AttrCell, AllocError>
        ensures { IfOk result (λ c. c ≡ join_cells self.now other.now) }
    {
        let cleared = later_of(self.cleared, other.cleared);
        let mut values = ValueMap::new(alloc);
        values.raise_all(alloc, &self.values, &cleared)?;
        values.raise_all(alloc, &other.values, &cleared)?;
        Ok(AttrCell { cleared, values })
    }

    fn mark(&mut self, alloc: Global, value: &Value, mark: ValueMark) -> Result<(), AllocError>
        ensures ok { OnOk result (IsValidCell self.old
            → self.new ≡ join_cells self.old (cell_of (Marked value.now mark ∷ []))) }
        ensures cleared { self.new.cleared ≡ self.old.cleared }
        ensures values { OnOk result
            (RaisesKept self.old.cleared self.old.values self.new.values value.now mark) }
        ensures err { OnErr result (self.new ≡ self.old) }
    {
        self.values
            .raise_uncovered(alloc, value, &mark, &self.cleared)?;
        Ok(())
    }

    /// Keeps the later clear, and drops the marks that are earlier than it.
    fn join_clear(&mut self, clear: Option<Stamp>)
        ensures cleared { self.new.cleared ≡ maybe later_stamp self.old.cleared clear }
        ensures values { (q : List ℕ)
            → map.get self.new.values q
            ≡ mark_after_clear self.new.cleared (map.get self.old.values q) }
    {
        self.cleared = later_of(self.cleared, clear);
        self.keep();
    }

    /// Drops the marks that are earlier than the clear.
    fn keep(&mut self)
        ensures cleared { self.new.cleared ≡ self.old.cleared }
        ensures values { (q : List ℕ)
            → map.get self.new.values q
            ≡ mark_after_clear self.old.cleared (map.get self.old.values q) }
    {
        if let Some(clear) = self.cleared {
            self.values.keep_from(clear);
        }
    }
}

impl Lattice for AttrCell {
    ghost valid = { IsValidCell };

    ghost joined = { join_cells };

    ghost keeps_valid = { λ x y _ _. join_cells-valid x y };

    ghost commutative = { λ x y _ _. join_cells-comm x y };

    ghost associative = { λ x y z _ _ _. join_cells-assoc x y z };

    ghost idempotent = { λ x valid. join_cells-idem x valid };

    fn join(&mut self, alloc: Global, other: &Self) -> Result<(), AllocError>
        ensures ok { OnOk result (IsValidCell self.old → IsValidCell other.now
            → self.new ≡ join_cells self.old other.now) }
        ensures own { OnOk result (IsValidCell self.old
            → self.new ≡ join_cells self.old other.now) }
        ensures any { OnOk result (TakesCell self.old other.now self.new) }
        ensures cleared { OnOk result
            (self.new.cleared ≡ maybe later_stamp self.old.cleared other.now.cleared) }
        ensures values { OnOk result
            (AgreesOnKept self.new.cleared self.old.values other.now.values self.new.values) }
        ensures err { OnErr result (self.new ≡ self.old) }
    {
        if covers_clear(&self.cleared, &other.cleared) {
            self.values.join(alloc, &other.values, &self.cleared)?;
            return Ok(());
        }
        self.values.join(alloc, &other.values, &other.cleared)?;
        self.join_clear(other.cleared);
        Ok(())
    }
}

/// Whether the other clear is not later.
fn covers_clear(own: &Option<Stamp>, other: &Option<Stamp>) -> bool
    ensures { MatchBool result (maybe later_stamp own.now other.now ≡ own.now)
        (maybe later_stamp own.now other.now ≢ own.now) }
{
    match (own, other) {
        (Some(a), Some(b)) => *b <= *a,
        (None, Some(_)) => false,
        (_, None) => true,
    }
}

/// The clear, if it is later than t.
fn clear_after(clear: Option<Stamp>, t: Stamp) -> Option<Stamp>
    ensures { result ≡ option_and_then (clear_left t) clear }
{
    match clear {
        Some(clear) if t < clear => Some(clear),
        _ => None,
    }
}
