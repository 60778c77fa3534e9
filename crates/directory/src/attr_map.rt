// The cells of an entry's attributes.
ghost use Rattle.std.specs.Prelude.{◌≡◌, ◌↔◌, IsTrue, List, ℕ, [], ◌∷◌, Some, None, if◌then◌else◌, option_copied};
ghost use Rattle.std.specs.Prelude.{MatchOption, MatchBool, IfOk, IfSome, OnOk, OnErr};
ghost use Rattle.std.specs.FinMap as map;
ghost use Rattle.std.specs.Option.{option_and_then};
ghost use Rattle.std.specs.Ordering.{eq_by_cmp};
ghost use Rattle.cds_stamps.specs.Keyed.{map_some};
ghost use Rattle.cds_stamps.specs.Octets.{octets_cmp};
ghost use Rattle.cds_stamps.specs.Joins.{join_maps, EachValue};
ghost use Rattle.cds_stamps.specs.Undos.{RaisesAt, TakesBack, LogsChange, MendsAt, back_at};
ghost use Rattle.attr_sets.specs.AttributeCells.{cell_of, join_cells};
ghost use Rattle.attr_sets.specs.CellChanges.{change_marks};
ghost use Rattle.attr_sets.specs.CellPurges.{is_empty_cell, clear_left, mark_after, cell_after};
ghost use Rattle.attr_sets.specs.CellUndoWords.{undo_cell};
ghost use Rattle.directory.specs.Deletions.{is_at, is_absent, change_at, cell_without};
ghost use Rattle.directory.specs.declared.deletions.What.TheVariants.{Clear, Absent};
ghost use Rattle.directory.specs.Entries.{IsHeldCell};
ghost use Rattle.directory.specs.Applied.{JoinsCell, TakesMarks};

use attr_sets::{AttrCell, CellChange, CellUndo, Value, ValueMap};
use cds_stamps::{AttrName, Lattice, Stamp};
use compact_map::{CompactMap, Iter};
use std::alloc::{AllocError, Global};
use std::marker::Model;

/// A cell for each attribute, in ascending order of their names.
pub struct AttrMap {
    cells: CompactMap<AttrName, AttrCell>,
}

impl Drop for AttrMap {
    fn drop(self) {
        let AttrMap { cells: _cells } = self;
    }
}

impl Model for AttrMap {
    ghost use Rattle.std.specs.FinMap as map;
    ghost use Rattle.cds_stamps.specs.Octets.{octets_cmp, octets_code};
    ghost use Rattle.attr_sets.specs.AttributeCells.{cell_code};
    ghost use Rattle.attr_sets.specs.declared.cell.AttrCell.{AttrCell};

    ghost Value = { map.FinMap octets_cmp AttrCell };

    ghost coded = { map.code octets_code cell_code };

    ghost view = { λ m. map.from_entries m.cells };
}

/// What takes changes of a map of cells back: each attribute that was changed, and what mends its
/// cell; none, where the attribute was new.
#[derive(Drop)]
pub(crate) struct CellLog {
    changes: Vec<(AttrName, Option<CellUndo>)>,
}

impl Model for CellLog {
    ghost use Rattle.std.specs.Prelude.{ℕ, List, Option};
    ghost use Rattle.std.specs.Coded.{coded_list, coded×, coded_option};
    ghost use Rattle.cds_stamps.specs.Octets.{octets_code};
    ghost use Rattle.attr_sets.specs.declared.undo.CellUndo.{CellUndo};
    ghost use Rattle.directory.specs.CellLogWords.{cell_undo_code};

    ghost Value = { List (List ℕ × Option CellUndo) };

    ghost coded = { coded_list (coded× octets_code (coded_option cell_undo_code)) };

    ghost view = { λ log. log.changes.items };
}

impl CellLog {
    /// A log of no change.
    pub(crate) fn new(alloc: Global) -> Self
        ensures { result ≡ [] }
    {
        CellLog {
            changes: Vec::new(alloc),
        }
    }
}

impl Clone for AttrMap {
    ghost is_clone = { λ x y. y ≡ x };

    fn clone(&self) -> Result<AttrMap, AllocError> {
        Ok(AttrMap {
            cells: self.cells.clone()?,
        })
    }
}

impl AttrMap {
    /// No attribute. Takes no memory.
    pub fn new(alloc: Global) -> Self
        ensures { result ≡ map.empty }
    {
        AttrMap {
            cells: CompactMap::new(alloc),
        }
    }

    /// How many attributes have a cell.
    pub fn len(&self) -> usize
        ensures { result ≡ map.len self.now }
    {
        self.cells.len()
    }

    /// The names of the attributes with their cells, ascending.
    pub fn iter(&self) -> Iter<'_, AttrName, AttrCell>
        ensures { result ≡ map.entries self.now }
    {
        self.cells.iter()
    }

    /// The cell of an attribute, if it has one.
    pub fn get(&self, name: &AttrName) -> Option<&AttrCell>
        ensures { option_copied result ≡ map.get self.now name.now }
    {
        self.cells.get(name)
    }

    /// Gives an attribute this cell. The cell that it had.
    pub fn insert(&mut self, name: AttrName, cell: AttrCell) -> Result<Option<AttrCell>, AllocError>
        ensures before { IfOk result (λ before. before ≡ map.get self.old name) }
        ensures ok { OnOk result (self.new ≡ map.insert self.old name cell) }
        ensures err { OnErr result (self.new ≡ self.old) }
    {
        Ok(self.cells.insert(name, cell)?)
    }

    /// A map of the same cells.
    pub fn copy(&self, _alloc: Global) -> Result<AttrMap, AllocError>
        ensures { IfOk result (λ m. m ≡ self.now) }
    {
        self.clone()
    }

    /// The cell of the attribute whose name has these octets. It takes no memory, and goes through
    /// the attributes.
    pub(crate) fn find(&self, octets: &[u8]) -> Option<&AttrCell>
        ensures { option_copied result ≡ map.get self.now octets.now }
    {
        for (name, cell) in self.cells.iter() {
            if name.octets() == octets {
                return Some(cell);
            }
        }
        None
    }

    /// Its one cell, if it has one only.
    fn only(&self) -> Option<(&AttrName, &AttrCell)>
        ensures { IfSome result (λ p. (q : List ℕ)
            → map.get self.now q
            ≡ (if eq_by_cmp octets_cmp q p.0.now then Some p.1.now else None)) }
    {
        if self.cells.len() == 1 {
            self.cells.first_key_value()
        } else {
            None
        }
    }

    /// Adds the marks of a change to the cell of an attribute, in place, with at most one
    /// insertion.
    pub(crate) fn change(
        &mut self,
        alloc: Global,
        name: &AttrName,
        change: &CellChange,
        stamp: Stamp,
    ) -> Result<(), AllocError>
        ensures ok { OnOk result
            (TakesMarks self.old self.new name.now (change_marks change.now stamp)) }
        ensures err { OnErr result (self.new ≡ self.old) }
    {
        let stamp = &stamp;
        let here = self.change_here(alloc, name, change, *stamp)?;
        if here {
            return Ok(());
        }
        let cell = AttrCell::changed(alloc, change, *stamp)?;
        let key = name.copy(alloc)?;
        self.insert(key, cell)?;
        Ok(())
    }

    /// Adds the marks of a change where the attribute has a cell. Whether it has.
    fn change_here(
        &mut self,
        alloc: Global,
        name: &AttrName,
        change: &CellChange,
        stamp: Stamp,
    ) -> Result<bool, AllocError>
        ensures ok { IfOk result (λ here. MatchBool here
            (TakesMarks self.old self.new name.now (change_marks change.now stamp))
            ((map.get self.old name.now ≡ None) × (self.new ≡ self.old))) }
        ensures err { OnErr result (self.new ≡ self.old) }
    {
        match self.cells.get_mut(name) {
            Some(own) => {
                own.change(alloc, change, stamp)?;
                Ok(true)
            }
            None => Ok(false),
        }
    }

    /// Joins one cell in, in place, with at most one insertion.
    fn join_cell(
        &mut self,
        alloc: Global,
        name: &AttrName,
        cell: &AttrCell,
    ) -> Result<(), AllocError>
        ensures ok { OnOk result (JoinsCell self.old self.new name.now cell.now) }
        ensures err { OnErr result (self.new ≡ self.old) }
    {
        let here = self.join_here(alloc, name, cell)?;
        if here {
            return Ok(());
        }
        let key = name.copy(alloc)?;
        self.insert(key, cell.copy(alloc)?)?;
        Ok(())
    }

    /// Joins a cell in where the attribute has one. Whether it has.
    fn join_here(
        &mut self,
        alloc: Global,
        name: &AttrName,
        cell: &AttrCell,
    ) -> Result<bool, AllocError>
        ensures ok { IfOk result (λ here. MatchBool here
            (JoinsCell self.old self.new name.now cell.now) ((map.get self.old name.now ≡ None)
            × (self.new ≡ self.old))) }
        ensures err { OnErr result (self.new ≡ self.old) }
    {
        match self.cells.get_mut(name) {
            Some(own) => {
                own.join(alloc, cell)?;
                Ok(true)
            }
            None => Ok(false),
        }
    }

    /// Joins another map in; a map of one cell with no log.
    pub(crate) fn join(&mut self, alloc: Global, other: &AttrMap) -> Result<(), AllocError>
        ensures ok { OnOk result (EachValue IsHeldCell self.old → EachValue IsHeldCell other.now
            → self.new ≡ join_maps join_cells self.old other.now) }
        ensures err { OnErr result (self.new ≡ self.old) }
    {
        if let Some((name, cell)) = other.only() {
            self.join_cell(alloc, name, cell)?;
            return Ok(());
        }
        self.join_logged(alloc, other)?;
        Ok(())
    }

    /// Joins one cell in, with at most one insertion. What takes it back.
    fn raise(
        &mut self,
        alloc: Global,
        name: &AttrName,
        cell: &AttrCell,
    ) -> Result<Option<CellUndo>, AllocError>
        ensures ok { OnOk result (JoinsCell self.old self.new name.now cell.now) }
        ensures back { IfOk result
            (λ undo. TakesBack undo_cell self.old self.new ((name.now, undo) ∷ [])) }
        ensures err { OnErr result (self.new ≡ self.old) }
    {
        let here = self.raise_here(alloc, name, cell)?;
        if let Some(undo) = here {
            return Ok(Some(undo));
        }
        let key = name.copy(alloc)?;
        self.insert(key, cell.copy(alloc)?)?;
        Ok(None)
    }

    /// Joins a cell in where the attribute has one. What takes it back.
    fn raise_here(
        &mut self,
        alloc: Global,
        name: &AttrName,
        cell: &AttrCell,
    ) -> Result<Option<CellUndo>, AllocError>
        ensures ok { IfOk result
            (λ undo. MatchOption undo ((map.get self.old name.now ≡ None)
            × (self.new ≡ self.old)) (λ undo.
            JoinsCell self.old self.new name.now cell.now
            × TakesBack undo_cell self.old self.new ((name.now, Some undo) ∷ []))) }
        ensures err { OnErr result (self.new ≡ self.old) }
    {
        match self.cells.get_mut(name) {
            Some(own) => {
                let undo = own.join_logged(alloc, cell)?;
                Ok(Some(undo))
            }
            None => Ok(None),
        }
    }

    /// Joins the cells of another map in, each logged before the next one.
    fn raise_all(
        &mut self,
        alloc: Global,
        other: &AttrMap,
        log: &mut Vec<(AttrName, Option<CellUndo>)>,
    ) -> Result<(), AllocError>
        ensures ok { OnOk result (EachValue IsHeldCell self.old → EachValue IsHeldCell other.now
            → self.new ≡ join_maps join_cells self.old other.now) }
        ensures back { LogsChange undo_cell self.old self.new log.old.items log.new.items }
    {
        for (name, cell) in other.cells.iter() {
            self.raise_logged(alloc, name, cell, log)?;
        }
        Ok(())
    }

    /// Whether joining one cell in changes nothing.
    fn outdates(&self, name: &AttrName, cell: &AttrCell) -> bool
        ensures { IsTrue result → JoinsCell self.now self.now name.now cell.now }
    {
        match self.get(name) {
            Some(own) => own.outdates(cell),
            None => false,
        }
    }

    /// Whether joining another map in changes nothing. It takes no memory.
    pub(crate) fn outdates_all(&self, other: &AttrMap) -> bool
        ensures { IsTrue result → EachValue IsHeldCell self.now → EachValue IsHeldCell other.now
            → join_maps join_cells self.now other.now ≡ self.now }
    {
        for (name, cell) in other.cells.iter() {
            let outdated = self.outdates(name, cell);
            if !outdated {
                return false;
            }
        }
        true
    }

    /// Joins one cell in, and logs the change. Room in the log comes first.
    fn raise_logged(
        &mut self,
        alloc: Global,
        name: &AttrName,
        cell: &AttrCell,
        log: &mut Vec<(AttrName, Option<CellUndo>)>,
    ) -> Result<(), AllocError>
        ensures ok { OnOk result (JoinsCell self.old self.new name.now cell.now) }
        ensures back { LogsChange undo_cell self.old self.new log.old.items log.new.items }
    {
        log.reserve(1)?;
        let key = name.copy(alloc)?;
        let undo = self.raise(alloc, name, cell)?;
        log.push((key, undo)).unwrap();
        Ok(())
    }

    /// Joins another map in. What takes it back.
    pub(crate) fn join_logged(
        &mut self,
        alloc: Global,
        other: &AttrMap,
    ) -> Result<CellLog, AllocError>
        ensures ok { OnOk result (EachValue IsHeldCell self.old → EachValue IsHeldCell other.now
            → self.new ≡ join_maps join_cells self.old other.now) }
        ensures back { IfOk result (λ log. TakesBack undo_cell self.old self.new log) }
        ensures err { OnErr result (self.new ≡ self.old) }
    {
        let mut changes = Vec::new(alloc);
        if let Err(error) = self.raise_all(alloc, other, &mut changes) {
            self.take_changes_back(changes);
            return Err(error);
        }
        Ok(CellLog { changes })
    }

    /// Takes the changes of a log back, with no memory.
    pub(crate) fn take_back(&mut self, log: CellLog)
        ensures { (q : List ℕ)
            → map.get self.new q ≡ back_at octets_cmp undo_cell log q (map.get self.old q) }
    {
        self.take_changes_back(log.changes);
    }

    fn take_changes_back(&mut self, changes: Vec<(AttrName, Option<CellUndo>)>)
        ensures { (q : List ℕ)
            → map.get self.new q
            ≡ back_at octets_cmp undo_cell changes.items q (map.get self.old q) }
    {
        let mut changes = changes;
        while let Some((name, undo)) = changes.pop() {
            self.mend(&name, undo);
        }
    }

    fn mend(&mut self, name: &AttrName, undo: Option<CellUndo>)
        ensures { MendsAt undo_cell self.old self.new name.now undo }
    {
        match undo {
            Some(undo) => self.mend_here(name, undo),
            None => {
                self.remove(name);
            }
        }
    }

    fn mend_here(&mut self, name: &AttrName, undo: CellUndo)
        ensures { MendsAt undo_cell self.old self.new name.now (Some undo) }
    {
        if let Some(own) = self.cells.get_mut(name) {
            own.take_back(undo);
        }
    }

    fn remove(&mut self, name: &AttrName) -> Option<AttrCell>
        ensures { MendsAt undo_cell self.old self.new name.now None }
    {
        self.cells.remove(name)
    }

    /// Whether an attribute was cleared at the stamp.
    pub(crate) fn is_cleared_at(&self, name: &AttrName, stamp: Stamp) -> bool
        ensures { result ≡ is_at
            (option_and_then (λ c. c.cleared) (map.get self.now name.now)) stamp }
    {
        match self.get(name) {
            Some(cell) => cell.cleared == Some(stamp),
            None => false,
        }
    }

    /// Whether a value of an attribute is absent since the stamp.
    pub(crate) fn is_absent_at(&self, name: &AttrName, value: &Value, stamp: Stamp) -> bool
        ensures { result ≡ is_absent
            (option_and_then (λ c. map.get c.values value.now) (map.get self.now name.now)) stamp }
    {
        match self.get(name) {
            Some(cell) => is_absent_at(cell, value, stamp),
            None => false,
        }
    }

    /// Whether each cell is valid and not empty.
    pub(crate) fn is_valid(&self) -> bool
        ensures { IsTrue result ↔ EachValue IsHeldCell self.now }
    {
        for (_, cell) in self.cells.iter() {
            let held = is_held(cell);
            if !held {
                return false;
            }
        }
        true
    }

    /// Drops the clear of an attribute, and the attribute, if nothing is left of it.
    pub(crate) fn drop_clear(&mut self, name: &AttrName)
        ensures { self.new ≡ change_at self.old name.now (cell_without (Clear name.now)) }
    {
        if let Some(cell) = self.cells.get_mut(name) {
            cell.cleared = None;
            if cell.is_empty() {
                self.cells.remove(name);
            }
        }
    }

    /// Drops the mark of a value of an attribute, and the attribute, if nothing is left of it.
    pub(crate) fn drop_value(&mut self, name: &AttrName, value: &Value)
        ensures { self.new ≡ change_at self.old name.now
            (cell_without (Absent name.now value.now)) }
    {
        if let Some(cell) = self.cells.get_mut(name) {
            cell.values.remove(value);
            if cell.is_empty() {
                self.cells.remove(name);
            }
        }
    }

    /// What of each cell is later than t, where it is anything.
    pub(crate) fn after(&self, alloc: Global, t: Stamp) -> Result<AttrMap, AllocError>
        ensures { IfOk result (λ m. m ≡ map_some (cell_after t) self.now) }
    {
        let t = &t;
        let mut later = AttrMap::new(alloc);
        for (name, cell) in self.cells.iter() {
            let part = cell.after(alloc, *t)?;
            later.insert_some(alloc, name, part)?;
        }
        Ok(later)
    }

    /// Gives an attribute this cell, unless it is empty.
    fn insert_some(
        &mut self,
        alloc: Global,
        name: &AttrName,
        cell: AttrCell,
    ) -> Result<(), AllocError>
        ensures { OnOk result
            (self.new ≡ (if is_empty_cell cell then self.old else map.insert self.old name.now cell)) }
    {
        if !cell.is_empty() {
            self.insert(name.copy(alloc)?, cell)?;
        }
        Ok(())
    }

    /// Whether nothing of any cell is later than t.
    pub(crate) fn is_old(&self, t: Stamp) -> bool
        ensures { IsTrue result ↔ EachValue (λ c. cell_after t c ≡ None) self.now }
    {
        let t = &t;
        for (_, cell) in self.cells.iter() {
            let old = is_old_cell(cell, *t);
            if !old {
                return false;
            }
        }
        true
    }

    /// Whether each cell has something, all of it later than t.
    pub(crate) fn is_after(&self, t: Stamp) -> bool
        ensures { IsTrue result ↔ (map_some (cell_after t) self.now ≡ self.now) }
    {
        let t = &t;
        for (_, cell) in self.cells.iter() {
            if cell.is_empty() || !cell.is_after(*t) {
                return false;
            }
        }
        true
    }
}

/// Whether a cell is valid and not empty.
fn is_held(cell: &AttrCell) -> bool
    ensures { IsTrue result ↔ IsHeldCell cell.now }
{
    !cell.is_empty() && cell.is_valid()
}

/// Whether neither the clear of a cell nor a mark is later than t.
fn is_old_cell(cell: &AttrCell, t: Stamp) -> bool
    ensures { IsTrue result ↔ (cell_after t cell.now ≡ None) }
{
    let t = &t;
    is_old_clear(cell.cleared, *t) && are_old_marks(&cell.values, *t)
}

/// Whether there is no clear later than t.
fn is_old_clear(cleared: Option<Stamp>, t: Stamp) -> bool
    ensures { IsTrue result ↔ (option_and_then (clear_left t) cleared ≡ None) }
{
    match cleared {
        Some(clear) => !(t < clear),
        None => true,
    }
}

/// Whether no mark is later than t.
fn are_old_marks(marks: &ValueMap, t: Stamp) -> bool
    ensures { IsTrue result ↔ EachValue (λ m. mark_after t m ≡ None) marks.now }
{
    for (_, mark) in marks.iter() {
        if t < mark.stamp {
            return false;
        }
    }
    true
}

/// Whether a value of a cell is absent since the stamp.
fn is_absent_at(cell: &AttrCell, value: &Value, stamp: Stamp) -> bool
    ensures { result ≡ is_absent (map.get cell.now.values value.now) stamp }
{
    match cell.values.get(value) {
        Some(mark) => !mark.present && mark.stamp == stamp,
        None => false,
    }
}
