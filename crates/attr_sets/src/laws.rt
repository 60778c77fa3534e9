// The laws of cells and of what shows, each the contract of a function that does nothing.
ghost use Rattle.std.specs.Prelude.{◌≡◌, ℕ, IsTrue, ◌++◌, ◌↔◌, ◌⊎◌, [], ◌∷◌, List, true, false};
ghost use Rattle.std.specs.List.{Contains};
ghost use Rattle.std.specs.List.Sorted.{IsStrictlySortedBy};
ghost use Rattle.cds_stamps.specs.Octets.{octets_cmp};
ghost use Rattle.cds_stamps.specs.Stamps.{is_up_to};
ghost use Rattle.cds_stamps.specs.declared.stamp.Stamp.{Stamp};
ghost use Rattle.attr_sets.specs.declared.cell.AttrCell.{AttrCell};
ghost use Rattle.attr_sets.specs.CellPurges.{is_empty_cell, purged_cell, after_cell};
ghost use Rattle.attr_sets.specs.Marks.{present_at, absent_at};
ghost use Rattle.attr_sets.specs.AttributeCells.{AttrMark, Cleared, Marked, attr_stamp, cell_of, cell_values, empty_cell, join_cells, shown_values, IsValidCell};
ghost use Rattle.attr_sets.specs.ShownValues.{IsBefore, IsShown};
ghost use Rattle.attr_sets.specs.Values.{longest_value};
ghost use Rattle.attr_sets.specs.declared.value.TheConstants.{LONGEST_VALUE};

/// The join of the cells of two histories is the cell of both together.
pub fn joins_are_unions()
    ensures { (g h : List AttrMark) → join_cells (cell_of g) (cell_of h) ≡ cell_of (g ++ h) }
{}

/// The cell of a history holds no mark that is earlier than its clear.
pub fn cells_are_valid()
    ensures { (h : List AttrMark) → IsValidCell (cell_of h) }
{}

/// A cell has neither a clear nor a mark exactly where it is the empty one, which is that of no
/// history.
pub fn empty_cells_are_one()
    ensures one { (a : AttrCell) → IsTrue (is_empty_cell a) ↔ (a ≡ empty_cell) }
    ensures of_nothing { cell_of [] ≡ empty_cell }
{}

/// A value shows exactly where its greatest mark is present and not earlier than any clear.
pub fn shown_values_are_present()
    ensures { (h : List AttrMark) (v : List ℕ) → Contains (shown_values h) v ↔ IsShown h v }
{}

/// The values that show ascend, each once.
pub fn shown_values_ascend()
    ensures { (h : List AttrMark) → IsStrictlySortedBy octets_cmp (shown_values h) }
{}

/// An update that is later than all before shows at once: an added value shows, a removed one
/// doesn't, a put one shows alone, and after a clear none does. The other values show as before an
/// addition and a removal.
pub fn later_updates_show()
    ensures added { (h : List AttrMark) (v : List ℕ) (s : Stamp) → IsBefore h s →
        (w : List ℕ)
        → Contains (shown_values (h ++ Marked v (present_at s) ∷ [])) w
        ↔ ((w ≡ v) ⊎ Contains (shown_values h) w) }
    ensures removed { (h : List AttrMark) (v : List ℕ) (s : Stamp) → IsBefore h s →
        (w : List ℕ)
        → Contains (shown_values (h ++ Marked v (absent_at s) ∷ [])) w
        ↔ ((¬ (w ≡ v)) × Contains (shown_values h) w) }
    ensures put { (h : List AttrMark) (v : List ℕ) (s : Stamp) → IsBefore h s →
        (w : List ℕ)
        → Contains (shown_values (h ++ Cleared s ∷ Marked v (present_at s) ∷ [])) w ↔ (w ≡ v) }
    ensures cleared { (h : List AttrMark) (s : Stamp) → IsBefore h s → (w : List ℕ)
        → ¬ Contains (shown_values (h ++ Cleared s ∷ [])) w }
{}

/// What is left of a cell up to t, joined with what is later of the cell of a history of which it
/// has all marks up to t, is what is left of the cell of both histories.
pub fn purged_cells_merge()
    ensures { (t : Stamp) (g h : List AttrMark)
        → ((m : AttrMark) → Contains h m → is_up_to t (attr_stamp m) ≡ true → Contains g m) →
        join_cells (purged_cell t (cell_of g)) (after_cell t (cell_of h))
        ≡ purged_cell t (cell_of (g ++ h)) }
{}

/// A cell shows the same values when its deletions are dropped.
pub fn purged_cells_show_the_same()
    ensures { (t : Stamp) (a : AttrCell) → cell_values (purged_cell t a) ≡ cell_values a }
{}

/// The limit that the code names is that of the definition.
pub fn named_limit_is_that_of_the_definition()
    ensures { LONGEST_VALUE ≡ longest_value }
{}
