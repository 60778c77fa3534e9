// What takes a join of cells back.
use crate::cell::AttrCell;
use crate::value_map::MarkLog;

/// What takes a join back: the cell that was there, or each mark that was changed.
#[derive(Drop)]
pub enum CellUndo {
    Whole(AttrCell),
    Marks(MarkLog),
}
