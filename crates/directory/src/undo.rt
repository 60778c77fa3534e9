// What takes a join of entries back.
use crate::attr_map::CellLog;
use crate::entry::{EntryCell, Kind};
use cds_stamps::Stamp;

/// What takes a join back: the entry that was there, or its kind, its death and each cell that was
/// changed.
#[derive(Drop)]
pub(crate) enum EntryUndo {
    Whole(EntryCell),
    Tied(Kind, Option<Stamp>, CellLog),
}
