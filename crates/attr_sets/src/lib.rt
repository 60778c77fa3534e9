//! The values of one attribute of an entry, each present or absent by its latest mark. It knows no
//! entry.
#![tactic(auto)]

mod cell;
mod change;
mod laws;
mod mark;
mod order;
mod undo;
mod value;
mod value_map;

pub use cell::AttrCell;
pub use change::CellChange;
pub use laws::{
    cells_are_valid, empty_cells_are_one, joins_are_unions, later_updates_show,
    named_limit_is_that_of_the_definition, purged_cells_merge, purged_cells_show_the_same,
    shown_values_are_present, shown_values_ascend,
};
pub use mark::ValueMark;
pub use order::{all_in_order, in_order};
pub use undo::CellUndo;
pub use value::{LONGEST_VALUE, Value, ValueFault};
pub use value_map::{MarkLog, ValueMap};
