// What another replica answers.
ghost use Rattle.std.specs.Prelude.{◌≡◌, false, option_copied};
ghost use Rattle.std.specs.Option.{option_map_or};
ghost use Rattle.image_audit.specs.Facts.{answers_mark, answers_cell};

use attr_sets::{AttrCell, Value, ValueMark};
use cds_stamps::Stamp;

/// Whether an attribute answers for this value, present at the stamp; none does not.
pub(crate) fn is_answered(cell: Option<&AttrCell>, value: &Value, stamp: Stamp) -> bool
    ensures { result ≡ option_map_or (answers_cell value.now stamp)
        (option_copied cell.entry) false }
{
    match cell {
        Some(cell) => answers_value(cell, value, stamp),
        None => false,
    }
}

// Whether its clear is later, or its mark of the value answers.
fn answers_value(cell: &AttrCell, value: &Value, stamp: Stamp) -> bool
    ensures { result ≡ answers_cell value.now stamp cell.now }
{
    match cell.cleared {
        Some(cleared) if stamp < cleared => true,
        _ => match cell.values.get(value) {
            Some(mark) => answers_mark(*mark, stamp),
            None => false,
        },
    }
}

// Whether a mark is later, or of this stamp and present.
fn answers_mark(mark: ValueMark, stamp: Stamp) -> bool
    ensures { result ≡ answers_mark stamp mark }
{
    stamp < mark.stamp || (mark.present && mark.stamp == stamp)
}
