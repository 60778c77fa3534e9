// What shows at the first house.
ghost use Rattle.std.specs.Prelude.{◌≡◌, ◌+◌, IfOk, count_by, option_copied};
ghost use Rattle.std.specs.FinMap.{entries};
ghost use Rattle.std.specs.Option.{option_map_or};
ghost use Rattle.directory.specs.Shown.{live_count};
ghost use Rattle.cell_model.specs.Cells as model;
ghost use Rattle.cds_cell.specs.ModelCells.{Stands};
ghost use Rattle.script_replay.specs.Loading.{first_table, shown_count, table_told, value_count, values_shown};
ghost use Rattle.script_replay.specs.PrivateRecords.{state_told};

use attr_sets::ValueMap;
use cds_cell::{Cell, HouseState};
use cds_stamps::{DirId, HouseNo};
use clearinghouse::DirState;
use directory::{EntryCell, Table};
use std::alloc::AllocError;

/// The table of the first house and the root directory, if the house is up and holds it.
pub(crate) fn first_table(cell: &Cell) -> Option<&Table>
    ensures { (g : model.Cell) → Stands cell.now g → option_copied result ≡ first_table g }
{
    if cell.is_unknown(DirId::ROOT) {
        return None;
    }
    match cell.house(HouseNo(1)) {
        Some(HouseState::Up(home)) => table_in(home.state(DirId::ROOT)),
        Some(HouseState::Down(_)) => None,
        None => None,
    }
}

// The table of what there is of a directory.
fn table_in(state: Option<&DirState>) -> Option<&Table>
    ensures { option_copied result ≡ table_told (state_told (option_copied state.entry)) }
{
    match state {
        Some(DirState::Held(held)) => Some(&held.replica.table),
        Some(DirState::Gone(_)) | None => None,
    }
}

// How many values of an attribute are present.
fn present_values(values: &ValueMap) -> u64
    ensures { result ≡ count_by (λ v. v.1.present) (entries values.now) }
{
    values.iter().filter(|(_, mark)| mark.present).count() as u64
}

// The sum of two counts. More than 64 bits count as out of memory: no memory holds so many values.
fn sum_of(count: u64, more: u64) -> Result<u64, AllocError>
    ensures { IfOk result (λ n. n ≡ count + more) }
{
    count.checked_add(more).ok_or(AllocError)
}

// How many values of an entry are present.
fn value_count(entry: &EntryCell) -> Result<u64, AllocError>
    ensures { IfOk result (λ n. n ≡ value_count entry.now) }
{
    let mut count = 0;
    for (_, cell) in entry.attrs.iter() {
        count = sum_of(count, present_values(&cell.values))?;
    }
    Ok(count)
}

// How many values of an entry show.
fn shown_count(entry: &EntryCell) -> Result<u64, AllocError>
    ensures { IfOk result (λ n. n ≡ shown_count entry.now) }
{
    if entry.is_live() {
        value_count(entry)
    } else {
        Ok(0)
    }
}

// How many values show in a table.
fn values_shown(table: &Table) -> Result<u64, AllocError>
    ensures { IfOk result (λ n. n ≡ values_shown table.now) }
{
    let mut count = 0;
    for (_, entry) in table.iter() {
        count = sum_of(count, shown_count(entry)?)?;
    }
    Ok(count)
}

/// How many entries show in a table, and how many values; none, where there is no table.
pub(crate) fn shown_counts(table: Option<&Table>) -> Result<(u64, u64), AllocError>
    ensures live { IfOk result (λ n. n.0 ≡ option_map_or live_count (option_copied table.entry) 0) }
    ensures values { IfOk result
        (λ n. n.1 ≡ option_map_or values_shown (option_copied table.entry) 0) }
{
    match table {
        Some(table) => Ok((table.live_entries(), values_shown(table)?)),
        None => Ok((0, 0)),
    }
}
