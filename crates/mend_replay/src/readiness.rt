// Whether the houses of a directory are ready for a skulk, and whether its master has a stamp for
// one.
ghost use Rattle.std.specs.Prelude.{◌≡◌, ◌==◌, not, IfOk, is_some};
ghost use Rattle.cds_stamps.specs.declared.numbers.HouseNo as number;
ghost use Rattle.cds_stamps.specs.Members.{members_of};
ghost use Rattle.cds_stamps.specs.Stamps.{last_time};
ghost use Rattle.cell_model.specs.Cells as model;
ghost use Rattle.cell_model.specs.Turns.{stamp_at};
ghost use Rattle.cds_cell.specs.CellHouses.{StandsState, StandsUp};
ghost use Rattle.cds_cell.specs.ModelCells.{Stands};
ghost use Rattle.mend_replay.specs.Readiness.{holds_at, is_held_at, is_held_by};

use cds_cell::{Cell, HouseState};
use cds_stamps::{AllocOr, DirId, EpochNo, HouseNo, Member};
use clearinghouse::{Clearinghouse, DirState, StartFault};
use std::alloc::{AllocError, Global};

/// Whether each of these houses is up, and holds the directory at this epoch.
pub(crate) fn is_held_by(cell: &Cell, dir: DirId, epoch: EpochNo, members: &[Member]) -> bool
    ensures { (g : model.Cell) → Stands cell.now g
        → result ≡ is_held_by g dir.0 epoch.0 (members_of members.now) }
{
    for member in members {
        if !holds(cell, member.house, dir, epoch) {
            return false;
        }
    }
    true
}

// Whether a house is up, and holds the directory at this epoch.
fn holds(cell: &Cell, house: HouseNo, dir: DirId, epoch: EpochNo) -> bool
    ensures { (g : model.Cell) → Stands cell.now g → result ≡ is_held_at g house.0 dir.0 epoch.0 }
{
    match cell.house(house) {
        Some(HouseState::Up(home)) => holds_at(home, dir, epoch),
        Some(HouseState::Down(_)) => false,
        None => false,
    }
}

// Whether a house that is up holds the directory at this epoch.
fn holds_at(home: &Clearinghouse, dir: DirId, epoch: EpochNo) -> bool
    ensures { (x : number.HouseNo) (now : model.House) → StandsUp x home.now now
        → result ≡ holds_at (now.slots dir.0) epoch.0 }
{
    match home.state(dir) {
        Some(DirState::Held(held)) => held.epoch == epoch,
        Some(DirState::Gone(_)) | None => false,
    }
}

/// Whether a house has a stamp left: one at the last time of 64 bits has none. Of a house that is
/// down, its floor is read from its image.
pub(crate) fn has_stamp(alloc: Global, cell: &Cell, house: HouseNo) -> Result<bool, AllocError>
    ensures { (g : model.Cell) → Stands cell.now g
        → IfOk result (λ left. left ≡ is_some (stamp_at (g.house house.0))) }
{
    match cell.house(house) {
        Some(state) => {
            let floor = floor_of(alloc, state)?;
            Ok(is_below_last(floor))
        }
        None => Ok(true),
    }
}

// Whether a floor has a time above it.
fn is_below_last(floor: u64) -> bool
    ensures { result ≡ not (floor == last_time) }
{
    floor != u64::MAX
}

// The floor of a house. (The octets of a house that is down are always an image.)
fn floor_of(alloc: Global, state: &HouseState) -> Result<u64, AllocError>
    ensures { (x : number.HouseNo) (now : model.House) → StandsState x state.now now
        → IfOk result (λ floor. floor ≡ now.floor) }
{
    match state {
        HouseState::Up(home) => Ok(home.floor()),
        HouseState::Down(image) => match Clearinghouse::start(alloc, image.list()) {
            Ok(home) => Ok(home.floor()),
            Err(AllocOr::Fault(StartFault::BadImage(_))) => Ok(0),
            Err(AllocOr::OutOfMemory) => Err(AllocError),
        },
    }
}
