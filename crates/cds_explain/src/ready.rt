// Whether the next entry of a house can go on: what it takes was posted, and what the console gave
// is next.
ghost use Rattle.std.specs.Prelude.{◌≡◌, ◌+◌, ◌≤◌, IfErr, IfOk, IfSome, OnOk};
ghost use Rattle.cell_model.specs.Cells as model;
ghost use Rattle.cds_cell.specs.ModelCells.{Stands};
ghost use Rattle.cds_explain.specs.Causes.{Hinders, HindersEpoch, HindersMkdir, HindersRoot};
ghost use Rattle.cds_explain.specs.PrivateConsole.{IsReady};

use crate::cause::Cause;
use crate::posted::PostedIndex;
use cds_cell::Cell;
use cds_stamps::{DirId, EpochNo, HouseNo};
use house_lines::HouseOrder;

const ROOT: DirId = DirId(1);

// The number of the next directory.
fn next_directory(cell: &Cell) -> u64
    ensures { (g : model.Cell) → Stands cell.now g → result ≡ g.next_dir }
{
    cell.directories().saturating_add(1).max(2)
}

// Why the root cannot be made.
fn root_ready(cell: &Cell) -> Result<u64, Cause>
    ensures ready { (g : model.Cell) → Stands cell.now g → OnOk result (g.top 1 ≡ 0) }
    ensures why { (g : model.Cell) → Stands cell.now g → IfErr result (HindersRoot g) }
{
    match cell.listing(ROOT) {
        Some(_) => Err(Cause::SecondRoot),
        None => Ok(0),
    }
}

// Why a directory of this number is not the next one.
fn mkdir_ready(cell: &Cell, made: DirId) -> Result<u64, Cause>
    ensures ready { (g : model.Cell) → Stands cell.now g
        → OnOk result ((1 ≤ g.top 1) × (g.next_dir ≡ made.0)) }
    ensures why { (g : model.Cell) → Stands cell.now g → IfErr result (HindersMkdir g made) }
{
    let next = next_directory(cell);
    if u64::from(made.0) < next {
        return Err(Cause::MadeBefore(made));
    }
    if u64::from(made.0) > next || cell.listing(ROOT).is_none() {
        return Err(Cause::DirectoryLater(made, next));
    }
    Ok(0)
}

// Why an epoch is not the next one of its directory.
fn epoch_ready(cell: &Cell, dir: DirId, epoch: EpochNo) -> Result<u64, Cause>
    ensures ready { (g : model.Cell) → Stands cell.now g
        → OnOk result ((1 ≤ g.top dir.0) × (epoch.0 ≡ g.top dir.0 + 1)) }
    ensures why { (g : model.Cell) → Stands cell.now g
        → IfErr result (HindersEpoch g dir epoch) }
{
    let last = match cell.listing(dir) {
        Some((last, _)) => last,
        None => EpochNo(0),
    };
    if epoch.0 <= last.0 {
        return Err(Cause::EpochAfter(epoch, last));
    }
    if last.0 == 0 || epoch.0 - last.0 != 1 {
        return Err(Cause::EpochLater(epoch, last));
    }
    Ok(0)
}

/// Why an order cannot be next; or the serial number of the message that it takes, if it takes one.
pub(crate) fn ready(
    cell: &Cell,
    posted: &PostedIndex,
    house: HouseNo,
    order: &HouseOrder,
) -> Result<u64, Cause>
    ensures ready { (g : model.Cell) → Stands cell.now g
        → IfOk result (λ n. IsReady g house.0 order.now n) }
    ensures why { (g : model.Cell) → Stands cell.now g → IfErr result (Hinders g order.now) }
{
    match order {
        HouseOrder::Root(_) => root_ready(cell),
        HouseOrder::Mkdir(_, _, made, _) => mkdir_ready(cell, *made),
        HouseOrder::Epoch(dir, epoch, _) => epoch_ready(cell, *dir, *epoch),
        HouseOrder::Take(octets) => posted
            .find(cell, house, octets.list())
            .ok_or(Cause::NotPosted),
        _ => Ok(0),
    }
}
