// The image of a house.
ghost use Rattle.std.specs.Prelude.{◌≡◌, IfOk};
ghost use Rattle.std.specs.Option.{option_map};
ghost use Rattle.cell_model.specs.Cells as model;
ghost use Rattle.cds_cell.specs.ModelCells.{Stands};
ghost use Rattle.journal_replay.specs.CellDisks.{image_in};

use cds_cell::{Cell, HouseState};
use cds_stamps::HouseNo;
use std::alloc::{AllocError, Global};

/// The octets of the image of a house, up or down; none of a house that was not made.
pub(crate) fn image_of(
    alloc: Global,
    cell: &Cell,
    house: HouseNo,
) -> Result<Option<Vec<u8>>, AllocError>
    ensures { (g : model.Cell) → Stands cell.now g
        → IfOk result (λ o. option_map (λ v. v.items) o ≡ image_in g house.0) }
{
    match cell.house(house) {
        Some(HouseState::Up(home)) => Ok(Some(home.image(alloc)?)),
        Some(HouseState::Down(image)) => Ok(Some(image.list().to_vec(alloc)?)),
        None => Ok(None),
    }
}
