// What a command is that is to be stopped at a house.
ghost use Rattle.std.specs.Prelude.{◌≡◌};
ghost use Rattle.cell_model.specs.Cells as model;
ghost use Rattle.cds_cell.specs.Scripted.{step_of};
ghost use Rattle.cds_cell.specs.ModelCells.{Stands};
ghost use Rattle.journal_replay.specs.Journaled.{is_only, lacks_message};
ghost use Rattle.cds_cell.specs.CommandImages.{actors};

use cds_cell::Cell;
use cds_stamps::HouseNo;
use cell_script::Command;

/// Whether a command delivers a message that is not there.
pub(crate) fn lacks_message(cell: &Cell, command: &Command) -> bool
    ensures { (g : model.Cell) → Stands cell.now g
        → result ≡ lacks_message g (step_of command.now) }
{
    match command {
        Command::Deliver(serial) => cell.receiver(*serial).is_none(),
        _ => false,
    }
}

/// Whether a house acts in a command, and no other does.
pub(crate) fn acts_alone(cell: &Cell, house: HouseNo, command: &Command) -> bool
    ensures { (g : model.Cell) → Stands cell.now g
        → result ≡ is_only house.0 (actors g (step_of command.now)) }
{
    match cell.actors(command) {
        (Some(actor), None) | (None, Some(actor)) => actor == house,
        (None, None) | (Some(_), Some(_)) => false,
    }
}
