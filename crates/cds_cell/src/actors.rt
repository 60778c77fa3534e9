// Who acts in a command.
ghost use Rattle.std.specs.Prelude.{◌≡◌, ◌++◌};
ghost use Rattle.cell_model.specs.Cells as model;
ghost use Rattle.cds_cell.specs.CommandImages.{actors, one_or_none};
ghost use Rattle.cds_cell.specs.ModelCells.{Stands};
ghost use Rattle.cds_cell.specs.Scripted.{step_of};

use crate::cell::Cell;
use cds_stamps::HouseNo;
use cell_script::Command;

impl Cell {
    /// The houses that act in a command: none, one or two, in the order in which they do.
    pub fn actors(&self, command: &Command) -> (Option<HouseNo>, Option<HouseNo>)
        ensures { (g : model.Cell) → Stands self.now g
            → one_or_none result.0 ++ one_or_none result.1 ≡ actors g (step_of command.now) }
    {
        match command {
            Command::House(house, _)
            | Command::Repoint(house, _, _, _, _)
            | Command::Update(house, _, _)
            | Command::Skulk(house, _) => (Some(*house), None),
            Command::Root(master, _) | Command::Epoch(_, master, _) => (Some(*master), None),
            Command::Mkdir(house, _, _, master, _) => (Some(*house), Some(*master)),
            Command::Deliver(serial) => (self.receiver(*serial), None),
            Command::Clock(_, _) | Command::Lose(_) | Command::Crash(_) | Command::Start(_) => {
                (None, None)
            }
        }
    }
}
