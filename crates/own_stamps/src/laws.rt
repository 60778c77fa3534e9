//! What holds of the stamps of a house's own node: the contracts of functions that do nothing.
ghost use Rattle.std.specs.Prelude.{◌≡◌, ℕ, true, None};
ghost use Rattle.cds_messages.specs.declared.message.Message.{Message};
ghost use Rattle.cell_model.specs.Cells as model;
ghost use Rattle.cell_model.specs.Reached.{IsReached};
ghost use Rattle.cell_model.specs.Sets.{In, has};
ghost use Rattle.house_directory.specs.HouseMessages.{StandsMessage};
ghost use Rattle.own_stamps.specs.NoneLater.{HousesGaveTheirs, NoneIsLater};
ghost use Rattle.own_stamps.specs.OwnStamps.{later_own};

/// Among houses of a cell no stamp of a node is later than the floor of its house: not in any
/// message that was posted, however late it comes.
pub fn houses_gave_their_stamps()
    ensures { (g : model.Cell) → IsReached g → HousesGaveTheirs g }
{}

/// So no house finds such a stamp in a message that means one of these.
pub fn no_house_is_restored()
    ensures { (node floor to : ℕ) (message : Message) (m : model.Message)
        → StandsMessage to message m → NoneIsLater node floor m
        → later_own node floor message ≡ None }
{}
