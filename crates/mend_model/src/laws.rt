// What holds of every run of the model that houses are left out of: the contract of a function that
// does nothing.
ghost use Rattle.std.specs.Prelude.{ℕ, List};
ghost use Rattle.cell_model.specs.Commands.{Command};
ghost use Rattle.mend_model.specs.Leaving.{LeavesOut};

/// Wherever a house that stays can be master and has a stamp left, the commands that leave houses
/// out complete its skulk.
pub fn leaving()
    ensures { (commands : List Command) (d : ℕ) (hs : List ℕ) → LeavesOut commands d hs }
{}
