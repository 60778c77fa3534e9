// Laws of these lines, each the contract of a function that does nothing.
ghost use Rattle.std.specs.Prelude.{◌≡◌, ◌↔◌, ◌≤◌, ℕ, true};
ghost use Rattle.cds_base.specs.LineFaults.{IsLine};
ghost use Rattle.cds_base.specs.declared.scan.TheConstants.{MOST_LINES};
ghost use Rattle.cell_model.specs.Cells as model;
ghost use Rattle.cell_model.specs.Commands.{Command};
ghost use Rattle.cell_model.specs.Mending.{IsReady};
ghost use Rattle.mend_replay.specs.Readiness.{is_ready};
ghost use Rattle.mend_replay.specs.MendLines.{command_line};
ghost use Rattle.mend_replay.specs.SayableCommands.{CanBeSaid, SaysCommand};

/// The line of a command that mends is one that a script may have, and is read as that command.
pub fn lines_read_back()
    ensures says { (c : Command) → CanBeSaid c → SaysCommand (command_line c) c }
    ensures fits { (c : Command) (number : ℕ) → CanBeSaid c → number ≤ MOST_LINES
        → IsLine number (command_line c) }
{}

/// The test whether the houses of a directory are ready tells what it is named after.
pub fn ready_directories()
    ensures { (g : model.Cell) (d : ℕ) → (is_ready g d ≡ true) ↔ IsReady g d }
{}
