// Laws of these lines, each the contract of a function that does nothing.
ghost use Rattle.std.specs.Prelude.{◌≡◌, ◌≤◌, ℕ, Ok, Some, length};
ghost use Rattle.cds_base.specs.LineFaults.{IsLine};
ghost use Rattle.cds_base.specs.declared.scan.TheConstants.{LONGEST_LINE, MOST_LINES};
ghost use Rattle.cell_script.specs.CommandRows.{said_in};
ghost use Rattle.cell_script.specs.Words.{words_of};
ghost use Rattle.cell_script.specs.declared.command.Command.{Command};
ghost use Rattle.cell_script.specs.declared.command.ScriptLine.TheVariants as line;
ghost use Rattle.command_lines.specs.CommandTexts.{command_line, command_words};
ghost use Rattle.command_lines.specs.SayableCommands.{CanBeSaid};

/// The words of a command are read as that command. They are those of its line, and a script may
/// have the line if it is not too long.
pub fn commands_are_read_back()
    ensures says { (c : Command) → CanBeSaid c
        → said_in (command_words c) ≡ Ok (Some (line.Cell c)) }
    ensures words { (c : Command) → CanBeSaid c → words_of (command_line c) ≡ command_words c }
    ensures fits { (c : Command) (number : ℕ) → CanBeSaid c
        → length (command_line c) ≤ LONGEST_LINE → number ≤ MOST_LINES
        → IsLine number (command_line c) }
{}
