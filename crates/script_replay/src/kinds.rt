// What is counted of a command and its answer.
ghost use Rattle.std.specs.Prelude.{◌≡◌, ◌&&◌, not};
ghost use Rattle.script_replay.specs.PrivateKinds.{is_complete, line_changes, line_delivers, refuses};

use cell_script::{Command, ScriptLine};
use directory::Update;
use script_answers::Answer;

/// Whether a line changes an entry: one of four commands of the script.
pub(crate) fn is_change(line: &ScriptLine) -> bool
    ensures { result ≡ line_changes line.now }
{
    match line {
        ScriptLine::Cell(
            Command::Update(
                _,
                _,
                Update::Create(..) | Update::Delete(..) | Update::Add(..) | Update::Remove(..),
            ),
        ) => true,
        _ => false,
    }
}

pub(crate) fn is_delivery(line: &ScriptLine) -> bool
    ensures { result ≡ line_delivers line.now }
{
    matches!(line, ScriptLine::Cell(Command::Deliver(_)))
}

/// Whether an answer accepts a change.
pub(crate) fn accepts(changes: bool, answer: &Answer) -> bool
    ensures { result ≡ (changes && not (refuses answer.now)) }
{
    changes && !matches!(answer, Answer::Refused(_))
}

/// Whether a delivery completes a skulk.
pub(crate) fn completes(delivers: bool, answer: &Answer) -> bool
    ensures { result ≡ (delivers && is_complete answer.now) }
{
    delivers && matches!(answer, Answer::Complete(..))
}
