// The answers of the script.
ghost use Rattle.std.specs.Prelude.{◌≡◌, ◌≢◌, ℕ, Some, OnErr};
ghost use Rattle.cell_model.specs.Commands as command;
ghost use Rattle.house_directory.specs.DirectorySteps.{IsBegunAnswer, IsEpochAnswer, IsTakeAnswer, UnlessTaken};
ghost use Rattle.script_answers.specs.declared.answer.Answer.TheVariants as answer;
ghost use Rattle.cds_cell.specs.declared.cell.Cell.{Cell};
ghost use Rattle.cds_cell.specs.PrivateActs.{Tells};
ghost use Rattle.cds_cell.specs.Scripted.{answer_of, update_refusal_of};
ghost use Rattle.cds_cell.specs.ModelCells.{UnlessDone};

use clearinghouse::{Begun, EpochRefusal, Taken};
use directory::UpdateRefusal;
use script_answers::{Answer, ScriptRefusal, Serials};
use std::alloc::Global;

/// Why an update is refused.
pub fn refusal_in_script(alloc: Global, refusal: UpdateRefusal) -> ScriptRefusal
    ensures { result ≡ update_refusal_of refusal }
{
    match refusal {
        UpdateRefusal::NoReplica => ScriptRefusal::NoReplica,
        UpdateRefusal::NotMaster => ScriptRefusal::NotMaster,
        UpdateRefusal::NoSuchEntry => ScriptRefusal::NoSuchEntry,
        UpdateRefusal::EntryExists => ScriptRefusal::EntryExists,
        UpdateRefusal::WrongKind => ScriptRefusal::WrongKind,
        UpdateRefusal::StampsSpent => ScriptRefusal::StampsSpent(None, Serials::new(alloc)),
    }
}

/// What a skulk begins with, and the messages that were posted for it.
pub(crate) fn begun_in_script(
    alloc: Global,
    begun: Result<Begun, UpdateRefusal>,
    posted: Serials,
) -> Answer
    ensures same { (old new : Cell) → OnErr begun (new ≡ old) → UnlessDone result (new ≡ old) }
    ensures answer { (a : command.Answer) → IsBegunAnswer begun a → Tells a posted
        → answer_of a ≡ Some result }
{
    match begun {
        Ok(Begun::Started(stamp)) => Answer::Stamped(stamp, posted),
        Ok(Begun::Complete(stamp)) => Answer::Complete(stamp, posted),
        Err(refusal) => Answer::Refused(refusal_in_script(alloc, refusal)),
    }
}

/// Why a new epoch is refused. A console gives each epoch a number above all that its directory
/// had, so none is stale.
pub(crate) fn epoch_refusal_in_script(refusal: EpochRefusal) -> ScriptRefusal
    ensures { (k : ℕ) (a : command.Answer) → IsEpochAnswer k (Some refusal) a
        → answer_of a ≡ Some (answer.Refused result) }
{
    match refusal {
        EpochRefusal::NoReplica => ScriptRefusal::NoReplica,
        EpochRefusal::NotJoined { held, since } => ScriptRefusal::NotJoined(held, since),
        EpochRefusal::StaleEpoch { held, given } => ScriptRefusal::NotJoined(held, given),
    }
}

/// What comes of a message, and the messages that were posted for it. No message of a cell is from
/// a house that is no member.
pub(crate) fn taken_in_script(taken: Taken, posted: Serials) -> Answer
    ensures same { (old new : Cell) → UnlessTaken taken (new ≡ old)
        → UnlessDone result (new ≡ old) }
    ensures answer { (a : command.Answer) → IsTakeAnswer taken a → a ≢ command.Foreign
        → Tells a posted → answer_of a ≡ Some result }
{
    match taken {
        Taken::Taken => Answer::Taken(posted),
        Taken::Late(message, held) => Answer::Late(message, held),
        Taken::Early(message, held) => Answer::Early(message, held),
        Taken::Stale(stamp, running) => Answer::Stale(stamp, running),
        Taken::NoReplica => Answer::NoReplica,
        Taken::Foreign => Answer::NoReplica,
        Taken::Complete(stamp) => Answer::Complete(stamp, posted),
    }
}
