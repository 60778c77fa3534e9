// What is said to a question.
ghost use Rattle.std.specs.Prelude.{◌≡◌, IfOk, IfErr, Err};
ghost use Rattle.cds_stamps.specs.declared.alloc_or.AllocOr.TheVariants.{Fault};
ghost use Rattle.cds_cell.specs.Accepting.{Accepting};
ghost use Rattle.script_replay.specs.PrivateSaid.{IsAnswer, IsAsked, TellsUpdates};
ghost use Rattle.script_replay.specs.Replies.{refusal_behind, updates_told};

use cds_cell::{AcceptedAll, refusal_in_script};
use cds_stamps::AllocOr;
use directory::UpdateRefusal;
use ns_commands::Updates;
use script_answers::{Answer, ScriptRefusal, Serials};
use std::alloc::{AllocError, Global};

/// What is said to a question: the answer, or which updates it asks for, to which the answer is
/// then given.
#[derive(Drop)]
pub enum Reply {
    Answer(Answer),
    Updates(Updates),
}

/// The answer.
pub(crate) fn told(answer: Result<Answer, AllocError>) -> Result<Reply, AllocError>
    ensures { IfOk result (IsAnswer answer) }
{
    Ok(Reply::Answer(answer?))
}

/// The updates that a command of the name service asks for, or why it asks for none.
pub(crate) fn asked(updates: Result<Updates, AllocOr<ScriptRefusal>>) -> Result<Reply, AllocError>
    ensures { IfOk result (IsAsked updates) }
{
    match updates {
        Ok(updates) => Ok(Reply::Updates(updates)),
        Err(AllocOr::Fault(refusal)) => Ok(Reply::Answer(Answer::Refused(refusal))),
        Err(AllocOr::OutOfMemory) => Err(AllocError),
    }
}

/// The answer to updates.
pub(crate) fn answer_to_updates(alloc: Global, done: AcceptedAll) -> Answer
    ensures { (w : Accepting) → TellsUpdates done w → result ≡ updates_told w w.refused }
{
    match done.refused {
        None => Answer::Updates(done.count, done.posted),
        Some(refusal) => {
            Answer::Refused(refusal_behind(alloc, refusal, done.count, done.posted))
        }
    }
}

// Why an update is refused after so many that were accepted, which posted these messages.
fn refusal_behind(
    alloc: Global,
    refusal: UpdateRefusal,
    count: u64,
    posted: Serials,
) -> ScriptRefusal
    ensures { result ≡ refusal_behind refusal count posted }
{
    match refusal {
        UpdateRefusal::StampsSpent => ScriptRefusal::StampsSpent(Some(count), posted),
        UpdateRefusal::NoReplica
        | UpdateRefusal::NotMaster
        | UpdateRefusal::NoSuchEntry
        | UpdateRefusal::EntryExists
        | UpdateRefusal::WrongKind => refusal_in_script(alloc, refusal),
    }
}
