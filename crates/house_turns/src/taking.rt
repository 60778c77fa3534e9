// Messages that a house takes.
ghost use Rattle.std.specs.Prelude.{ℕ, ◌+◌, ◌++◌, ◌∷◌, [], codes, decimal, IfOk};
ghost use Rattle.script_answers.specs.Texts.{stamp_text};
ghost use Rattle.cds_messages.specs.Validity.{IsValidMessage};
ghost use Rattle.own_stamps.specs.OwnStamps.{later_own};
ghost use Rattle.house_lines.specs.declared.line.HouseOrder.TheVariants as order;
ghost use Rattle.house_turns.specs.HouseAnswers.{restored_refusal};
ghost use Rattle.house_turns.specs.LineOutcomes as outcomes;
ghost use Rattle.house_turns.specs.PrivateTurns.{Does, Says, TakesMessage, TakesUnless, posts_in, taken_outcome};

use crate::said::{Posts, Said, refused, told, told_words, turned};
use crate::turns::letters;
use cds_messages::Message;
use cds_stamps::{AllocOr, Stamp};
use clearinghouse::{Clearinghouse, Taken, Turn};
use own_stamps::later_own;
use script_answers::{Answer, ScriptRefusal, Serials, push_number, push_stamp};
use std::alloc::{AllocError, Global};

// Octets after a message: the place of the first of them.
fn trailing(alloc: Global, number: u32, place: usize) -> Result<Said, AllocError>
    ensures { IfOk result (λ s. Says number s
        (outcomes.Tells ((codes "refused Trailing " ++ decimal place) ∷ []))) }
{
    let mut words = Vec::from_slice(alloc, b"refused Trailing ")?;
    push_number(&mut words, place as u64)?;
    told_words(alloc, number, &words)
}

// A message with this stamp of the house's node, which is later than its floor.
fn restored(alloc: Global, number: u32, stamp: &Stamp) -> Result<Said, AllocError>
    ensures { IfOk result (λ s. Says number s
        (outcomes.Tells ((codes "refused Restored " ++ stamp_text stamp.now) ∷ []))) }
{
    let mut words = Vec::from_slice(alloc, b"refused Restored ")?;
    push_stamp(&mut words, stamp)?;
    told_words(alloc, number, &words)
}

/// Takes the message of which these are the octets.
pub(crate) fn take(
    alloc: Global,
    home: &mut Clearinghouse,
    number: u32,
    octets: &[u8],
) -> Result<Said, AllocError>
    ensures { (clock : ℕ) → IfOk result
        (λ s. Does number home.old home.new clock (order.Take octets.now) s) }
{
    match cds_records::decode(alloc, octets) {
        Ok((message, used)) => {
            if used < octets.len() {
                return trailing(alloc, number, used + 1);
            }
            take_unless_restored(alloc, home, number, &message)
        }
        Err(AllocOr::Fault(fault)) => refused(alloc, number, ScriptRefusal::Octets(fault)),
        Err(AllocOr::OutOfMemory) => Err(AllocError),
    }
}

// Takes a message, unless the house forgot a stamp that it has.
fn take_unless_restored(
    alloc: Global,
    home: &mut Clearinghouse,
    number: u32,
    message: &Message,
) -> Result<Said, AllocError>
    ensures { IsValidMessage message.now → IfOk result (TakesUnless
        (restored_refusal (later_own home.old.node home.old.floor.time message.now)) number home.old
        home.new message.now) }
{
    match later_own(home.node(), home.floor(), message) {
        Some(stamp) => restored(alloc, number, &stamp),
        None => take_message(alloc, home, number, message),
    }
}

// Takes a message.
fn take_message(
    alloc: Global,
    home: &mut Clearinghouse,
    number: u32,
    message: &Message,
) -> Result<Said, AllocError>
    ensures { IsValidMessage message.now
        → IfOk result (TakesMessage number home.old home.new message.now) }
{
    let Turn { answer, outgoing } = home.take_message(alloc, message)?;
    let posts = Posts::one(letters(alloc, home, message.dir, outgoing.as_ref())?);
    taken_told(alloc, number, posts, answer)
}

// What is said of a message, taken or not.
fn taken_told(alloc: Global, number: u32, posts: Posts, answer: Taken) -> Result<Said, AllocError>
    ensures { IfOk result (λ s. Says number s (taken_outcome answer (posts_in posts))) }
{
    match answer {
        Taken::Taken => turned(alloc, posts, &Answer::Taken(Serials::new(alloc))),
        Taken::Complete(stamp) => turned(
            alloc,
            posts,
            &Answer::Complete(stamp, Serials::new(alloc)),
        ),
        Taken::Late(message, held) => told(alloc, number, &Answer::Late(message, held)),
        Taken::Early(message, held) => told(alloc, number, &Answer::Early(message, held)),
        Taken::Stale(stamp, running) => told(alloc, number, &Answer::Stale(stamp, running)),
        Taken::NoReplica => told(alloc, number, &Answer::NoReplica),
        Taken::Foreign => told_words(alloc, number, b"ok foreign"),
    }
}
