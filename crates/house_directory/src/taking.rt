// Messages that a house takes, where it holds their directory.
ghost use Rattle.std.specs.Prelude.{◌≡◌, ◌<◌, length, None, Some, IfOk, OnOk, OnErr, if◌then◌else◌};
ghost use Rattle.cds_stamps.specs.Members.{members_of, place_of};
ghost use Rattle.house_directory.specs.DirectorySteps.{is_taken};
ghost use Rattle.house_directory.specs.Times.{latest_in_message};
ghost use Rattle.house_directory.specs.DirectoryTakes.{Advances, JoinsCopy, TakesFirst, TakesHere, TakesOwn, TakesSecond};
ghost use Rattle.house_directory.specs.DirectoryTakes.{join_passed, leave_passed, second_round_of};
ghost use Rattle.house_directory.specs.declared.taking.Taken.TheVariants as answers;

use crate::outgoing::{Outgoing, Turn};
use crate::posted::PostedList;
use crate::states::{DirState, Held};
use crate::times::latest_in_message;
use cds_messages::{Body, Message};
use cds_stamps::{EpochNo, HouseNo, Members, Stamp};
use purge_rule::{Delta, Replica, Steps};
use skulk_core::{Next, Skulk};
use std::alloc::{AllocError, Global};
use std::marker::Brand;
use std::sync::ledger::{Blank, Ledger};

/// What comes of a message: the answer, and what the house posts. Nothing is posted or changed but
/// for Taken and Complete.
#[derive(Drop)]
pub struct Took {
    pub taken: Taken,
    pub posted: PostedList,
}

/// The answer to a message.
#[derive(Clone, Copy, Debug, PartialEq, Eq)]
pub enum Taken {
    Taken,
    /// The message's epoch is passed: it, and the epoch that the house holds or has left.
    Late(EpochNo, EpochNo),
    /// The message's epoch, and the earlier one that the house holds.
    Early(EpochNo, EpochNo),
    /// An answer to the skulk of the first stamp, where that of the second runs, or none.
    Stale(Stamp, Option<Stamp>),
    NoReplica,
    /// The message is not from a member, or is a Join that does not list its receiver and its
    /// sender. No house sends it so.
    Foreign,
    /// The last answer that was missing: the skulk of this stamp is complete.
    Complete(Stamp),
}

impl Taken {
    /// Whether the message is taken: else it changes nothing.
    pub fn is_taken(&self) -> bool
        ensures { result ≡ is_taken self.now }
    {
        matches!(self, Taken::Taken | Taken::Complete(_))
    }
}

/// A message that is answered and changes nothing.
pub fn unchanged(answer: Taken) -> Turn<Taken>
    ensures { result ≡ record { answer = answer; outgoing = None } }
{
    Turn {
        answer,
        outgoing: None,
    }
}

/// A message that is taken, and what is to be posted.
pub fn taken_with(outgoing: Option<Outgoing>) -> Turn<Taken>
    ensures { result ≡ record { answer = answers.Taken; outgoing = outgoing } }
{
    Turn {
        answer: Taken::Taken,
        outgoing,
    }
}

impl DirState {
    /// The epoch for which a Join of this epoch comes too late: a later one that is held, or one in
    /// which the directory was left, if that is not an earlier one.
    pub fn passes_join(&self, epoch: EpochNo) -> Option<EpochNo>
        ensures { result ≡ join_passed epoch (Some self.now) }
    {
        match self {
            DirState::Held(held) if epoch < held.epoch => Some(held.epoch),
            DirState::Gone(left) if epoch <= *left => Some(*left),
            _ => None,
        }
    }

    /// The epoch for which a Leave of this epoch comes too late: one that is held, or in which the
    /// directory was left, if that is not an earlier one.
    pub fn passes_leave(&self, epoch: EpochNo) -> Option<EpochNo>
        ensures { result ≡ leave_passed epoch (Some self.now) }
    {
        match self {
            DirState::Held(held) if epoch <= held.epoch => Some(held.epoch),
            DirState::Gone(left) if epoch <= *left => Some(*left),
            _ => None,
        }
    }
}

impl Held {
    /// Takes a message that is neither Join nor Leave, where it is of the epoch that is held and of
    /// a member.
    pub fn take_here(
        &mut self,
        alloc: Global,
        house: HouseNo,
        message: &Message,
    ) -> Result<Turn<Taken>, AllocError>
        ensures ok { IfOk result
            (λ turn. TakesHere house message.now self.old self.new turn.answer turn.outgoing) }
        ensures err { OnErr result (self.new ≡ self.old) }
    {
        if message.epoch < self.epoch {
            return Ok(unchanged(Taken::Late(message.epoch, self.epoch)));
        }
        if self.epoch < message.epoch {
            return Ok(unchanged(Taken::Early(message.epoch, self.epoch)));
        }
        match self.members.place(message.from) {
            Some(from) => self.take(alloc, house, from, message),
            None => Ok(unchanged(Taken::Foreign)),
        }
    }

    /// Takes a message of the epoch that is held, of the member at this place.
    fn take(
        &mut self,
        alloc: Global,
        house: HouseNo,
        from: usize,
        message: &Message,
    ) -> Result<Turn<Taken>, AllocError>
        requires from { place_of message.now.from.0 (members_of self.old.members) ≡ Some from }
        ensures ok { IfOk result
            (λ turn. TakesOwn house from message.now.from message.now.body self.old self.new turn.answer turn.outgoing) }
        ensures err { OnErr result (self.new ≡ self.old) }
    {
        match &message.body {
            Body::Update(fragment) => {
                self.replica.take_marks(alloc, fragment)?;
                Ok(taken_with(None))
            }
            Body::Gather(t) => Ok(taken_with(Some(Outgoing::Gathered(*t, message.from)))),
            Body::Gathered(t, delta) => self.take_gathered(alloc, house, from, t, delta),
            Body::Spread(t, delta) => {
                self.replica.take_delta(alloc, delta)?;
                Ok(taken_with(Some(Outgoing::SpreadAck(*t, message.from))))
            }
            Body::SpreadAck(t) => Ok(self.take_ack(from, t)),
            Body::Advance(t) => {
                advance::<Brand>(&mut self.replica, *t, Blank::new(1));
                Ok(taken_with(None))
            }
            Body::Join(_, _) | Body::Leave => Ok(unchanged(Taken::Foreign)),
        }
    }

    /// Takes an answer of the first round; the last one missing begins the second.
    fn take_gathered(
        &mut self,
        alloc: Global,
        house: HouseNo,
        from: usize,
        t: &Stamp,
        delta: &Delta,
    ) -> Result<Turn<Taken>, AllocError>
        requires from { from < length self.old.members }
        ensures ok { IfOk result
            (λ turn. TakesFirst house from t.now delta.now self.old self.new turn.answer turn.outgoing) }
        ensures err { OnErr result (self.new ≡ self.old) }
    {
        let me = self.own_place(house);
        let count = self.count();
        let mut skulk = self.skulk;
        match skulk.gathered(*t, from, count, me) {
            Next::Stale(running) => Ok(unchanged(Taken::Stale(*t, running))),
            next => {
                self.replica.take_delta(alloc, delta)?;
                self.skulk = skulk;
                Ok(taken_with(second_round(next, t)))
            }
        }
    }

    /// Takes an answer of the second round; the last one missing completes the skulk.
    fn take_ack(&mut self, from: usize, t: &Stamp) -> Turn<Taken>
        requires from { from < length self.old.members }
        ensures { TakesSecond from t.now self.old self.new result.answer result.outgoing }
    {
        let count = self.count();
        match self.skulk.spread(*t, from, count) {
            Next::Stale(running) => unchanged(Taken::Stale(*t, running)),
            Next::Complete(_) => {
                advance::<Brand>(&mut self.replica, *t, Blank::new(1));
                Turn {
                    answer: Taken::Complete(*t),
                    outgoing: Some(Outgoing::Advance(*t)),
                }
            }
            _ => taken_with(None),
        }
    }

    /// Takes a Join of its own term: the copy is joined in, and no skulk runs any more.
    pub fn join(
        &mut self,
        alloc: Global,
        epoch: EpochNo,
        members: &Members,
        replica: &Replica,
    ) -> Result<(), AllocError>
        ensures ok { OnOk result (JoinsCopy epoch members.now replica.now self.old self.new) }
        ensures err { OnErr result (self.new ≡ self.old) }
    {
        let members = members.copy(alloc)?;
        self.replica.take(alloc, replica)?;
        self.epoch = epoch;
        self.members = members;
        self.skulk = Skulk::Idle;
        Ok(())
    }
}

/// The second round, where it begins.
fn second_round(next: Next, t: &Stamp) -> Option<Outgoing>
    ensures { result ≡ second_round_of next t.now }
{
    match next {
        Next::SendSpread => Some(Outgoing::Spread(*t)),
        _ => None,
    }
}

/// The greatest time in a message that is taken; 0 of another.
pub fn time_taken(answer: &Taken, message: &Message) -> u64
    ensures { result ≡ (if is_taken answer.now then latest_in_message message.now else 0) }
{
    if answer.is_taken() {
        latest_in_message(message)
    } else {
        0
    }
}

/// Raises AllUpTo of a replica, in steps that nobody reads.
fn advance<L: Ledger>(replica: &mut Replica, t: Stamp, blank: Blank)
    requires name { blank.name ≡ L.name }
    requires parts { blank.parts ≡ L.parts }
    requires some { 0 < blank.parts }
    ensures { Advances replica.old t replica.new }
{
    let mut steps = Steps::<L>::new(blank);
    replica.advance_counted(t, &mut steps);
}
