// What a house has to post after a call, told by what it holds then, so that nothing is copied for
// it.
ghost use Rattle.std.specs.Prelude.{◌≡◌, ◌≤◌, ◌∷◌, [], IfOk, length};
ghost use Rattle.std.specs.Option.{option_map};
ghost use Rattle.cds_stamps.specs.Members.{members_of, most_members, others_of};
ghost use Rattle.house_directory.specs.HouseMessages.{body_of, head_from, message_of, numbers_of, posts_of, posts_to, receiver_of, receivers_of};

use crate::posted::{Posted, PostedList};
use crate::states::Held;
use cds_messages::{Body, Head, Message};
use cds_stamps::{DirId, EpochNo, HouseNo, Stamp};
use directory::Fragment;
use std::alloc::{AllocError, Global};

/// What a house has to post about a directory that it holds. A replica or a member list that
/// belongs to it is the one that the house holds when `Clearinghouse::letters` encodes it.
#[derive(Drop)]
pub enum Outgoing {
    /// To each other member: the marks of an update.
    Update(Fragment),
    /// To each other member: the first round of a skulk.
    Gather(Stamp),
    /// To the house that asked for it in the first round: the delta of the replica.
    Gathered(Stamp, HouseNo),
    /// To each other member: the second round, with the delta of the replica.
    Spread(Stamp),
    /// To the house that sent the second round: that its delta is joined in.
    SpreadAck(Stamp, HouseNo),
    /// To each other member: the skulk is complete.
    Advance(Stamp),
    /// To each other member: the list and the replica.
    Join,
}

/// What a call gives before anything is posted: its answer, and what is to be posted, if anything
/// (`Clearinghouse::letters`).
#[derive(Drop)]
pub struct Turn<A> {
    pub answer: A,
    pub outgoing: Option<Outgoing>,
}

/// From whom a message is, about which directory, and with which floor.
#[derive(Clone, Copy, Debug, PartialEq, Eq)]
pub struct Sender {
    pub house: HouseNo,
    pub dir: DirId,
    pub floor: u64,
}

impl Sender {
    /// What is before what its message of an epoch carries.
    pub fn head(&self, epoch: EpochNo) -> Head
        ensures { result ≡ head_from self.now epoch }
    {
        Head {
            dir: self.dir,
            from: self.house,
            epoch,
            floor: self.floor,
        }
    }
}

impl Outgoing {
    /// The house that alone gets it; none, where each other member does.
    pub fn receiver(&self) -> Option<HouseNo>
        ensures { option_map (λ h. h.0) result ≡ receiver_of self.now }
    {
        match self {
            Outgoing::Gathered(_, to) | Outgoing::SpreadAck(_, to) => Some(*to),
            _ => None,
        }
    }
}

impl Held {
    /// The messages that say this, in ascending order of their receivers.
    pub fn posted(
        &self,
        alloc: Global,
        sender: Sender,
        outgoing: &Outgoing,
    ) -> Result<PostedList, AllocError>
        ensures { IfOk result (λ p. p ≡ posts_of sender self.now outgoing.now) }
    {
        match outgoing.receiver() {
            Some(to) => self.posted_to(alloc, sender, to, outgoing),
            None => self.posted_to_others(alloc, sender, outgoing),
        }
    }

    /// The message to one house.
    fn posted_to(
        &self,
        alloc: Global,
        sender: Sender,
        to: HouseNo,
        outgoing: &Outgoing,
    ) -> Result<PostedList, AllocError>
        ensures { IfOk result
            (λ p. p ≡ posts_to (to.0 ∷ []) (message_of sender self.now outgoing.now)) }
    {
        let mut posted = PostedList::new(alloc);
        let message = self.message(alloc, sender, outgoing)?;
        posted.push(Posted { to, message })?;
        Ok(posted)
    }

    /// A message to each other member.
    fn posted_to_others(
        &self,
        alloc: Global,
        sender: Sender,
        outgoing: &Outgoing,
    ) -> Result<PostedList, AllocError>
        ensures { IfOk result
            (λ p. p ≡ posts_to (others_of sender.house.0 (members_of self.now.members))
            (message_of sender self.now outgoing.now)) }
    {
        let mut posted = PostedList::new(alloc);
        for member in self.members.list() {
            if member.house != sender.house {
                let message = self.message(alloc, sender, outgoing)?;
                posted.push(Posted {
                    to: member.house,
                    message,
                })?;
            }
        }
        Ok(posted)
    }

    /// A message of the epoch that is held, which says this.
    fn message(
        &self,
        alloc: Global,
        sender: Sender,
        outgoing: &Outgoing,
    ) -> Result<Message, AllocError>
        ensures { IfOk result (λ m. m ≡ message_of sender self.now outgoing.now) }
    {
        let body = self.body(alloc, outgoing)?;
        Ok(Message {
            dir: sender.dir,
            from: sender.house,
            epoch: self.epoch,
            floor: sender.floor,
            body,
        })
    }

    /// What a message carries that says this.
    fn body(&self, alloc: Global, outgoing: &Outgoing) -> Result<Body, AllocError>
        ensures { IfOk result (λ b. b ≡ body_of self.now outgoing.now) }
    {
        match outgoing {
            Outgoing::Update(fragment) => Ok(Body::Update(fragment.copy(alloc)?)),
            Outgoing::Gather(t) => Ok(Body::Gather(*t)),
            Outgoing::Gathered(t, _) => Ok(Body::Gathered(*t, self.replica.delta(alloc)?)),
            Outgoing::Spread(t) => Ok(Body::Spread(*t, self.replica.delta(alloc)?)),
            Outgoing::SpreadAck(t, _) => Ok(Body::SpreadAck(*t)),
            Outgoing::Advance(t) => Ok(Body::Advance(*t)),
            Outgoing::Join => {
                let members = self.members.copy(alloc)?;
                Ok(Body::Join(members, self.replica.copy(alloc)?))
            }
        }
    }

    /// The houses to which this is said by a house.
    pub fn receivers(
        &self,
        alloc: Global,
        house: HouseNo,
        outgoing: &Outgoing,
    ) -> Result<Vec<HouseNo>, AllocError>
        ensures houses { IfOk result
            (λ v. numbers_of v.items
            ≡ receivers_of (receiver_of outgoing.now)
            (others_of house.0 (members_of self.now.members))) }
        ensures few { IfOk result (λ v. length v.items ≤ most_members) }
    {
        match outgoing.receiver() {
            Some(to) => Vec::from_slice(alloc, &[to]),
            None => self.others(alloc, house),
        }
    }

    /// The members but this house.
    fn others(&self, alloc: Global, house: HouseNo) -> Result<Vec<HouseNo>, AllocError>
        ensures houses { IfOk result
            (λ v. numbers_of v.items ≡ others_of house.0 (members_of self.now.members)) }
        ensures few { IfOk result (λ v. length v.items ≤ most_members) }
    {
        let mut others = Vec::new(alloc);
        for member in self.members.list() {
            if member.house != house {
                others.push(member.house)?;
            }
        }
        Ok(others)
    }
}
