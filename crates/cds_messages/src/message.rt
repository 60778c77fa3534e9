// Messages between the houses of a directory.
ghost use Rattle.std.specs.Prelude.{◌≡◌, IfOk};
ghost use Rattle.cds_messages.specs.Messages.{head_of};
ghost use Rattle.cds_messages.specs.Messages.{tag_of};

use crate::tags::{ADVANCE, GATHER, GATHERED, JOIN, LEAVE, SPREAD, SPREAD_ACK, UPDATE};
use cds_stamps::{DirId, EpochNo, HouseNo, Members, Stamp};
use directory::Fragment;
use purge_rule::{Delta, Replica};
use std::alloc::{AllocError, Global};

/// A message of one house to another about a directory.
pub struct Message {
    pub dir: DirId,
    pub from: HouseNo,
    pub epoch: EpochNo,
    /// The sender's floor when it posted the message.
    pub floor: u64,
    pub body: Body,
}

impl Drop for Message {
    fn drop(self) {
        let Message {
            dir: _dir,
            from: _from,
            epoch: _epoch,
            floor: _floor,
            body: _body,
        } = self;
    }
}

/// What is before what a message carries: the directory, and the house that posts it with its epoch
/// and its floor.
#[derive(Clone, Copy)]
pub struct Head {
    pub dir: DirId,
    pub from: HouseNo,
    pub epoch: EpochNo,
    pub floor: u64,
}

/// What a message carries.
#[derive(Drop)]
pub enum Body {
    /// The marks of an accepted update.
    Update(Fragment),
    /// The first round of a skulk with this stamp begins.
    Gather(Stamp),
    /// The answer, with the delta of the sender's replica.
    Gathered(Stamp, Delta),
    /// The second round begins, with the delta of the master's replica.
    Spread(Stamp, Delta),
    /// The answer.
    SpreadAck(Stamp),
    /// The skulk with this stamp is complete.
    Advance(Stamp),
    /// The receiver is a member of this epoch, with the master's replica.
    Join(Members, Replica),
    /// The receiver is a member no more.
    Leave,
}

impl Message {
    /// What is before what it carries.
    pub fn head(&self) -> Head
        ensures { result ≡ head_of self.now }
    {
        Head {
            dir: self.dir,
            from: self.from,
            epoch: self.epoch,
            floor: self.floor,
        }
    }

    /// A message of the same parts.
    pub fn copy(&self, alloc: Global) -> Result<Message, AllocError>
        ensures { IfOk result (λ m. m ≡ self.now) }
    {
        let body = self.body.copy(alloc)?;
        Ok(Message {
            dir: self.dir,
            from: self.from,
            epoch: self.epoch,
            floor: self.floor,
            body,
        })
    }
}

impl Body {
    /// The tag of a message that carries this.
    pub fn tag(&self) -> u8
        ensures { result ≡ tag_of self.now }
    {
        match self {
            Body::Update(_) => UPDATE,
            Body::Gather(_) => GATHER,
            Body::Gathered(_, _) => GATHERED,
            Body::Spread(_, _) => SPREAD,
            Body::SpreadAck(_) => SPREAD_ACK,
            Body::Advance(_) => ADVANCE,
            Body::Join(_, _) => JOIN,
            Body::Leave => LEAVE,
        }
    }

    /// A body of the same parts.
    pub fn copy(&self, alloc: Global) -> Result<Body, AllocError>
        ensures { IfOk result (λ b. b ≡ self.now) }
    {
        match self {
            Body::Update(fragment) => Ok(Body::Update(fragment.copy(alloc)?)),
            Body::Gather(stamp) => Ok(Body::Gather(*stamp)),
            Body::Gathered(stamp, delta) => Ok(Body::Gathered(*stamp, delta.copy(alloc)?)),
            Body::Spread(stamp, delta) => Ok(Body::Spread(*stamp, delta.copy(alloc)?)),
            Body::SpreadAck(stamp) => Ok(Body::SpreadAck(*stamp)),
            Body::Advance(stamp) => Ok(Body::Advance(*stamp)),
            Body::Join(members, replica) => {
                let members = members.copy(alloc)?;
                Ok(Body::Join(members, replica.copy(alloc)?))
            }
            Body::Leave => Ok(Body::Leave),
        }
    }
}
