// New directories and new epochs at the master that the console names.
ghost use Rattle.std.specs.Prelude.{◌≡◌, ◌++◌, [], None, IfOk, OnOk, OnErr};
ghost use Rattle.std.specs.Result.{result_err};
ghost use Rattle.cds_stamps.specs.Members.{members_of, since_in};
ghost use Rattle.purge_rule.specs.Replicas.{replica_of};
ghost use Rattle.skulk_core.specs.declared.skulk.Skulk.TheVariants as skulk;
ghost use Rattle.house_directory.specs.HouseMessages.{leave_of, numbers_of, posts_to};
ghost use Rattle.house_directory.specs.DirectorySteps.{first_held};
ghost use Rattle.house_directory.specs.Refusing.{epoch_fault};

use crate::outgoing::Sender;
use crate::posted::{Posted, PostedList};
use crate::states::{Held, since_in};
use cds_messages::{Body, Message};
use cds_stamps::{EpochNo, HouseNo, Members};
use directory::Table;
use purge_rule::Replica;
use skulk_core::Skulk;
use std::alloc::{AllocError, Global};

/// What comes of a new epoch.
pub enum EpochSet {
    /// The house holds it, and has posted Joins to the other members, and Leaves to those that are
    /// members no more.
    Done(PostedList),
    Refused(EpochRefusal),
}

impl Drop for EpochSet {
    fn drop(self) {
        match self {
            EpochSet::Done(_field_1) => (),
            EpochSet::Refused(_field_1) => (),
        }
    }
}

/// Why a house does not take a new epoch.
#[derive(Clone, Copy, Debug, PartialEq, Eq)]
pub enum EpochRefusal {
    NoReplica,
    /// It holds this epoch, and the one that is given is not later.
    StaleEpoch { held: EpochNo, given: EpochNo },
    /// It holds this epoch, and is a member since this later one only: it has not taken the Join
    /// yet.
    NotJoined { held: EpochNo, since: EpochNo },
}

impl Held {
    /// What the master of a new directory holds: the first epoch, and a replica without entries.
    pub fn first(alloc: Global, members: &Members) -> Result<Held, AllocError>
        ensures { IfOk result (λ h. h ≡ first_held members.now) }
    {
        Ok(Held {
            epoch: EpochNo(1),
            members: members.copy(alloc)?,
            replica: empty_replica(alloc),
            skulk: Skulk::Idle,
        })
    }

    /// Why this epoch, in which the house is a member since that one, is not taken.
    fn bars_epoch(&self, given: EpochNo, since: EpochNo) -> Option<EpochRefusal>
        ensures { result ≡ epoch_fault self.now.epoch.0 given.0 since.0 }
    {
        let held = self.epoch;
        if given <= held {
            return Some(EpochRefusal::StaleEpoch { held, given });
        }
        if held < since {
            return Some(EpochRefusal::NotJoined { held, since });
        }
        None
    }

    /// Takes a new epoch with its members, and no skulk runs any more; or refuses it.
    pub fn enter(
        &mut self,
        alloc: Global,
        house: HouseNo,
        epoch: EpochNo,
        members: &Members,
    ) -> Result<Result<(), EpochRefusal>, AllocError>
        ensures answer { IfOk result
            (λ e. result_err e
            ≡ epoch_fault self.old.epoch.0 epoch.0 (since_in (members_of members.now) house.0 0)) }
        ensures refused { IfOk result (λ e. OnErr e (self.new ≡ self.old)) }
        ensures entered { IfOk result
            (λ e. OnOk e
            (self.new ≡ record self.old { epoch = epoch; members = members.now; skulk = skulk.Idle })) }
        ensures err { OnErr result (self.new ≡ self.old) }
    {
        let since = since_in(members, house);
        if let Some(refusal) = self.bars_epoch(epoch, since) {
            return Ok(Err(refusal));
        }
        self.members = members.copy(alloc)?;
        self.epoch = epoch;
        self.skulk = Skulk::Idle;
        Ok(Ok(()))
    }
}

/// A replica without entries.
fn empty_replica(alloc: Global) -> Replica
    ensures { result ≡ replica_of [] None }
{
    Replica {
        table: Table::new(alloc),
        all_up_to: None,
    }
}

/// A Leave of this epoch to each of these houses, in their order, after what is posted.
pub fn post_leaves(
    posted: &mut PostedList,
    sender: Sender,
    epoch: EpochNo,
    leaving: &[HouseNo],
) -> Result<(), AllocError>
    ensures { OnOk result
        (posted.new ≡ posted.old ++ posts_to (numbers_of leaving.now) (leave_of sender epoch)) }
{
    for house in leaving {
        let message = Message {
            dir: sender.dir,
            from: sender.house,
            epoch,
            floor: sender.floor,
            body: Body::Leave,
        };
        posted.push(Posted {
            to: *house,
            message,
        })?;
    }
    Ok(())
}
