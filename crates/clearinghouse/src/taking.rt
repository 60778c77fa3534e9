// Messages that a house takes, by what it has of their directory.
ghost use Rattle.std.specs.Prelude.{◌≡◌, ◌≢◌, [], None, Some, IfOk, OnOk, OnErr, max};
ghost use Rattle.std.specs.FinMap as map;
ghost use Rattle.cds_stamps.specs.declared.numbers.DirId as number;
ghost use Rattle.cds_stamps.specs.Members.{members_of};
ghost use Rattle.cds_messages.specs.Validity.{IsValidMessage};
ghost use Rattle.cell_model.specs.Cells as model;
ghost use Rattle.cell_model.specs.Taking.{CanTake};
ghost use Rattle.cell_model.specs.Turns.{take};
ghost use Rattle.clearinghouse.specs.LawfulHouses.{IsLawful};
ghost use Rattle.house_directory.specs.HouseMessages.{LooksMessage, StandsMessage};
ghost use Rattle.clearinghouse.specs.HouseLetters.{posts_at};
ghost use Rattle.clearinghouse.specs.ModelHouses.{LooksHouse, StandsHouse};
ghost use Rattle.house_directory.specs.DirectorySteps.{IsTakeAnswer, UnlessTaken, IfTaken};
ghost use Rattle.clearinghouse.specs.HouseSteps.{IsCall, IsStep, LooksStep};
ghost use Rattle.house_directory.specs.Times.{latest_in_message};
ghost use Rattle.clearinghouse.specs.HouseTakes.{HasCopy, Takes, TakesJoin, TakesLeave, TakesOther, TakesPosting};
ghost use Rattle.house_directory.specs.DirectoryTakes.{copy_of, join_bar, join_passed, leave_passed};
ghost use Rattle.house_directory.specs.declared.states.DirState.TheVariants as state;

use crate::house::Clearinghouse;
use cds_messages::{Body, Message};
use cds_stamps::{EpochNo, Members};
use house_directory::{
    DirState, Held, Taken, Took, Turn, latest_in_message, since_in, taken_with, time_taken,
    unchanged,
};
use purge_rule::Replica;
use skulk_core::Skulk;
use std::alloc::{AllocError, Global};

impl Clearinghouse {
    /// Takes a message of another house, and posts what it says to it. The floor rises to the
    /// greatest time in a message that is taken.
    pub fn take(&mut self, alloc: Global, message: &Message) -> Result<Took, AllocError>
        ensures call { IsCall self.old self.new result }
        ensures kept { IsValidMessage message.now → IsLawful self.old → IsLawful self.new }
        ensures same { IfOk result
            (λ took. UnlessTaken took.taken ((self.new ≡ self.old) × (took.posted ≡ []))) }
        ensures floor { IfOk result
            (λ took. IfTaken took.taken
            (self.new.floor.time ≡ max self.old.floor.time (latest_in_message message.now))) }
        ensures others { OnOk result ((dir : number.DirId) → dir ≢ message.now.dir
            → map.get self.new.dirs dir ≡ map.get self.old.dirs dir) }
        ensures does { IfOk result
            (λ took. TakesPosting message.now self.old self.new took.taken took.posted) }
        ensures looks { (now : model.House) (m : model.Message)
            → LooksHouse self.old message.now.dir now → LooksMessage self.old.house.0 message.now m
            → IfOk result
            (λ took. LooksStep (IsTakeAnswer took.taken) (take now m) message.now.dir self.new) }
        ensures step { (now : model.House) (m : model.Message) → StandsHouse self.old now
            → StandsMessage self.old.house.0 message.now m → CanTake now m
            → IfOk result
            (λ took. IsStep (IsTakeAnswer took.taken) (take now m) self.old self.new took.posted) }
    {
        let turn = self.take_message(alloc, message)?;
        let posted = self.posted(alloc, message.dir, turn.outgoing.as_ref())?;
        Ok(Took {
            taken: turn.answer,
            posted,
        })
    }

    /// Takes a message, as `take` does. What is to be posted: put the `image` first, and then give
    /// it to `letters`. Any message that `decode` gives may be taken; one that is not taken changes
    /// nothing and posts nothing.
    pub fn take_message(
        &mut self,
        alloc: Global,
        message: &Message,
    ) -> Result<Turn<Taken>, AllocError>
        ensures call { IsCall self.old self.new result }
        ensures kept { IsValidMessage message.now → IsLawful self.old → IsLawful self.new }
        ensures same { IfOk result
            (λ turn. UnlessTaken turn.answer ((self.new ≡ self.old) × (turn.outgoing ≡ None))) }
        ensures floor { IfOk result
            (λ turn. IfTaken turn.answer
            (self.new.floor.time ≡ max self.old.floor.time (latest_in_message message.now))) }
        ensures others { OnOk result ((dir : number.DirId) → dir ≢ message.now.dir
            → map.get self.new.dirs dir ≡ map.get self.old.dirs dir) }
        ensures does { IfOk result
            (λ turn. Takes message.now self.old self.new turn.answer turn.outgoing) }
        ensures looks { (now : model.House) (m : model.Message)
            → LooksHouse self.old message.now.dir now → LooksMessage self.old.house.0 message.now m
            → IfOk result
            (λ turn. LooksStep (IsTakeAnswer turn.answer) (take now m) message.now.dir self.new) }
        ensures step { (now : model.House) (m : model.Message) → StandsHouse self.old now
            → StandsMessage self.old.house.0 message.now m → CanTake now m
            → IfOk result
            (λ turn. IsStep (IsTakeAnswer turn.answer) (take now m) self.old self.new
            (posts_at self.new message.now.dir turn.outgoing)) }
    {
        self.usable()?;
        let done = match &message.body {
            Body::Join(members, replica) => self.take_join(alloc, message, members, replica),
            Body::Leave => self.take_leave(message),
            _ => self.take_other(alloc, message),
        };
        self.heed(done)
    }

    /// Any message but a Join or a Leave.
    fn take_other(&mut self, alloc: Global, message: &Message) -> Result<Turn<Taken>, AllocError>
        ensures ok { IfOk result
            (λ turn. TakesOther message.now self.old self.new turn.answer turn.outgoing) }
        ensures err { OnErr result (self.new ≡ self.old) }
    {
        let house = self.house;
        match self.dirs.held_mut(message.dir) {
            Some(held) => {
                let turn = held.take_here(alloc, house, message)?;
                self.floor.raise(time_taken(&turn.answer, message));
                Ok(turn)
            }
            None => Ok(unchanged(Taken::NoReplica)),
        }
    }

    /// A Join, by what the house has of the directory.
    fn take_join(
        &mut self,
        alloc: Global,
        message: &Message,
        members: &Members,
        replica: &Replica,
    ) -> Result<Turn<Taken>, AllocError>
        ensures ok { IfOk result
            (λ turn. TakesJoin message.now members.now replica.now self.old self.new turn.answer turn.outgoing) }
        ensures err { OnErr result (self.new ≡ self.old) }
    {
        if let Some(answer) = self.bars_join(message, members) {
            return Ok(unchanged(answer));
        }
        self.take_copy(alloc, message, members, replica)?;
        self.floor.raise(latest_in_message(message));
        Ok(taken_with(None))
    }

    /// Why a Join with these members is not taken.
    fn bars_join(&self, message: &Message, members: &Members) -> Option<Taken>
        ensures { result ≡ join_bar self.now.house.0 message.now (members_of members.now)
            (map.get self.now.dirs message.now.dir) }
    {
        if let Some(passed) = self.passes_join(message) {
            return Some(Taken::Late(message.epoch, passed));
        }
        if members.place(self.house).is_none() || members.place(message.from).is_none() {
            return Some(Taken::Foreign);
        }
        None
    }

    /// The epoch for which a Join comes too late, if it does.
    fn passes_join(&self, message: &Message) -> Option<EpochNo>
        ensures { result ≡ join_passed message.now.epoch (map.get self.now.dirs message.now.dir) }
    {
        match self.dirs.get(&message.dir) {
            Some(state) => state.passes_join(message.epoch),
            None => None,
        }
    }

    /// Merges the copy in that came with a Join, where the house held the directory in its present
    /// term, or else has that copy in the place of what it had.
    fn take_copy(
        &mut self,
        alloc: Global,
        message: &Message,
        members: &Members,
        replica: &Replica,
    ) -> Result<(), AllocError>
        ensures ok { OnOk result (HasCopy message.now members.now replica.now self.old self.new) }
        ensures err { OnErr result (self.new ≡ self.old) }
    {
        let since = since_in(members, self.house);
        match self.dirs.held_mut(message.dir) {
            Some(held) if since <= held.epoch => {
                held.join(alloc, message.epoch, members, replica)
            }
            _ => self.copy_in(alloc, message, members, replica),
        }
    }

    /// Has the copy that came with a Join, in the place of what it had.
    fn copy_in(
        &mut self,
        alloc: Global,
        message: &Message,
        members: &Members,
        replica: &Replica,
    ) -> Result<(), AllocError>
        ensures ok { OnOk result (self.new ≡ record self.old {
          dirs = map.insert self.old.dirs message.now.dir (state.Held (copy_of message.now.epoch members.now replica.now));
        }) }
        ensures err { OnErr result (self.new ≡ self.old) }
    {
        let held = Held {
            epoch: message.epoch,
            members: members.copy(alloc)?,
            replica: replica.copy(alloc)?,
            skulk: Skulk::Idle,
        };
        self.dirs.insert(message.dir, DirState::Held(held))?;
        Ok(())
    }

    /// A Leave, by what the house has of the directory.
    fn take_leave(&mut self, message: &Message) -> Result<Turn<Taken>, AllocError>
        ensures ok { IfOk result
            (λ turn. TakesLeave message.now self.old self.new turn.answer turn.outgoing) }
        ensures err { OnErr result (self.new ≡ self.old) }
    {
        if let Some(passed) = self.passes_leave(message) {
            return Ok(unchanged(Taken::Late(message.epoch, passed)));
        }
        self.dirs
            .insert(message.dir, DirState::Gone(message.epoch))?;
        self.floor.raise(message.floor);
        Ok(taken_with(None))
    }

    /// The epoch for which a Leave comes too late, if it does.
    fn passes_leave(&self, message: &Message) -> Option<EpochNo>
        ensures { result ≡ leave_passed message.now.epoch (map.get self.now.dirs message.now.dir) }
    {
        match self.dirs.get(&message.dir) {
            Some(state) => state.passes_leave(message.epoch),
            None => None,
        }
    }
}
