// The houses of a cell, and what each does when it is asked.
ghost use Rattle.std.specs.Prelude.{◌≡◌, ◌≤◌, true, false, not, List, [], length, Some, None, IfOk, IfNone, IfSome, OnOk, OnErr, MatchOption};
ghost use Rattle.std.specs.Result.{result_err, result_ok};
ghost use Rattle.cds_messages.specs.Validity.{IsValidMessage};
ghost use Rattle.cds_stamps.specs.declared.numbers.HouseNo as house_no;
ghost use Rattle.cds_stamps.specs.Members.{members_of, master_of, most_members};
ghost use Rattle.directory.specs.declared.update.UpdateRefusal.TheVariants as why;
ghost use Rattle.directory.specs.Updates.{change_of};
ghost use Rattle.cell_model.specs.Cells as model;
ghost use Rattle.cell_model.specs.Taking.{CanTake};
ghost use Rattle.cell_model.specs.Turns as turns;
ghost use Rattle.house_directory.specs.HouseMessages.{StandsMessage, numbers_of};
ghost use Rattle.clearinghouse.specs.HouseImages.{start_of_octets};
ghost use Rattle.clearinghouse.specs.HouseLetters.{AreLetters};
ghost use Rattle.house_directory.specs.DirectorySteps.{IsStampAnswer, IsBegunAnswer, IsEpochAnswer, IsTakeAnswer, UnlessTaken};
ghost use Rattle.cds_cell.specs.CellHouses.{StandsAtHouse};
ghost use Rattle.cds_cell.specs.Marks.{IsImageOf};
ghost use Rattle.cds_cell.specs.PrivateHouses.{Asks, IsNewEpoch, IsSameHouse, IsTurnAt, epoch_posted_by, leaves_by, octets_in, posted_at};

use cds_messages::Message;
use cds_stamps::{AllocOr, DirId, EpochNo, HouseNo, Members, Node, Stamp};
use cell_script::Octets;
use clearinghouse::{
    Begun, Clearinghouse, EpochRefusal, Letters, Outgoing, StartFault, Taken, Turn,
};
use directory::{Update, UpdateRefusal};
use std::alloc::{AllocError, Global};

/// What there is of a house: a clearinghouse that is up, or the octets of the image of one that is
/// down.
#[derive(Drop)]
pub enum HouseState {
    Up(Clearinghouse),
    Down(Octets),
}

/// A house of the cell, with its number, its node and its clock.
#[derive(Drop)]
pub(crate) struct CellHouse {
    pub(crate) house: HouseNo,
    pub(crate) node: Node,
    pub(crate) clock: u64,
    pub(crate) state: HouseState,
}

/// What a house that is down answers. A cell asks none.
fn nothing_done<T>() -> Turn<Result<T, UpdateRefusal>>
    ensures { (result.answer ≡ Err why.NoReplica) × (result.outgoing ≡ None) }
{
    Turn {
        answer: Err(UpdateRefusal::NoReplica),
        outgoing: None,
    }
}

impl CellHouse {
    /// Makes a directory, as its master. None where it has something of that directory already, or
    /// is not the master, or is down.
    pub(crate) fn found(
        &mut self,
        alloc: Global,
        dir: DirId,
        members: &Members,
    ) -> Result<Option<Outgoing>, AllocError>
        ensures who { IsSameHouse self.old self.new }
        ensures none { IfOk result (λ o. IfNone o (self.new ≡ self.old)) }
        ensures step { (now : model.House) → StandsAtHouse self.old now → now.up ≡ true
            → now.slots dir.0 ≡ model.Absent
            → master_of (members_of members.now) ≡ self.old.house.0
            → IfOk result
            (λ o. IsTurnAt
            (turns.found_directory self.old.house.0 now dir.0 (members_of members.now)) self.new
            (posted_at self.new dir o)) }
    {
        match &mut self.state {
            HouseState::Up(home)
                if home.state(dir).is_none() && home.number() == members.master() => {
                Ok(Some(home.found(alloc, dir, members)?))
            }
            _ => Ok(None),
        }
    }

    /// Takes an update of a directory.
    pub(crate) fn accept(
        &mut self,
        alloc: Global,
        dir: DirId,
        update: &Update,
    ) -> Result<Turn<Result<Stamp, UpdateRefusal>>, AllocError>
        ensures who { IsSameHouse self.old self.new }
        ensures refused { IfOk result
            (λ turn. OnErr turn.answer ((self.new ≡ self.old) × (turn.outgoing ≡ None))) }
        ensures step { (now : model.House) → StandsAtHouse self.old now → now.up ≡ true
            → IfOk result
            (λ turn. Asks (IsStampAnswer turn.answer)
            (turns.accept self.old.house.0 now dir.0 (change_of update.now)) self.old self.new
            (posted_at self.new dir turn.outgoing)) }
    {
        match &mut self.state {
            HouseState::Up(home) => home.accept_update(alloc, self.clock, dir, update),
            HouseState::Down(_) => Ok(nothing_done()),
        }
    }

    /// Begins a skulk of a directory.
    pub(crate) fn begin_skulk(
        &mut self,
        dir: DirId,
    ) -> Result<Turn<Result<Begun, UpdateRefusal>>, AllocError>
        ensures who { IsSameHouse self.old self.new }
        ensures refused { IfOk result
            (λ turn. OnErr turn.answer ((self.new ≡ self.old) × (turn.outgoing ≡ None))) }
        ensures step { (now : model.House) → StandsAtHouse self.old now → now.up ≡ true
            → IfOk result
            (λ turn. Asks (IsBegunAnswer turn.answer)
            (turns.skulk self.old.house.0 now dir.0) self.old self.new
            (posted_at self.new dir turn.outgoing)) }
    {
        match &mut self.state {
            HouseState::Up(home) => home.begin_skulk(self.clock, dir),
            HouseState::Down(_) => Ok(nothing_done()),
        }
    }

    /// Enters a new epoch of a directory, as its master. It is refused where the house is not the
    /// master, or is down.
    pub(crate) fn enter_epoch(
        &mut self,
        alloc: Global,
        dir: DirId,
        epoch: EpochNo,
        members: &Members,
    ) -> Result<Result<(), EpochRefusal>, AllocError>
        ensures who { IsSameHouse self.old self.new }
        ensures refused { IfOk result (λ e. OnErr e (self.new ≡ self.old)) }
        ensures step { (now : model.House) (leaving : List house_no.HouseNo)
            → StandsAtHouse self.old now → now.up ≡ true
            → master_of (members_of members.now) ≡ self.old.house.0
            → IsNewEpoch epoch.0 (now.slots dir.0)
            → IfOk result (λ e. Asks (IsEpochAnswer epoch.0 (result_err e))
            (turns.new_epoch self.old.house.0 now dir.0 epoch.0 (members_of members.now)
            (numbers_of leaving)) self.old self.new
            (epoch_posted_by self.new.state dir epoch leaving (result_err e))) }
    {
        match &mut self.state {
            HouseState::Up(home) if home.number() == members.master() => {
                home.enter_epoch(alloc, dir, epoch, members)
            }
            _ => Ok(Err(EpochRefusal::NoReplica)),
        }
    }

    /// Takes a message.
    pub(crate) fn take(
        &mut self,
        alloc: Global,
        message: &Message,
    ) -> Result<Turn<Taken>, AllocError>
        ensures who { IsSameHouse self.old self.new }
        ensures same { IfOk result
            (λ turn. UnlessTaken turn.answer ((self.new ≡ self.old) × (turn.outgoing ≡ None))) }
        ensures step { (now : model.House) (m : model.Message) → StandsAtHouse self.old now
            → now.up ≡ true
            → StandsMessage self.old.house.0 message.now m → IsValidMessage message.now
            → CanTake now m
            → IfOk result
            (λ turn. Asks (IsTakeAnswer turn.answer) (turns.take now m) self.old self.new
            (posted_at self.new message.now.dir turn.outgoing)) }
    {
        match &mut self.state {
            HouseState::Up(home) => home.take_message(alloc, message),
            HouseState::Down(_) => Ok(Turn {
                answer: Taken::NoReplica,
                outgoing: None,
            }),
        }
    }

    /// The message about a directory that says this, and its receivers; none, where nobody is to be
    /// told.
    pub(crate) fn letters(
        &self,
        alloc: Global,
        dir: DirId,
        outgoing: &Outgoing,
    ) -> Result<Option<Letters>, AllocError>
        ensures few { IfOk result (λ o. IfSome o (λ l. length l.receivers.items ≤ most_members)) }
        ensures posts { IfOk result
            (λ o. MatchOption o (posted_at self.now dir (Some outgoing.now) ≡ [])
            (λ l. AreLetters l (posted_at self.now dir (Some outgoing.now)))) }
    {
        match &self.state {
            HouseState::Up(home) => home.letters(alloc, dir, outgoing),
            HouseState::Down(_) => Ok(None),
        }
    }

    /// The Leave of an epoch to each of these houses; none, where the house is down.
    pub(crate) fn leaves(
        &self,
        alloc: Global,
        dir: DirId,
        epoch: EpochNo,
        leaving: &[HouseNo],
    ) -> Result<Option<Letters>, AllocError>
        ensures few { IfOk result
            (λ o. IfSome o (λ l. length l.receivers.items ≡ length leaving.now)) }
        ensures posts { IfOk result
            (λ o. MatchOption o (leaves_by self.now.state dir epoch leaving.now ≡ [])
            (λ l. AreLetters l (leaves_by self.now.state dir epoch leaving.now))) }
    {
        match &self.state {
            HouseState::Up(home) => Ok(Some(home.leaves(alloc, dir, epoch, leaving)?)),
            HouseState::Down(_) => Ok(None),
        }
    }

    /// Goes down: what is kept is its image.
    pub(crate) fn crash(&mut self, alloc: Global) -> Result<(), AllocError>
        ensures who { IsSameHouse self.old self.new }
        ensures step { OnOk result ((now : model.House) → StandsAtHouse self.old now → now.up ≡ true
            → StandsAtHouse self.new (turns.crashed_house now)) }
    {
        if let HouseState::Up(home) = &self.state {
            let image = home.image(alloc)?;
            self.state = HouseState::Down(Octets::of(image));
        }
        Ok(())
    }

    /// Starts of its image. Octets that are no image leave it down.
    pub fn start(&mut self, alloc: Global) -> Result<(), AllocError>
        ensures who { IsSameHouse self.old self.new }
        ensures step { OnOk result ((now : model.House) → StandsAtHouse self.old now
            → now.up ≡ false → StandsAtHouse self.new (turns.started_house now)) }
    {
        if let HouseState::Down(image) = &self.state {
            if let Some(home) = home_of(alloc, image.list())? {
                self.state = HouseState::Up(home);
            }
        }
        Ok(())
    }

    /// Starts of these octets, if it is down. Octets that are no image leave it down.
    pub fn start_from(&mut self, alloc: Global, octets: &[u8]) -> Result<(), AllocError>
        ensures who { IsSameHouse self.old self.new }
        ensures step { OnOk result ((now : model.House) → StandsAtHouse self.old now
            → now.up ≡ false → octets.now ≡ octets_in self.old.state
            → StandsAtHouse self.new (turns.started_house now)) }
    {
        if let HouseState::Down(_) = &self.state {
            if let Some(home) = home_of(alloc, octets)? {
                self.state = HouseState::Up(home);
            }
        }
        Ok(())
    }
}

impl HouseState {
    /// The octets of its image, up or down.
    pub(crate) fn image(&self, alloc: Global) -> Result<Vec<u8>, AllocError>
        ensures { IfOk result (λ v. IsImageOf v.items self.now) }
    {
        match self {
            HouseState::Up(home) => home.image(alloc),
            HouseState::Down(octets) => Vec::from_slice(alloc, octets.list()),
        }
    }
}

// The clearinghouse that starts of these octets; none, where they are no image.
fn home_of(alloc: Global, octets: &[u8]) -> Result<Option<Clearinghouse>, AllocError>
    ensures { IfOk result (λ o. o ≡ result_ok (start_of_octets octets.now)) }
{
    match Clearinghouse::start(alloc, octets) {
        Ok(home) => Ok(Some(home)),
        Err(AllocOr::Fault(StartFault::BadImage(_))) => Ok(None),
        Err(AllocOr::OutOfMemory) => Err(AllocError),
    }
}
