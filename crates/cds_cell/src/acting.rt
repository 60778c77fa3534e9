// What a step does that nothing was said against: updates, skulks and new epochs.
ghost use Rattle.std.specs.Prelude.{◌≡◌, ◌≤◌, ◌<◌, ◌+◌, ◌^◌, ℕ, List, None, Some, IfOk, OnOk, OnErr, length, slice_get};
ghost use Rattle.std.specs.Result.{result_err};
ghost use Rattle.cds_stamps.specs.Members.{master_of, members_of};
ghost use Rattle.directory.specs.Updates.{change_of};
ghost use Rattle.cell_model.specs.Cells as model;
ghost use Rattle.cell_model.specs.Commands as command;
ghost use Rattle.cell_model.specs.Steps.{effect, first_refusal, outcome, refusals_of};
ghost use Rattle.cell_model.specs.Turns as turns;
ghost use Rattle.cell_script.specs.Listings.{houses_in, secondaries_in};
ghost use Rattle.house_directory.specs.HouseMessages.{numbers_of};
ghost use Rattle.house_directory.specs.DirectorySteps.{IsBegunAnswer, IsEpochAnswer, IsStampAnswer};
ghost use Rattle.cds_cell.specs.declared.house.CellHouse.{CellHouse};
ghost use Rattle.cds_cell.specs.PrivateActs.{ActsAt, KeepsRest, Posts};
ghost use Rattle.cds_cell.specs.PrivateHouses.{IsNewEpoch, leaves_by, posted_at};
ghost use Rattle.cds_cell.specs.PrivateSteps.{ComesTo, DoesCommand, IsPlaceOf, Leaves};
ghost use Rattle.cds_cell.specs.Scripted.{step_of};
ghost use Rattle.cds_cell.specs.ModelCells.{HasRoom, IsStep, Stands};

use crate::answers::{begun_in_script, epoch_refusal_in_script, refusal_in_script};
use crate::cell::Cell;
use crate::console::Listing;
use crate::members::{leaving, member_list};
use cds_stamps::{DirId, EpochNo, HouseNo, Members, Stamp};
use cell_script::{Command, Listeds};
use clearinghouse::{Begun, EpochRefusal, Outgoing};
use directory::{Update, UpdateRefusal};
use script_answers::{Answer, ScriptRefusal, Serials};
use std::alloc::{AllocError, Global};

impl Cell {
    /// Does a step that nothing was said against.
    pub(crate) fn act(&mut self, alloc: Global, command: Command) -> Result<Answer, AllocError>
        requires room { HasRoom self.old }
        ensures leaves { Leaves self.old self.new result }
        ensures step { DoesCommand (step_of command) self.old self.new result }
    {
        match command {
            Command::House(house, node) => self.make_house(alloc, house, node),
            Command::Clock(house, time) => Ok(self.set_clock(house, time)),
            Command::Root(master, others) => self.make_root(alloc, master, &others),
            Command::Mkdir(house, dir, name, master, others) => {
                self.make_directory(alloc, house, dir, name, master, &others)
            }
            Command::Repoint(house, dir, name, master, others) => {
                self.repoint(alloc, house, dir, name, master, others.list())
            }
            Command::Update(house, dir, update) => self.accept(alloc, house, dir, &update),
            Command::Epoch(dir, master, others) => self.new_epoch(alloc, dir, master, &others),
            Command::Skulk(house, dir) => self.begin_skulk(alloc, house, dir),
            Command::Deliver(serial) => self.deliver(alloc, serial),
            Command::Lose(serial) => Ok(self.lose(serial)),
            Command::Crash(house) => self.crash(alloc, house),
            Command::Start(house) => self.start(alloc, house),
        }
    }

    /// An update of a directory at a house, or the first reason against it.
    #[inline(never)]
    pub(crate) fn update(
        &mut self,
        alloc: Global,
        house: HouseNo,
        dir: DirId,
        change: &Update,
    ) -> Result<Answer, AllocError>
        requires room { HasRoom self.old }
        ensures leaves { Leaves self.old self.new result }
        ensures step { (g : model.Cell) → Stands self.old g
            → IfOk result (λ a. IsStep a self.new
            (outcome g (command.Accept house.0 dir.0 (change_of change.now)))) }
    {
        match self.acting_place(house, dir) {
            Ok(at) => self.accept_placed(alloc, at, dir, change),
            Err(refusal) => Ok(Answer::Refused(refusal)),
        }
    }

    /// An update of a directory at a house that nothing was said against.
    pub(crate) fn accept(
        &mut self,
        alloc: Global,
        house: HouseNo,
        dir: DirId,
        update: &Update,
    ) -> Result<Answer, AllocError>
        requires room { HasRoom self.old }
        ensures leaves { Leaves self.old self.new result }
        ensures step { DoesCommand (command.Accept house.0 dir.0 (change_of update.now))
            self.old self.new result }
    {
        let Some(at) = self.position(house) else {
            return Ok(Answer::Refused(ScriptRefusal::NoHouse));
        };
        self.accept_placed(alloc, at, dir, update)
    }

    // An update of a directory at the house of this place that nothing was said against.
    fn accept_placed(
        &mut self,
        alloc: Global,
        at: usize,
        dir: DirId,
        update: &Update,
    ) -> Result<Answer, AllocError>
        requires house { at < length self.old.houses.items }
        requires room { HasRoom self.old }
        ensures leaves { Leaves self.old self.new result }
        ensures step { (g : model.Cell) (x : ℕ) → Stands self.old g
            → IsPlaceOf self.old.houses.items x at
            → first_refusal (refusals_of g (command.Accept x dir.0 (change_of update.now))) ≡ None
            → ComesTo result self.new
            (effect g (command.Accept x dir.0 (change_of update.now))) }
    {
        let mut serials = Serials::new(alloc);
        match self.accept_at(alloc, at, dir, update, &mut serials)? {
            Ok(stamp) => Ok(Answer::Stamped(stamp, serials)),
            Err(refusal) => Ok(Answer::Refused(refusal_in_script(alloc, refusal))),
        }
    }

    /// An update of a directory at the house of this place. The numbers of the messages that it
    /// posts come after others.
    pub(crate) fn accept_at(
        &mut self,
        alloc: Global,
        at: usize,
        dir: DirId,
        update: &Update,
        serials: &mut Serials,
    ) -> Result<Result<Stamp, UpdateRefusal>, AllocError>
        requires house { at < length self.old.houses.items }
        requires room { self.old.bag.posted + 64 ≤ 2 ^ 63 }
        ensures rest { KeepsRest self.old self.new }
        ensures few { OnOk result (self.new.bag.posted ≤ self.old.bag.posted + 64) }
        ensures refused { IfOk result (λ r. OnErr r (self.new ≡ self.old)) }
        ensures acts { (now : model.House)
            → IfOk result
            (λ r. ActsAt self.old self.new at serials.old serials.new (IsStampAnswer r) now
            (λ house. turns.accept house now dir.0 (change_of update.now))) }
    {
        let turn = self.houses[at].accept(alloc, dir, update)?;
        self.post(alloc, at, dir, turn.outgoing, serials)?;
        Ok(turn.answer)
    }

    /// Posts what the house of this place has to post about a directory, if anything. The numbers
    /// of these messages come after others.
    pub(crate) fn post(
        &mut self,
        alloc: Global,
        at: usize,
        dir: DirId,
        outgoing: Option<Outgoing>,
        serials: &mut Serials,
    ) -> Result<(), AllocError>
        requires house { at < length self.old.houses.items }
        requires room { self.old.bag.posted + 64 ≤ 2 ^ 63 }
        ensures houses { self.new.houses ≡ self.old.houses }
        ensures rest { KeepsRest self.old self.new }
        ensures few { OnOk result (self.new.bag.posted ≤ self.old.bag.posted + 64) }
        ensures none { outgoing ≡ None → self.new ≡ self.old }
        ensures posts { (h : CellHouse) → slice_get self.old.houses.items at ≡ Some h
            → OnOk result
            (Posts self.old.bag self.new.bag serials.old serials.new (posted_at h dir outgoing)) }
    {
        let Some(outgoing) = outgoing else {
            return Ok(());
        };
        let Some(letters) = self.houses[at].letters(alloc, dir, &outgoing)? else {
            return Ok(());
        };
        self.bag.post(letters, serials)
    }

    /// A skulk of a directory at a house.
    fn begin_skulk(
        &mut self,
        alloc: Global,
        house: HouseNo,
        dir: DirId,
    ) -> Result<Answer, AllocError>
        requires room { HasRoom self.old }
        ensures leaves { Leaves self.old self.new result }
        ensures step { DoesCommand (command.Skulk house.0 dir.0) self.old self.new result }
    {
        let Some(at) = self.position(house) else {
            return Ok(Answer::Refused(ScriptRefusal::NoHouse));
        };
        let mut serials = Serials::new(alloc);
        let begun = self.skulk_at(alloc, at, dir, &mut serials)?;
        Ok(begun_in_script(alloc, begun, serials))
    }

    // A skulk of a directory at the house of this place.
    fn skulk_at(
        &mut self,
        alloc: Global,
        at: usize,
        dir: DirId,
        serials: &mut Serials,
    ) -> Result<Result<Begun, UpdateRefusal>, AllocError>
        requires house { at < length self.old.houses.items }
        requires room { HasRoom self.old }
        ensures rest { KeepsRest self.old self.new }
        ensures few { OnOk result (self.new.bag.posted ≤ self.old.bag.posted + 64) }
        ensures refused { IfOk result (λ r. OnErr r (self.new ≡ self.old)) }
        ensures acts { (now : model.House)
            → IfOk result
            (λ r. ActsAt self.old self.new at serials.old serials.new (IsBegunAnswer r) now
            (λ house. turns.skulk house now dir.0)) }
    {
        let turn = self.houses[at].begin_skulk(dir)?;
        self.post(alloc, at, dir, turn.outgoing, serials)?;
        Ok(turn.answer)
    }

    /// The next epoch of a directory, with this master and these other houses.
    fn new_epoch(
        &mut self,
        alloc: Global,
        dir: DirId,
        master: HouseNo,
        others: &Listeds,
    ) -> Result<Answer, AllocError>
        requires room { HasRoom self.old }
        ensures leaves { Leaves self.old self.new result }
        ensures step { DoesCommand (command.Epoch dir.0 master.0 (numbers_of (houses_in others.now))
            (numbers_of (secondaries_in others.now))) self.old self.new result }
    {
        let Some(place) = self.directory_place(dir) else {
            return Ok(Answer::Refused(ScriptRefusal::NoDirectory));
        };
        let Some(at) = self.position(master) else {
            return Ok(Answer::Refused(ScriptRefusal::NoHouse));
        };
        let before = &self.directories[place];
        let epoch = EpochNo(before.epoch.0 + 1);
        let Some(members) = member_list(alloc, before.members.list(), epoch, master, others)? else {
            return Ok(Answer::Refused(ScriptRefusal::BadMembers));
        };
        let left = leaving(alloc, before.members.list(), &members)?;
        let mut serials = Serials::new(alloc);
        match self.enter_at(alloc, at, dir, epoch, &members, &left, &mut serials)? {
            Ok(()) => {
                self.directories[place] = Listing { epoch, members };
                Ok(Answer::Epoch(epoch, serials))
            }
            Err(refusal) => Ok(Answer::Refused(epoch_refusal_in_script(refusal))),
        }
    }

    // A new epoch of a directory at the house of this place, its master, which tells it to the
    // other members and to the houses that left.
    fn enter_at(
        &mut self,
        alloc: Global,
        at: usize,
        dir: DirId,
        epoch: EpochNo,
        members: &Members,
        left: &[HouseNo],
        serials: &mut Serials,
    ) -> Result<Result<(), EpochRefusal>, AllocError>
        requires house { at < length self.old.houses.items }
        requires room { HasRoom self.old }
        requires few { length left.now ≤ 64 }
        ensures rest { KeepsRest self.old self.new }
        ensures few { OnOk result (self.new.bag.posted ≤ self.old.bag.posted + 128) }
        ensures refused { IfOk result (λ r. OnErr r (self.new ≡ self.old)) }
        ensures acts { (now : model.House)
            → IsPlaceOf self.old.houses.items (master_of (members_of members.now)) at
            → IsNewEpoch epoch.0 (now.slots dir.0)
            → IfOk result
            (λ r. ActsAt self.old self.new at serials.old serials.new
            (IsEpochAnswer epoch.0 (result_err r)) now
            (λ house. turns.new_epoch house now dir.0 epoch.0 (members_of members.now)
            (numbers_of left.now))) }
    {
        match self.houses[at].enter_epoch(alloc, dir, epoch, members)? {
            Err(refusal) => Ok(Err(refusal)),
            Ok(()) => {
                self.post(alloc, at, dir, Some(Outgoing::Join), serials)?;
                self.post_leaves(alloc, at, dir, epoch, left, serials)?;
                Ok(Ok(()))
            }
        }
    }

    // Posts a Leave of an epoch to each of these houses.
    fn post_leaves(
        &mut self,
        alloc: Global,
        at: usize,
        dir: DirId,
        epoch: EpochNo,
        left: &[HouseNo],
        serials: &mut Serials,
    ) -> Result<(), AllocError>
        requires house { at < length self.old.houses.items }
        requires room { self.old.bag.posted + length left.now ≤ 2 ^ 63 }
        ensures houses { self.new.houses ≡ self.old.houses }
        ensures rest { KeepsRest self.old self.new }
        ensures few { OnOk result (self.new.bag.posted ≤ self.old.bag.posted + length left.now) }
        ensures posts { (h : CellHouse) → slice_get self.old.houses.items at ≡ Some h
            → OnOk result
            (Posts self.old.bag self.new.bag serials.old serials.new
            (leaves_by h.state dir epoch left.now)) }
    {
        let Some(letters) = self.houses[at].leaves(alloc, dir, epoch, left)? else {
            return Ok(());
        };
        self.bag.post(letters, serials)
    }
}
