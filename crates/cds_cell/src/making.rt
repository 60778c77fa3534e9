// Houses and directories that are made.
ghost use Rattle.std.specs.Prelude.{◌≡◌, ◌≢◌, ◌+◌, ◌≤◌, ◌<◌, ◌^◌, ◌∷◌, ℕ, List, None, Ok, IfOk, OnOk, MatchOption, true, length};
ghost use Rattle.cds_stamps.specs.Members.{master_of, members_of};
ghost use Rattle.directory.specs.Updates as updates;
ghost use Rattle.directory.specs.Updates.{change_of};
ghost use Rattle.cell_model.specs.Cells as model;
ghost use Rattle.cell_model.specs.Commands as command;
ghost use Rattle.cell_model.specs.Steps.{sorted_houses, effect, first_refusal, is_bad_list, refusals_of};
ghost use Rattle.cell_script.specs.Listings.{houses_in, secondaries_in};
ghost use Rattle.house_directory.specs.HouseMessages.{numbers_of};
ghost use Rattle.cds_cell.specs.PrivateActs.{CanFound, Founds, GrowsByOne, KeepsRest, MasterFounds, child_outcome};
ghost use Rattle.cds_cell.specs.PrivateSteps.{ComesTo, DoesCommand, IsPlaceOf, IsStepAs, Leaves};
ghost use Rattle.cds_cell.specs.ModelCells.{HasRoom, Stands, StandsAs};

use crate::answers::refusal_in_script;
use crate::cell::Cell;
use crate::console::Listing;
use crate::house::{CellHouse, HouseState};
use crate::members::member_list;
use crate::pointing::house_list;
use cds_stamps::{DirId, EpochNo, HouseNo, Members, Node, SimpleName};
use cell_names::ChildPointer;
use cell_script::Listeds;
use clearinghouse::Clearinghouse;
use directory::Update;
use script_answers::{Answer, ScriptRefusal, Serials};
use std::alloc::{AllocError, Global};

/// The update that makes a child whose directory has this number and these houses; none, where they
/// are no good list.
pub(crate) fn child_of(
    alloc: Global,
    name: SimpleName,
    child: DirId,
    master: HouseNo,
    others: &[HouseNo],
) -> Result<Option<Update>, AllocError>
    ensures { IfOk result
        (λ o. MatchOption o (is_bad_list (master.0 ∷ numbers_of others.now) ≡ true)
        (λ u. change_of u
        ≡ updates.MakeChild name
        (record { dir = child.0; master = master.0; others = sorted_houses (numbers_of others.now) }))) }
{
    let Some(houses) = house_list(alloc, master, others)? else {
        return Ok(None);
    };
    Ok(Some(Update::MakeChild(name, ChildPointer { dir: child, houses })))
}

impl Cell {
    /// A house more, which is up.
    pub(crate) fn make_house(
        &mut self,
        alloc: Global,
        house: HouseNo,
        node: Node,
    ) -> Result<Answer, AllocError>
        requires room { HasRoom self.old }
        ensures leaves { Leaves self.old self.new result }
        ensures step { DoesCommand (command.House house.0 node) self.old self.new result }
    {
        self.houses.push(CellHouse {
            house,
            node,
            clock: 0,
            state: HouseState::Up(Clearinghouse::new(alloc, house, node)),
        })?;
        Ok(Answer::Done)
    }

    /// Another time at a house, up or down.
    pub(crate) fn set_clock(&mut self, house: HouseNo, time: u64) -> Answer
        ensures leaves { Leaves self.old self.new (Ok result) }
        ensures step { (g : model.Cell) → Stands self.old g
            → first_refusal (refusals_of g (command.Clock house.0 time)) ≡ None
            → IsStepAs result self.new (effect g (command.Clock house.0 time)) }
    {
        if let Some(at) = self.position(house) {
            self.houses[at].clock = time;
        }
        Answer::Done
    }

    /// The root directory.
    pub(crate) fn make_root(
        &mut self,
        alloc: Global,
        master: HouseNo,
        others: &Listeds,
    ) -> Result<Answer, AllocError>
        requires room { HasRoom self.old }
        ensures leaves { Leaves self.old self.new result }
        ensures step { DoesCommand (command.Root master.0 (numbers_of (houses_in others.now))
            (numbers_of (secondaries_in others.now))) self.old self.new result }
    {
        let Some(members) = member_list(alloc, &[], EpochNo(1), master, others)? else {
            return Ok(Answer::Refused(ScriptRefusal::BadMembers));
        };
        let mut serials = Serials::new(alloc);
        self.found(alloc, DirId::ROOT, members, &mut serials)?;
        Ok(Answer::Posted(serials))
    }

    /// A directory more: its master holds it, and the console knows it.
    fn found(
        &mut self,
        alloc: Global,
        dir: DirId,
        members: Members,
        serials: &mut Serials,
    ) -> Result<(), AllocError>
        requires room { self.old.bag.posted + 64 ≤ 2 ^ 63 }
        ensures spent { self.new.spent ≡ self.old.spent }
        ensures grows { OnOk result (GrowsByOne self.old self.new) }
        ensures founds { (g : model.Cell) → StandsAs self.old g
            → CanFound g dir.0 (master_of (members_of members))
            → dir.0 ≡ length self.old.directories.items + 1
            → OnOk result (Founds self.new g dir.0 (members_of members) serials.old serials.new) }
    {
        self.found_at_master(alloc, dir, &members, serials)?;
        self.directories.push(Listing {
            epoch: EpochNo(1),
            members,
        })?;
        Ok(())
    }

    // The master of a new directory holds it, and posts its Joins.
    fn found_at_master(
        &mut self,
        alloc: Global,
        dir: DirId,
        members: &Members,
        serials: &mut Serials,
    ) -> Result<(), AllocError>
        requires room { self.old.bag.posted + 64 ≤ 2 ^ 63 }
        ensures rest { KeepsRest self.old self.new }
        ensures few { OnOk result (self.new.bag.posted ≤ self.old.bag.posted + 64) }
        ensures founds { (g : model.Cell) → StandsAs self.old g
            → CanFound g dir.0 (master_of (members_of members.now))
            → OnOk result
            (MasterFounds self.new g dir.0 (members_of members.now) serials.old serials.new) }
    {
        let Some(at) = self.position(members.master()) else {
            return Ok(());
        };
        let outgoing = self.houses[at].found(alloc, dir, members)?;
        self.post(alloc, at, dir, outgoing, serials)?;
        Ok(())
    }

    /// A child of a directory, and its own directory.
    pub(crate) fn make_directory(
        &mut self,
        alloc: Global,
        house: HouseNo,
        dir: DirId,
        name: SimpleName,
        master: HouseNo,
        others: &Listeds,
    ) -> Result<Answer, AllocError>
        requires room { HasRoom self.old }
        ensures leaves { Leaves self.old self.new result }
        ensures step { DoesCommand (command.Mkdir house.0 dir.0 name master.0
            (numbers_of (houses_in others.now))
            (numbers_of (secondaries_in others.now))) self.old self.new result }
    {
        let Some(at) = self.position(house) else {
            return Ok(Answer::Refused(ScriptRefusal::NoHouse));
        };
        let Some(members) = member_list(alloc, &[], EpochNo(1), master, others)? else {
            return Ok(Answer::Refused(ScriptRefusal::BadMembers));
        };
        let child = self.next_directory();
        let Some(update) = child_of(alloc, name, child, master, others.houses())? else {
            return Ok(Answer::Refused(ScriptRefusal::BadMembers));
        };
        self.make_child(alloc, at, dir, &update, child, members)
    }

    // A child by this update of a directory at the house of this place, and its own directory, with
    // this number and these members.
    fn make_child(
        &mut self,
        alloc: Global,
        at: usize,
        dir: DirId,
        update: &Update,
        child: DirId,
        members: Members,
    ) -> Result<Answer, AllocError>
        requires house { at < length self.old.houses.items }
        requires room { HasRoom self.old }
        ensures leaves { Leaves self.old self.new result }
        ensures step { (g : model.Cell) (x : ℕ) → StandsAs self.old g
            → IsPlaceOf self.old.houses.items x at → (g.house x).up ≡ true
            → child.0 ≢ dir.0 → child.0 ≡ length self.old.directories.items + 1
            → CanFound g child.0 (master_of (members_of members))
            → ComesTo result self.new
            (child_outcome g x dir.0 (change_of update.now) child.0 (members_of members)) }
    {
        let mut serials = Serials::new(alloc);
        match self.accept_at(alloc, at, dir, update, &mut serials)? {
            Ok(stamp) => {
                self.found(alloc, child, members, &mut serials)?;
                Ok(Answer::Made(child, stamp, serials))
            }
            Err(refusal) => Ok(Answer::Refused(refusal_in_script(alloc, refusal))),
        }
    }

    /// The number of the next directory: the root's where there is none, which a child never gets.
    pub(crate) fn next_directory(&self) -> DirId
        requires room { HasRoom self.now }
        ensures { result.0 ≡ length self.now.directories.items + 1 }
    {
        DirId(self.directories.len() as u32 + 1)
    }

    /// Other houses of a child's directory.
    pub(crate) fn repoint(
        &mut self,
        alloc: Global,
        house: HouseNo,
        dir: DirId,
        name: SimpleName,
        master: HouseNo,
        others: &[HouseNo],
    ) -> Result<Answer, AllocError>
        requires room { HasRoom self.old }
        ensures leaves { Leaves self.old self.new result }
        ensures step { (g : model.Cell) → Stands self.old g
            → first_refusal
            (refusals_of g (command.Repoint house.0 dir.0 name master.0 (numbers_of others.now)))
            ≡ None
            → ComesTo result self.new
            (effect g (command.Repoint house.0 dir.0 name master.0 (numbers_of others.now))) }
    {
        let Some(houses) = house_list(alloc, master, others)? else {
            return Ok(Answer::Refused(ScriptRefusal::BadMembers));
        };
        self.accept(alloc, house, dir, &Update::Repoint(name, houses))
    }
}
