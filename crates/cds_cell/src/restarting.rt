// Houses that start of what a journal gives, and houses that crash after a command, whose messages
// are lost with them.
ghost use Rattle.std.specs.Prelude.{◌≡◌, None, IfOk, OnOk};
ghost use Rattle.cell_model.specs.Cells as model;
ghost use Rattle.cell_model.specs.Commands as command;
ghost use Rattle.cell_model.specs.Steps.{effect, first_refusal, outcome, refusals_of, replay_from};
ghost use Rattle.cds_cell.specs.CommandImages.{crash_losing, octets_at};
ghost use Rattle.cds_cell.specs.PrivateActs.{KeepsRest};
ghost use Rattle.cds_cell.specs.PrivateSteps.{ComesTo, Leaves};
ghost use Rattle.cds_cell.specs.ModelCells.{GrowsBy, IsCall, IsStep, Stands, UnlessDone};

use crate::cell::Cell;
use cds_stamps::HouseNo;
use cell_script::Command;
use script_answers::{Answer, ScriptRefusal};
use std::alloc::{AllocError, Global};

impl Cell {
    /// A house that is down starts of these octets, as by `start` where they are those of its
    /// image. Octets that are no image leave it down.
    pub fn start_from(
        &mut self,
        alloc: Global,
        house: HouseNo,
        octets: &[u8],
    ) -> Result<Answer, AllocError>
        ensures call { IsCall self.old self.new result }
        ensures grows { OnOk result (GrowsBy self.old self.new) }
        ensures same { IfOk result (λ a. UnlessDone a (self.new ≡ self.old)) }
        ensures step { (g : model.Cell) → Stands self.old g → octets.now ≡ octets_at g house.0
            → IfOk result (λ a. IsStep a self.new (outcome g (command.Start house.0))) }
    {
        self.usable()?;
        let done = self.take_start(alloc, house, octets);
        self.spent = done.is_err();
        done
    }

    // Refuses that a house starts, or does it.
    fn take_start(
        &mut self,
        alloc: Global,
        house: HouseNo,
        octets: &[u8],
    ) -> Result<Answer, AllocError>
        ensures spent { self.new.spent ≡ self.old.spent }
        ensures grows { OnOk result (GrowsBy self.old self.new) }
        ensures same { IfOk result (λ a. UnlessDone a (self.new ≡ self.old)) }
        ensures step { (g : model.Cell) → Stands self.old g → octets.now ≡ octets_at g house.0
            → IfOk result (λ a. IsStep a self.new (outcome g (command.Start house.0))) }
    {
        match self.allows(&Command::Start(house)) {
            Ok(()) => self.begin_from(alloc, house, octets),
            Err(refusal) => Ok(Answer::Refused(refusal)),
        }
    }

    // A house that is down starts of these octets.
    fn begin_from(
        &mut self,
        alloc: Global,
        house: HouseNo,
        octets: &[u8],
    ) -> Result<Answer, AllocError>
        ensures leaves { Leaves self.old self.new result }
        ensures step { (g : model.Cell) → Stands self.old g → octets.now ≡ octets_at g house.0
            → first_refusal (refusals_of g (command.Start house.0)) ≡ None
            → ComesTo result self.new (effect g (command.Start house.0)) }
    {
        let Some(at) = self.position(house) else {
            return Ok(Answer::Refused(ScriptRefusal::NoHouse));
        };
        self.houses[at].start_from(alloc, octets)?;
        Ok(Answer::Done)
    }

    /// A house crashes, if it is up, and all messages are lost but the first ones, so many. No
    /// serial number is given again. After want of memory the cell is spent, as after a step.
    pub fn crash_after(
        &mut self,
        alloc: Global,
        house: HouseNo,
        kept: u64,
    ) -> Result<(), AllocError>
        ensures call { IsCall self.old self.new result }
        ensures posted { self.new.bag.posted ≡ self.old.bag.posted }
        ensures directories { self.new.directories ≡ self.old.directories }
        ensures crash { (g : model.Cell) → Stands self.old g
            → OnOk result (Stands self.new (replay_from g (crash_losing g house.0 kept))) }
    {
        self.usable()?;
        self.lose_after(kept);
        let done = self.crash_if_up(alloc, house);
        self.spent = done.is_err();
        done
    }

    // A house crashes, if it is up.
    fn crash_if_up(&mut self, alloc: Global, house: HouseNo) -> Result<(), AllocError>
        ensures rest { KeepsRest self.old self.new }
        ensures bag { self.new.bag ≡ self.old.bag }
        ensures crash { (g : model.Cell) → Stands self.old g
            → OnOk result (Stands self.new (outcome g (command.Crash house.0)).cell) }
    {
        match self.allows(&Command::Crash(house)) {
            Ok(()) => {
                self.crash(alloc, house)?;
                Ok(())
            }
            Err(_) => Ok(()),
        }
    }
}
