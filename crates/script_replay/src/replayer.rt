// The form `run`: each line is replayed on a cell.
ghost use Rattle.script_replay.specs.StepCounts.{HasSteps};

use crate::limits::MOST_UPDATES;
use crate::questions::reply_to_question;
use crate::said::{Reply, answer_to_updates};
use cds_cell::laws::accepted_updates_are_commands;
use cds_cell::{Cell, Mark};
use cds_stamps::HouseNo;
use cell_script::{Command, Question, ScriptLine};
use ns_commands::Updates;
use script_answers::Answer;
use std::alloc::{AllocError, Global};

/// A cell, how many steps and lists of updates it took, and how many updates stood in these lists:
/// so many that there is room for each further line of a script.
#[derive(Drop)]
pub struct Replayer {
    cell: Cell,
    steps: u32,
    updates: u64,
    ghost few: { HasSteps steps updates cell },
}

impl Replayer {
    ghost use Rattle.std.specs.Prelude.{◌≡◌, ◌∷◌, ◌+◌, ◌<◌, ◌≤◌, [], true, Ok, IfOk, OnOk};
    ghost use Rattle.std.specs.Option.{option_map};
    ghost use Rattle.cds_base.specs.declared.scan.TheConstants.{MOST_LINES};
    ghost use Rattle.cell_model.specs.Cells as model;
    ghost use Rattle.cell_model.specs.Commands as command;
    ghost use Rattle.cell_model.specs.Steps.{outcome, replay_from};
    ghost use Rattle.cell_script.specs.declared.command.ScriptLine.TheVariants as line;
    ghost use Rattle.cds_cell.specs.CellHouses.{is_up_state};
    ghost use Rattle.cds_cell.specs.declared.cell.Cell as cell;
    ghost use Rattle.cds_cell.specs.CommandImages.{actors, crash_losing, octets_at};
    ghost use Rattle.cds_cell.specs.Marks.{IsMark};
    ghost use Rattle.cds_cell.specs.Scripted.{step_of};
    ghost use Rattle.cds_cell.specs.ModelCells.{IsStep, Stands, house_of};
    ghost use Rattle.ns_commands.specs.Asks.{changes_in};
    ghost use Rattle.script_replay.specs.Replies.{does};
    ghost use Rattle.script_replay.specs.Answering.{IsDone, IsReply};

    /// Over a cell without houses. Takes no memory.
    pub fn new(alloc: Global) -> Replayer
        ensures cell { Stands result.cell model.empty_cell }
        ensures steps { result.steps ≡ 0 }
    {
        Replayer {
            cell: Cell::new(alloc),
            steps: 0,
            updates: 0,
        }
    }

    /// The cell.
    pub fn cell(&self) -> &Cell
        ensures { result.now ≡ self.now.cell }
    {
        &self.cell
    }

    /// What the cell replies to a line.
    pub fn reply(&mut self, alloc: Global, line: ScriptLine) -> Result<Answer, AllocError>
        requires few { self.old.steps < MOST_LINES }
        ensures reply { (g : model.Cell) → Stands self.old.cell g
            → IfOk result (λ a. IsReply a self.new.cell g line) }
        ensures steps { self.new.steps ≤ self.old.steps + 1 }
    {
        match line {
            ScriptLine::Cell(command) => self.step(alloc, command),
            ScriptLine::Question(question) => self.answer_question(alloc, &question),
        }
    }

    /// A step of the cell, unless memory ran out before.
    pub fn step(&mut self, alloc: Global, command: Command) -> Result<Answer, AllocError>
        requires few { self.old.steps < MOST_LINES }
        ensures step { (g : model.Cell) → Stands self.old.cell g
            → IfOk result (λ a. IsStep a self.new.cell (outcome g (step_of command))) }
        ensures steps { self.new.steps ≤ self.old.steps + 1 }
    {
        if self.cell.is_spent() {
            return Err(AllocError);
        }
        self.steps += 1;
        self.cell.step(alloc, command)
    }

    // The answer to a question, after the updates that it asks for.
    fn answer_question(&mut self, alloc: Global, question: &Question) -> Result<Answer, AllocError>
        requires few { self.old.steps < MOST_LINES }
        ensures reply { (g : model.Cell) → Stands self.old.cell g
            → IfOk result (λ a. IsReply a self.new.cell g (line.Question question.now)) }
        ensures steps { self.new.steps ≤ self.old.steps + 1 }
    {
        match reply_to_question(alloc, &self.cell, question)? {
            Reply::Answer(answer) => Ok(answer),
            Reply::Updates(updates) => self.accept(alloc, &updates),
        }
    }

    /// Updates at a house that is up, unless memory ran out before. A list of more than
    /// MOST_UPDATES counts as that.
    pub fn accept(&mut self, alloc: Global, updates: &Updates) -> Result<Answer, AllocError>
        requires few { self.old.steps < MOST_LINES }
        requires up { is_up_state
            (option_map (λ h. h.state) (house_of self.old.cell.houses.items updates.now.house.0))
            ≡ true }
        ensures done { (g : model.Cell) → Stands self.old.cell g
            → IfOk result (λ a. IsDone a self.new.cell g (does g (Ok (changes_in updates.now)))) }
        ensures steps { self.new.steps ≤ self.old.steps + 1 }
    {
        accepted_updates_are_commands();
        if self.cell.is_spent() || updates.list.len() > MOST_UPDATES {
            return Err(AllocError);
        }
        self.steps += 1;
        self.updates += updates.list.len() as u64;
        let done = self
            .cell
            .accept_all(alloc, updates.house, updates.dir, &updates.list)?;
        Ok(answer_to_updates(alloc, done))
    }

    /// A start of a house from these octets, which is a step, unless memory ran out before.
    pub fn start_from(
        &mut self,
        alloc: Global,
        house: HouseNo,
        octets: &[u8],
    ) -> Result<Answer, AllocError>
        requires few { self.old.steps < MOST_LINES }
        ensures step { (g : model.Cell) → Stands self.old.cell g → octets.now ≡ octets_at g house.0
            → IfOk result (λ a. IsStep a self.new.cell (outcome g (command.Start house.0))) }
        ensures steps { self.new.steps ≤ self.old.steps + 1 }
    {
        self.steps += 1;
        self.cell.start_from(alloc, house, octets)
    }

    /// A house crashes, and all messages are lost but the first ones, so many. It is no step more.
    pub fn crash_after(
        &mut self,
        alloc: Global,
        house: HouseNo,
        kept: u64,
    ) -> Result<(), AllocError>
        ensures crash { (g : model.Cell) → Stands self.old.cell g
            → OnOk result (Stands self.new.cell (replay_from g (crash_losing g house.0 kept))) }
        ensures steps { self.new.steps ≡ self.old.steps }
    {
        self.cell.crash_after(alloc, house, kept)
    }

    /// After a command of one house, the cell is as it was at the mark before it, but that house is
    /// down. It is no step more.
    pub fn take_back(&mut self, house: HouseNo, mark: Mark)
        ensures back { (before : cell.Cell) (g : model.Cell) (k : command.Command)
            → Stands before g → IsMark mark before house.0 k → actors g k ≡ house.0 ∷ []
            → Stands self.old.cell (outcome g k).cell
            → Stands self.new.cell (outcome g (command.Crash house.0)).cell }
        ensures steps { self.new.steps ≡ self.old.steps }
    {
        self.cell.take_back(house, mark);
    }
}
