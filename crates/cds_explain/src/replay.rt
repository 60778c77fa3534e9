// The replay of a script as it is made: each line is done on a cell, and compared with what the
// entry says before it is added.
ghost use Rattle.std.specs.Prelude.{◌≡◌, ◌≤◌, ◌+◌, ◌++◌, ◌∷◌, [], List, ℕ, Some, IfOk, IfSome, OnOk, option_copied};
ghost use Rattle.std.specs.Bool.{OnTrue};
ghost use Rattle.cds_stamps.specs.Members.{members_of};
ghost use Rattle.cell_model.specs.Cells.{Cell as Cell'};
ghost use Rattle.cds_cell.specs.ModelCells.{Stands};
ghost use Rattle.cell_model.specs.Commands as model;
ghost use Rattle.cell_model.specs.Steps.{replay};
ghost use Rattle.cell_runs.specs.Views.{image_in};
ghost use Rattle.cds_explain.specs.PrivateConsole.{HasMembers, IsListedAs};

use crate::cause::Cause;
use crate::comparing::{are_posted, compare_answer, has_image, have_left, other_answer, said_by};
use crate::posted::PostedIndex;
use crate::ready::ready;
use cds_base::MOST_LINES;
use cds_cell::Cell;
use cds_stamps::{AllocOr, HouseNo, Member, Node};
use cell_script::{Command, Octets};
use entry_lines::Said;
use house_lines::HouseOrder;
use house_logs::LoggedTurn;
use script_answers::Answer;
use script_replay::Replayer;
use std::alloc::{AllocError, Global};

/// The lines of a script, each with its end, and how many they are; the cell after them, and the
/// messages that were posted.
#[derive(Drop)]
pub(crate) struct Replay {
    pub(crate) text: Vec<u8>,
    pub(crate) lines: u32,
    pub(crate) replayer: Replayer,
    pub(crate) posted: PostedIndex,
    ghost few: { replayer.steps ≤ lines },
}

// The members that a directory had before an epoch.
fn members_before(alloc: Global, cell: &Cell, order: &HouseOrder) -> Result<Vec<Member>, AllocError>
    ensures { (g : Cell') → Stands cell.now g
        → IfOk result (λ v. HasMembers g order.now (members_of v.items)) }
{
    if let HouseOrder::Epoch(dir, _, _) = order {
        if let Some((_, members)) = cell.listing(*dir) {
            return Vec::from_slice(alloc, members.list());
        }
    }
    Ok(Vec::new(alloc))
}

// Whether the console gave the list that an epoch has, after one with these members.
fn is_given(cell: &Cell, order: &HouseOrder, before: &[Member]) -> bool
    ensures { (g : Cell') → Stands cell.now g
        → OnTrue result (IsListedAs g order.now (members_of before.now)) }
{
    let HouseOrder::Epoch(dir, _, list) = order else {
        return true;
    };
    match cell.listing(*dir) {
        Some((_, members)) => {
            members.list() == list.members.list()
                && have_left(before, members.list(), list.leaving.list())
        }
        None => false,
    }
}

impl Replay {
    ghost use Rattle.cds_cell.specs.Scripted.{step_of};
    ghost use Rattle.house_logs.specs.declared.log.LogEntry.TheVariants as entry';
    ghost use Rattle.script_answers.specs.declared.answer.Answer.TheVariants as answer';
    ghost use Rattle.entry_lines.specs.SaidLines.{SaysCommand};
    ghost use Rattle.cds_explain.specs.PrivateComparing.{HasImage};
    ghost use Rattle.cds_explain.specs.PrivateConsole.{IsReady};
    ghost use Rattle.cds_explain.specs.PrivateReplays.{DoesEntry, DoesQuietly, HasDone, HasStepped, IfFault};

    /// Of no line.
    pub(crate) fn new(alloc: Global) -> Replay
        ensures { HasDone result [] }
    {
        Replay {
            text: Vec::new(alloc),
            lines: 0,
            replayer: Replayer::new(alloc),
            posted: PostedIndex::new(alloc),
        }
    }

    /// The cell.
    pub(crate) fn cell(&self) -> &Cell
        ensures { result.now ≡ self.now.replayer.cell }
    {
        self.replayer.cell()
    }

    /// Why an order cannot be next; or the serial number of the message that it takes, if it takes
    /// one.
    pub(crate) fn ready(&self, house: HouseNo, order: &HouseOrder) -> Result<u64, Cause>
        ensures { (g : Cell') → Stands self.now.replayer.cell g
            → IfOk result (λ n. IsReady g house.0 order.now n) }
    {
        ready(self.replayer.cell(), &self.posted, house, order)
    }

    // Adds a line.
    fn push(&mut self, line: &[u8]) -> Result<(), AllocError>
        ensures text { OnOk result
            (self.new.text.items ≡ self.old.text.items ++ (line.now ++ 10 ∷ [])) }
        ensures lines { self.new.lines ≡ self.old.lines }
        ensures replayer { self.new.replayer ≡ self.old.replayer }
    {
        self.text.extend_from_slice(line)?;
        self.text.push(b'\n')?;
        Ok(())
    }

    // The answer to a command, if there can be one line more.
    fn step(&mut self, alloc: Global, command: Command) -> Result<Answer, AllocOr<Cause>>
        ensures done { (cs : List model.Command) → HasDone self.old cs
            → IfOk result (λ a. HasStepped cs (step_of command) a self.old self.new) }
        ensures kept { self.new.text ≡ self.old.text }
    {
        if self.lines >= MOST_LINES {
            return Err(AllocOr::Fault(Cause::TooManyLines));
        }
        self.lines += 1;
        Ok(self.replayer.step(alloc, command)?)
    }

    // Does a command, which has to be answered that it is done.
    fn do_only(&mut self, alloc: Global, command: Command) -> Result<(), AllocOr<Cause>>
        ensures done { (cs : List model.Command) → HasDone self.old cs
            → OnOk result (HasStepped cs (step_of command) answer'.Done self.old self.new) }
        ensures kept { self.new.text ≡ self.old.text }
    {
        let answer = self.step(alloc, command)?;
        if let Answer::Done = &answer {
            return Ok(());
        }
        let text = said_by(alloc, &answer)?;
        Err(AllocOr::Fault(other_answer(alloc, b"ok", text)?))
    }

    // Does a command that makes no entry by itself, and adds its line.
    fn do_quietly(&mut self, alloc: Global, said: Said) -> Result<(), AllocOr<Cause>>
        requires { SaysCommand said.line.items said.command }
        ensures done { (cs : List model.Command) → HasDone self.old cs
            → OnOk result (DoesQuietly cs (step_of said.command) self.new) }
        ensures kept { IfFault result (λ cause. self.new.text ≡ self.old.text) }
    {
        let Said { line, command } = said;
        self.do_only(alloc, command)?;
        Ok(self.push(&line)?)
    }

    /// Makes a house.
    pub(crate) fn make(
        &mut self,
        alloc: Global,
        house: HouseNo,
        node: Node,
    ) -> Result<(), AllocOr<Cause>>
        ensures done { (cs : List model.Command) → HasDone self.old cs
            → OnOk result (DoesQuietly cs (model.House house.0 node) self.new) }
        ensures kept { IfFault result (λ cause. self.new.text ≡ self.old.text) }
    {
        let Some(said) = entry_lines::making(alloc, house, node)? else {
            return Err(AllocOr::Fault(Cause::NoLine));
        };
        self.do_quietly(alloc, said)
    }

    /// Sets the clock of a house.
    pub(crate) fn set_clock(
        &mut self,
        alloc: Global,
        house: HouseNo,
        time: u64,
    ) -> Result<(), AllocOr<Cause>>
        ensures done { (cs : List model.Command) → HasDone self.old cs
            → OnOk result (DoesQuietly cs (model.Clock house.0 time) self.new) }
        ensures kept { IfFault result (λ cause. self.new.text ≡ self.old.text) }
    {
        let Some(said) = entry_lines::setting(alloc, house, time)? else {
            return Err(AllocOr::Fault(Cause::NoLine));
        };
        self.do_quietly(alloc, said)
    }

    /// A house crashes.
    pub(crate) fn crash(&mut self, alloc: Global, house: HouseNo) -> Result<(), AllocOr<Cause>>
        ensures done { (cs : List model.Command) → HasDone self.old cs
            → OnOk result (DoesQuietly cs (model.Crash house.0) self.new) }
        ensures kept { IfFault result (λ cause. self.new.text ≡ self.old.text) }
    {
        let Some(said) = entry_lines::crash(alloc, house)? else {
            return Err(AllocOr::Fault(Cause::NoLine));
        };
        self.do_quietly(alloc, said)
    }

    /// A house starts, with this image.
    pub(crate) fn start(
        &mut self,
        alloc: Global,
        house: HouseNo,
        image: &[u8],
    ) -> Result<(), AllocOr<Cause>>
        ensures done { (cs : List model.Command) → HasDone self.old cs
            → OnOk result (DoesEntry cs house.0 (entry'.Started image.now) self.new) }
        ensures kept { IfFault result (λ cause. self.new.text ≡ self.old.text) }
    {
        let Some(said) = entry_lines::start(alloc, house)? else {
            return Err(AllocOr::Fault(Cause::NoLine));
        };
        let Said { line, command } = said;
        self.do_only(alloc, command)?;
        self.compare_image(alloc, house, image)?;
        Ok(self.push(&line)?)
    }

    // The image of a house has to be this one.
    fn compare_image(
        &self,
        alloc: Global,
        house: HouseNo,
        image: &[u8],
    ) -> Result<(), AllocOr<Cause>>
        ensures same { (g : Cell') → Stands self.now.replayer.cell g
            → OnOk result (image_in g house.0 ≡ image.now) }
        ensures other { (g : Cell') → Stands self.now.replayer.cell g
            → IfFault result (λ cause. ¬ HasImage g house.0 image.now) }
    {
        if has_image(alloc, self.cell(), house, image)? {
            Ok(())
        } else {
            Err(AllocOr::Fault(Cause::OtherImage))
        }
    }

    /// The image of a house has to be this one, if there is one.
    pub(crate) fn compare_shown(
        &self,
        alloc: Global,
        house: HouseNo,
        image: Option<&Octets>,
    ) -> Result<(), AllocOr<Cause>>
        ensures same { (g : Cell') → Stands self.now.replayer.cell g
            → OnOk result (IfSome (option_copied image.entry) (λ i. image_in g house.0 ≡ i)) }
        ensures other { (g : Cell') → Stands self.now.replayer.cell g
            → IfFault result (λ cause. ¬ IfSome (option_copied image.entry)
            (λ i. HasImage g house.0 i)) }
    {
        match image {
            Some(image) => self.compare_image(alloc, house, image.list()),
            None => Ok(()),
        }
    }

    /// Does a turn, which takes the message of this serial number if it takes one.
    pub(crate) fn turn(
        &mut self,
        alloc: Global,
        house: HouseNo,
        turn: &LoggedTurn,
        serial: u64,
    ) -> Result<(), AllocOr<Cause>>
        ensures done { (cs : List model.Command) → HasDone self.old cs
            → IsReady (replay cs) house.0 turn.now.order serial
            → ((replay cs).house house.0).clock ≡ turn.now.clock
            → OnOk result (DoesEntry cs house.0 (entry'.Turned turn.now) self.new) }
        ensures kept { IfFault result (λ cause. self.new.text ≡ self.old.text) }
    {
        let Some(said) = entry_lines::turn(alloc, house, turn, serial)? else {
            return Err(AllocOr::Fault(Cause::NoLine));
        };
        let before = members_before(alloc, self.cell(), &turn.order)?;
        let first = self.cell().posted();
        let Said { line, command } = said;
        let answer = self.step(alloc, command)?;
        compare_answer(alloc, turn.answer.list(), &answer)?;
        if !is_given(self.cell(), &turn.order, &before) {
            return Err(AllocOr::Fault(Cause::OtherList));
        }
        if !are_posted(self.cell(), first, &turn.posts) {
            return Err(AllocOr::Fault(Cause::OtherPosts));
        }
        self.compare_shown(alloc, house, turn.image.as_ref())?;
        self.note(alloc, first, turn)?;
        Ok(self.push(&line)?)
    }

    // Notes the messages that a turn posted.
    fn note(&mut self, alloc: Global, first: u64, turn: &LoggedTurn) -> Result<(), AllocError>
        ensures text { self.new.text ≡ self.old.text }
        ensures lines { self.new.lines ≡ self.old.lines }
        ensures replayer { self.new.replayer ≡ self.old.replayer }
    {
        let mut serial = first;
        for post in &turn.posts {
            serial = serial.saturating_add(1);
            self.posted.note(
                alloc,
                self.replayer.cell(),
                serial,
                post.to,
                post.octets.list(),
            )?;
        }
        Ok(())
    }
}
