// Messages that are delivered or lost, and houses that go down and start again.
ghost use Rattle.std.specs.Prelude.{◌≡◌, ◌≤◌, ◌<◌, ◌+◌, ℕ, Ok, IfOk, OnOk, MatchResult, length, map};
ghost use Rattle.cds_messages.specs.Validity.{IsValidMessage};
ghost use Rattle.cell_model.specs.Cells as model;
ghost use Rattle.cell_model.specs.Commands as command;
ghost use Rattle.cell_model.specs.Steps.{effect, replay_from};
ghost use Rattle.cell_model.specs.Taking.{CanTake};
ghost use Rattle.cell_model.specs.Turns as turns;
ghost use Rattle.house_directory.specs.HouseMessages.{StandsMessage};
ghost use Rattle.house_directory.specs.DirectorySteps.{IsTakeAnswer, UnlessTaken};
ghost use Rattle.script_answers.specs.declared.answer.Answer.TheVariants as answer;
ghost use Rattle.cds_cell.specs.CommandImages.{serials_after};
ghost use Rattle.cds_cell.specs.PrivateActs.{ActsAt, Delivers, KeepsRest};
ghost use Rattle.cds_cell.specs.PrivateSteps.{ComesTo, DoesCommand, IsPlaceOf, IsStepAs, Leaves};
ghost use Rattle.cds_cell.specs.ModelCells.{HasRoom, Stands};

use crate::answers::taken_in_script;
use crate::cell::Cell;
use crate::house::HouseState;
use cds_messages::Message;
use cds_records::decode;
use cds_stamps::{AllocOr, HouseNo};
use clearinghouse::Taken;
use script_answers::{Answer, ScriptRefusal, Serials};
use std::alloc::{AllocError, Global};

/// A message that comes to the house at a place of the list.
#[derive(Drop)]
pub(crate) struct Delivery {
    pub(crate) at: usize,
    pub(crate) message: Message,
}

impl Cell {
    /// The message of a serial number comes to its receiver, if it is in the bag, where it stays.
    #[inline(never)]
    pub(crate) fn deliver(&mut self, alloc: Global, serial: u64) -> Result<Answer, AllocError>
        requires room { HasRoom self.old }
        ensures leaves { Leaves self.old self.new result }
        ensures step { (g : model.Cell) → Stands self.old g
            → ComesTo result self.new (effect g (command.Deliver serial)) }
    {
        match self.delivery(alloc, serial)? {
            Ok(delivery) => self.take_message(alloc, delivery.at, &delivery.message),
            Err(refusal) => Ok(Answer::Refused(refusal)),
        }
    }

    /// Where the message of a serial number comes to, and what it says; or why it comes nowhere.
    pub(crate) fn delivery(
        &self,
        alloc: Global,
        serial: u64,
    ) -> Result<Result<Delivery, ScriptRefusal>, AllocError>
        ensures place { IfOk result (λ r. IfOk r (λ d. d.at < length self.now.houses.items)) }
        ensures comes { (g : model.Cell) → Stands self.now g
            → IfOk result (λ r. MatchResult r (λ d. Delivers self.now g serial d.at d.message)
            (λ why. IsStepAs (answer.Refused why) self.now (effect g (command.Deliver serial)))) }
    {
        let Some(letter) = self.bag.letter(serial) else {
            return Ok(Err(ScriptRefusal::NoMessage));
        };
        let Some(at) = self.position(letter.to) else {
            return Ok(Err(ScriptRefusal::Down));
        };
        if let HouseState::Down(_) = &self.houses[at].state {
            return Ok(Err(ScriptRefusal::Down));
        }
        match decode(alloc, letter.octets()) {
            Ok((message, _)) => Ok(Ok(Delivery { at, message })),
            Err(AllocOr::Fault(_)) => Ok(Err(ScriptRefusal::NoMessage)),
            Err(AllocOr::OutOfMemory) => Err(AllocError),
        }
    }

    // A message comes to the house of this place.
    fn take_message(
        &mut self,
        alloc: Global,
        at: usize,
        message: &Message,
    ) -> Result<Answer, AllocError>
        requires house { at < length self.old.houses.items }
        requires room { HasRoom self.old }
        ensures leaves { Leaves self.old self.new result }
        ensures step { (g : model.Cell) (n : ℕ) → Stands self.old g
            → Delivers self.old g n at message.now
            → ComesTo result self.new (effect g (command.Deliver n)) }
    {
        let mut serials = Serials::new(alloc);
        let taken = self.take_at(alloc, at, message, &mut serials)?;
        Ok(taken_in_script(taken, serials))
    }

    // The house of this place takes a message.
    fn take_at(
        &mut self,
        alloc: Global,
        at: usize,
        message: &Message,
        serials: &mut Serials,
    ) -> Result<Taken, AllocError>
        requires house { at < length self.old.houses.items }
        requires room { HasRoom self.old }
        ensures rest { KeepsRest self.old self.new }
        ensures few { OnOk result (self.new.bag.posted ≤ self.old.bag.posted + 64) }
        ensures same { IfOk result (λ t. UnlessTaken t (self.new ≡ self.old)) }
        ensures acts { (now : model.House) (m : model.Message)
            → IsPlaceOf self.old.houses.items m.receiver at → StandsMessage m.receiver message.now m
            → IsValidMessage message.now → CanTake now m
            → IfOk result
            (λ t. ActsAt self.old self.new at serials.old serials.new (IsTakeAnswer t) now
            (λ house. turns.take now m)) }
    {
        let turn = self.houses[at].take(alloc, message)?;
        self.post(alloc, at, message.dir, turn.outgoing, serials)?;
        Ok(turn.answer)
    }

    /// The message of a serial number is lost, if it is in the bag.
    pub(crate) fn lose(&mut self, serial: u64) -> Answer
        ensures leaves { Leaves self.old self.new (Ok result) }
        ensures step { (g : model.Cell) → Stands self.old g
            → IsStepAs result self.new (effect g (command.Lose serial)) }
    {
        if self.bag.letter(serial).is_none() {
            return Answer::Refused(ScriptRefusal::NoMessage);
        }
        self.bag.lose(serial);
        Answer::Done
    }

    /// All messages are lost but the first ones, so many.
    pub(crate) fn lose_after(&mut self, kept: u64)
        ensures houses { self.new.houses ≡ self.old.houses }
        ensures rest { KeepsRest self.old self.new }
        ensures posted { self.new.bag.posted ≡ self.old.bag.posted }
        ensures lost { (g : model.Cell) → Stands self.old g
            → Stands self.new (replay_from g (map command.Lose (serials_after kept g))) }
    {
        'messages: for lost in kept..self.bag.posted() {
            self.bag.lose(lost + 1);
        }
    }

    /// A house goes down.
    pub(crate) fn crash(&mut self, alloc: Global, house: HouseNo) -> Result<Answer, AllocError>
        ensures leaves { Leaves self.old self.new result }
        ensures rest { KeepsRest self.old self.new }
        ensures bag { self.new.bag ≡ self.old.bag }
        ensures step { DoesCommand (command.Crash house.0) self.old self.new result }
    {
        let Some(at) = self.position(house) else {
            return Ok(Answer::Refused(ScriptRefusal::NoHouse));
        };
        self.houses[at].crash(alloc)?;
        Ok(Answer::Done)
    }

    /// A house that is down starts again.
    pub(crate) fn start(&mut self, alloc: Global, house: HouseNo) -> Result<Answer, AllocError>
        ensures leaves { Leaves self.old self.new result }
        ensures step { DoesCommand (command.Start house.0) self.old self.new result }
    {
        let Some(at) = self.position(house) else {
            return Ok(Answer::Refused(ScriptRefusal::NoHouse));
        };
        self.houses[at].start(alloc)?;
        Ok(Answer::Done)
    }
}
