// Updates of a directory at its master.
ghost use Rattle.std.specs.Prelude.{◌≡◌, ◌≤◌, ◌<◌, ℕ, Some, None, Err, IfOk, OnOk, OnErr};
ghost use Rattle.std.specs.Result.{result_err};
ghost use Rattle.cds_stamps.specs.declared.numbers.DirId as number;
ghost use Rattle.cds_stamps.specs.Stamps.{next_stamp};
ghost use Rattle.directory.specs.Shown.{refusal_of, shown_in};
ghost use Rattle.directory.specs.Updates.{change_of, changed_name};
ghost use Rattle.cell_model.specs.Cells as model;
ghost use Rattle.cell_model.specs.Turns.{accept_in};
ghost use Rattle.house_directory.specs.LawfulDirectories.{IsLawfulHeld};
ghost use Rattle.house_directory.specs.Refusing.{held_refusal, stamp_unless};
ghost use Rattle.house_directory.specs.DirectorySteps.{IsStampAnswer};
ghost use Rattle.house_directory.specs.DirectoryTurns.{AddsMarks, HeldStep, IssuesAt};
ghost use Rattle.house_directory.specs.ModelReplicas.{StandsHeld};
ghost use Rattle.house_directory.specs.DirectoryUpdates.{HeldTakes};

use crate::outgoing::{Outgoing, Turn};
use crate::posted::PostedList;
use crate::states::Held;
use cds_stamps::{Floor, HouseNo, Node, Stamp};
use directory::{Update, UpdateRefusal};
use std::alloc::{AllocError, Global};

/// What comes of an update.
#[derive(Drop)]
pub enum Accepted {
    /// It is accepted with this stamp, and posted to each other member.
    Done { stamp: Stamp, posted: PostedList },
    Refused(UpdateRefusal),
}

/// Who issues a stamp: a house, with its node and its clock.
#[derive(Clone, Copy, Debug, PartialEq, Eq)]
pub struct Issuer {
    pub house: HouseNo,
    pub node: Node,
    pub clock: u64,
}

/// An update that is refused: nothing is posted.
pub fn refused<T>(refusal: UpdateRefusal) -> Turn<Result<T, UpdateRefusal>>
    ensures { result ≡ record { answer = Err refusal; outgoing = None } }
{
    Turn {
        answer: Err(refusal),
        outgoing: None,
    }
}

impl Held {
    /// Takes an update, stamped above the floor, or refuses it.
    pub fn accept(
        &mut self,
        alloc: Global,
        by: Issuer,
        floor: &mut Floor,
        update: &Update,
    ) -> Result<Turn<Result<Stamp, UpdateRefusal>>, AllocError>
        ensures answer { IfOk result (λ turn. turn.answer
            ≡ stamp_unless (held_refusal by.house.0 (change_of update.now) self.old)
            (next_stamp by.clock floor.old.time by.node)) }
        ensures refused { IfOk result
            (λ turn. OnErr turn.answer ((self.new ≡ self.old) × (floor.new ≡ floor.old)
            × (turn.outgoing ≡ None))) }
        ensures takes { IfOk result (λ turn. IfOk turn.answer (λ s.
            HeldTakes by.house (change_of update.now) s self.old self.new turn.outgoing
            × (floor.new.time ≡ s.time))) }
        ensures rises { floor.old.time ≤ floor.new.time }
        ensures kept { OnOk result (IsLawfulHeld by.house.0 floor.old.time self.old
            → IsLawfulHeld by.house.0 floor.new.time self.new) }
        ensures err { OnErr result (self.new ≡ self.old) }
        ensures err_floor { OnErr result (floor.new ≡ floor.old) }
        ensures step { (now : model.House) (dir : number.DirId) (r : model.Replica)
            → IssuesAt now by floor.old.time dir self.old r
            → IfOk result
            (λ turn. HeldStep (IsStampAnswer turn.answer)
            (accept_in by.house.0 now dir.0 (change_of update.now) (model.Held r))
            now by.house dir self.old self.new floor.new.time turn.outgoing) }
    {
        if !self.accepts_from(by.house) {
            return Ok(refused(UpdateRefusal::NotMaster));
        }
        let mut raised = *floor;
        let Some(stamp) = raised.issue(by.clock, by.node) else {
            let refusal = self.replica.table.check(update).err();
            return Ok(refused(refusal.unwrap_or(UpdateRefusal::StampsSpent)));
        };
        match self.accept_stamped(alloc, by.house, &stamp, update)? {
            Ok(outgoing) => {
                *floor = raised;
                Ok(Turn {
                    answer: Ok(stamp),
                    outgoing,
                })
            }
            Err(refusal) => Ok(refused(refusal)),
        }
    }

    /// Takes an update with this stamp, or refuses it as the table does. What is to be posted,
    /// where there is another member; where there is none, the name of a change of an attribute is
    /// looked up once.
    fn accept_stamped(
        &mut self,
        alloc: Global,
        house: HouseNo,
        stamp: &Stamp,
        update: &Update,
    ) -> Result<Result<Option<Outgoing>, UpdateRefusal>, AllocError>
        ensures refusal { IfOk result (λ answer.
            result_err answer
            ≡ refusal_of (shown_in self.old.replica.table (changed_name (change_of update.now)))
            (change_of update.now)) }
        ensures takes { IfOk result
            (λ answer. IfOk answer
            (λ o. HeldTakes house (change_of update.now) stamp.now self.old self.new o)) }
        ensures adds { (r : model.Replica) (floor : ℕ) → StandsHeld house.0 floor self.old r
            → floor < stamp.now.time
            → IfOk result
            (λ answer. IfOk answer
            (λ o. AddsMarks house.0 r (change_of update.now) stamp.now self.new o)) }
        ensures kept { IfOk result (λ answer. OnOk answer
            ((me floor : ℕ) → IsLawfulHeld me floor self.old → floor < stamp.now.time
            → IsLawfulHeld me stamp.now.time self.new)) }
        ensures refused { IfOk result (λ answer. OnErr answer (self.new ≡ self.old)) }
        ensures err { OnErr result (self.new ≡ self.old) }
    {
        if self.is_alone(house) {
            return match self.replica.table.accept(alloc, update, *stamp)? {
                Ok(()) => Ok(Ok(None)),
                Err(refusal) => Ok(Err(refusal)),
            };
        }
        let told = self.replica.table.accept_told(alloc, update, *stamp)?;
        match told {
            Ok(fragment) => Ok(Ok(Some(Outgoing::Update(fragment)))),
            Err(refusal) => Ok(Err(refusal)),
        }
    }
}
