// Skulks that a master begins.
ghost use Rattle.std.specs.Prelude.{◌≡◌, ◌≤◌, ◌<◌, None, Some, Ok, IfOk, OnErr};
ghost use Rattle.cds_stamps.specs.declared.numbers.DirId as number;
ghost use Rattle.cds_stamps.specs.Members.{master_of, members_of, others_of};
ghost use Rattle.cds_stamps.specs.Stamps.{next_stamp};
ghost use Rattle.cell_model.specs.Cells as model;
ghost use Rattle.cell_model.specs.Turns.{skulk_in, begin};
ghost use Rattle.house_directory.specs.LawfulDirectories.{IsLawfulHeld};
ghost use Rattle.house_directory.specs.Refusing.{begun_among, not_master, stamp_unless};
ghost use Rattle.house_directory.specs.DirectorySteps.{IsBegunAnswer, begun_outgoing};
ghost use Rattle.house_directory.specs.DirectoryTurns.{HeldStep, IssuesAt};
ghost use Rattle.house_directory.specs.DirectoryUpdates.{HeldBegins, stamp_of};

use crate::outgoing::{Outgoing, Turn};
use crate::posted::PostedList;
use crate::states::Held;
use crate::updates::{Issuer, refused};
use cds_stamps::{Floor, Stamp};
use directory::UpdateRefusal;
use skulk_core::Next;

/// What comes of a skulk that is to begin.
#[derive(Drop)]
pub enum Skulked {
    /// It has begun with this stamp: its first round is posted to each other member.
    Started { t: Stamp, posted: PostedList },
    /// The master is the only member, and the skulk of this stamp is complete.
    Complete(Stamp),
    Refused(UpdateRefusal),
}

/// A skulk that has begun.
#[derive(Clone, Copy, Debug, PartialEq, Eq)]
pub enum Begun {
    /// Its first round is to be posted.
    Started(Stamp),
    /// It is complete.
    Complete(Stamp),
}

impl Held {
    /// Begins a skulk in the place of one that runs, or refuses it.
    pub fn begin_skulk(
        &mut self,
        by: Issuer,
        floor: &mut Floor,
    ) -> Turn<Result<Begun, UpdateRefusal>>
        ensures answer { result.answer
            ≡ begun_among self.old.members
            (stamp_unless (not_master by.house.0 self.old)
            (next_stamp by.clock floor.old.time by.node)) }
        ensures refused { OnErr result.answer ((self.new ≡ self.old) × (floor.new ≡ floor.old)
            × (result.outgoing ≡ None)) }
        ensures posts { result.outgoing ≡ begun_outgoing result.answer }
        ensures begins { IfOk result.answer (λ b. HeldBegins by.house b self.old self.new
            × (floor.new.time ≡ (stamp_of b).time)) }
        ensures rises { floor.old.time ≤ floor.new.time }
        ensures kept { IsLawfulHeld by.house.0 floor.old.time self.old
            → IsLawfulHeld by.house.0 floor.new.time self.new }
        ensures step { (now : model.House) (dir : number.DirId) (r : model.Replica)
            → IssuesAt now by floor.old.time dir self.old r
            → HeldStep (IsBegunAnswer result.answer) (skulk_in by.house.0 now dir.0 (model.Held r))
            now by.house dir self.old self.new floor.new.time result.outgoing }
    {
        if self.members.master() != by.house {
            return refused(UpdateRefusal::NotMaster);
        }
        match floor.issue(by.clock, by.node) {
            Some(t) => self.begin_with(by, &t),
            None => refused(UpdateRefusal::StampsSpent),
        }
    }

    /// Begins the skulk of this stamp.
    fn begin_with(&mut self, by: Issuer, t: &Stamp) -> Turn<Result<Begun, UpdateRefusal>>
        requires master { master_of (members_of self.old.members) ≡ by.house.0 }
        ensures answer { result.answer ≡ begun_among self.old.members (Ok t.now) }
        ensures posts { result.outgoing ≡ begun_outgoing result.answer }
        ensures begins { IfOk result.answer (λ b. HeldBegins by.house b self.old self.new
            × (stamp_of b ≡ t.now)) }
        ensures kept { IsLawfulHeld by.house.0 t.now.time self.old
            → IsLawfulHeld by.house.0 t.now.time self.new }
        ensures step { (now : model.House) (dir : number.DirId) (r : model.Replica)
            → IssuesAt now by now.floor dir self.old r → now.floor < t.now.time
            → HeldStep (IsBegunAnswer result.answer)
            (begin by.house.0 now dir.0 r t.now (others_of by.house.0 r.members))
            now by.house dir self.old self.new t.now.time result.outgoing }
    {
        let me = self.own_place(by.house);
        let count = self.count();
        match self.skulk.begin(*t, count, me) {
            Next::Complete(_) => {
                self.replica.advance(*t);
                Turn {
                    answer: Ok(Begun::Complete(*t)),
                    outgoing: None,
                }
            }
            _ => Turn {
                answer: Ok(Begun::Started(*t)),
                outgoing: Some(Outgoing::Gather(*t)),
            },
        }
    }
}
