// The form `clerk`: each line is replayed on a cell, and a clerk reads it at low confidence.
use crate::low_read::{LowRead, low_read};
use crate::through::read_through;
use cds_cell::CellReader;
use cds_cell::laws::cells_tell_the_model;
use cds_stamps::HouseNo;
use cell_script::ScriptLine;
use clerk_cache::Clerk;
use script_answers::{Answer, ScriptRefusal};
use script_replay::Replayer;
use std::alloc::{AllocError, Global};

/// A cell that is replayed, and the clerk through which it is read at low confidence.
#[derive(Drop)]
pub struct ClerkReplayer {
    replayer: Replayer,
    clerk: Clerk,
}

impl ClerkReplayer {
    ghost use Rattle.std.specs.Prelude.{◌≡◌, ◌+◌, ◌<◌, ◌≤◌, IfOk};
    ghost use Rattle.cds_base.specs.declared.scan.TheConstants.{MOST_LINES};
    ghost use Rattle.clerk_replay.specs.Clerking.{Clerked, read_at, start};
    ghost use Rattle.clerk_replay.specs.ClerkLines.{IsAnswer, Stands};
    ghost use Rattle.clerk_replay.specs.PrivateClerking.{read_of};

    /// Over a cell without houses, with a clerk that keeps so many answers at most, 1 to 1,000.
    pub fn new(alloc: Global, room: usize) -> Result<ClerkReplayer, AllocError>
        requires least { 1 ≤ room }
        requires most { room ≤ 1000 }
        ensures start { IfOk result (λ r. Stands r (start room)) }
        ensures steps { IfOk result (λ r. r.replayer.steps ≡ 0) }
    {
        Ok(ClerkReplayer {
            replayer: Replayer::new(alloc),
            clerk: Clerk::new(alloc, room, HouseNo(1))?,
        })
    }

    /// What the cell replies to a line, or the clerk.
    pub(crate) fn reply(
        &mut self,
        alloc: Global,
        number: u32,
        line: ScriptLine,
    ) -> Result<Answer, AllocError>
        requires few { self.old.replayer.steps < MOST_LINES }
        ensures reply { (s : Clerked) → Stands self.old s
            → IfOk result (λ a. IsAnswer a self.new number s line) }
        ensures steps { self.new.replayer.steps ≤ self.old.replayer.steps + 1 }
    {
        match low_read(&line) {
            Some(read) => self.read(alloc, number, read),
            None => self.replayer.reply(alloc, line),
        }
    }

    // What the clerk replies to `read` at low confidence. The house that it prefers has to be
    // there.
    fn read(&mut self, alloc: Global, now: u32, read: LowRead<'_>) -> Result<Answer, AllocError>
        ensures answer { (s : Clerked) → Stands self.old s
            → IfOk result (λ a. (a, self.new.clerk) ≡ read_at now s (read_of read.entry)) }
        ensures cell { self.new.replayer ≡ self.old.replayer }
    {
        cells_tell_the_model();
        let cell = self.replayer.cell();
        if cell.has_house(read.house) {
            self.clerk.prefer(read.house);
            let reader = CellReader {
                cell,
                prefer: Some(read.house),
                high: false,
            };
            read_through(alloc, &mut self.clerk, &reader, now, read.name, read.attr)
        } else {
            Ok(Answer::Refused(ScriptRefusal::NoHouse))
        }
    }
}
