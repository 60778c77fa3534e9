// The form `journal`, as one that answers line by line.
use crate::journals::Journals;
use cds_base::LineFault;
use line_forms::LineForm;
use reply_buffer::{LineEnd, Waiting, print_line_fault};
use std::alloc::{AllocError, Global};

impl LineForm for Journals {
    ghost use Rattle.journal_replay.specs.CellJournals.{JournaledCell};
    ghost use Rattle.journal_replay.specs.JournalRules.{AreOnDisks, ArePut, IsAfter, disks_of};
    ghost use Rattle.journal_replay.specs.JournalRules.{journal_rule};
    ghost use Rattle.journal_replay.specs.Keeping.{StandsJournals};

    ghost State = { JournaledCell };

    ghost rule = { journal_rule };

    ghost is_at = { StandsJournals };

    ghost is_kept = { λ j. AreOnDisks (disks_of j) };

    ghost is_broken = { λ j. ArePut (disks_of j) };

    ghost holds = { IsAfter };

    ghost counted = { λ j. j.keeper.replayer.steps };

    ghost keeps = { λ j s at. (at.stands.disks, at.stands.gives) };

    fn answer(
        &mut self,
        alloc: Global,
        number: u32,
        line: &[u8],
        waiting: &mut Waiting,
    ) -> LineEnd {
        self.replay_line(alloc, number, line, waiting)
    }

    fn print_end(&self, alloc: Global) -> Result<Vec<u8>, AllocError> {
        Ok(Vec::new(alloc))
    }

    fn print_fault(&self, alloc: Global, fault: LineFault) -> Result<Vec<u8>, AllocError> {
        print_line_fault(alloc, fault)
    }
}
