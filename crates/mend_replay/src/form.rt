// The form of `cdsmend`, as one that answers line by line.
use crate::mender::Mender;
use cds_base::LineFault;
use line_forms::LineForm;
use reply_buffer::{LineEnd, Waiting, print_line_fault};
use std::alloc::{AllocError, Global};

impl LineForm for Mender {
    ghost use Rattle.mend_replay.specs.MendRules.{MendState, MendsAt, mend_rule};

    ghost State = { MendState };

    ghost rule = { mend_rule };

    ghost is_at = { MendsAt };

    ghost is_kept = { λ r s. Unit {0} };

    ghost is_broken = { λ r number s line. Unit {0} };

    ghost holds = { λ end form. Unit {0} };

    ghost counted = { λ m. m.replayer.steps };

    ghost keeps = { λ r s at. tt };

    fn answer(
        &mut self,
        alloc: Global,
        number: u32,
        line: &[u8],
        waiting: &mut Waiting,
    ) -> LineEnd {
        self.take_line(alloc, number, line, waiting)
    }

    fn print_end(&self, alloc: Global) -> Result<Vec<u8>, AllocError> {
        self.print_lines(alloc)
    }

    fn print_fault(&self, alloc: Global, fault: LineFault) -> Result<Vec<u8>, AllocError> {
        print_line_fault(alloc, fault)
    }
}
