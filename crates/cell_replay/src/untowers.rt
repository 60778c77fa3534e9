// The form `untowers`, as one that answers line by line.
ghost use Rattle.cell_replay.specs.FormReadings.{spelling_rule};

use cds_base::LineFault;
use line_forms::LineForm;
use reply_buffer::{LineEnd, Speller, Waiting};
use std::alloc::{AllocError, Global};

/// Spells the tower of each line.
#[derive(Drop)]
pub(crate) struct Untowers {
    speller: Speller,
}

impl Untowers {
    pub(crate) fn new(alloc: Global) -> Result<Untowers, AllocError> {
        Ok(Untowers {
            speller: Speller::new(alloc)?,
        })
    }
}

impl LineForm for Untowers {
    ghost State = { Unit {0} };

    ghost rule = { spelling_rule };

    ghost is_at = { λ u s. Unit {0} };

    ghost is_kept = { λ u s. Unit {0} };

    ghost is_broken = { λ u number s line. Unit {0} };

    ghost holds = { λ end form. Unit {0} };

    ghost counted = { λ u. 0 };

    ghost keeps = { λ u s at. tt };

    fn answer(
        &mut self,
        alloc: Global,
        _number: u32,
        line: &[u8],
        waiting: &mut Waiting,
    ) -> LineEnd {
        self.speller.spell_line(alloc, line, waiting)
    }

    fn print_end(&self, alloc: Global) -> Result<Vec<u8>, AllocError> {
        Ok(Vec::new(alloc))
    }

    /// It writes none.
    fn print_fault(&self, alloc: Global, _fault: LineFault) -> Result<Vec<u8>, AllocError> {
        Ok(Vec::new(alloc))
    }
}
