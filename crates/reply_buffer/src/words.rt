// The words of a line.
ghost use Rattle.std.specs.Prelude.{◌≡◌, map, IfOk};
ghost use Rattle.cell_script.specs.Words.{words_of};

use std::alloc::{AllocError, Global};

/// The words of a line, between its spaces.
pub(crate) fn split_words(alloc: Global, line: &[u8]) -> Result<Vec<&[u8]>, AllocError>
    ensures { IfOk result (λ v. map (λ w. w.now) v.items ≡ words_of line.now) }
{
    line.split(|b| *b == b' ')
        .filter(|w| !w.is_empty())
        .collect(alloc)
}
