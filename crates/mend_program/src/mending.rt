// The form of `cdsmend`: a script is replayed, and what mends a directory after it is written.
ghost use Rattle.mend_program.specs.MendForm.{mend_form};
ghost use Rattle.cds_base.specs.RunEnds.{run_of};
ghost use Rattle.line_forms.specs.Runs.{Ended};
ghost use Rattle.house_directory.specs.HouseMessages.{numbers_of};

use cds_base::{Sink, Source};
use cds_stamps::{DirId, HouseNo};
use line_forms::{Status, serve_lines};
use mend_replay::Mender;
use std::alloc::Global;

/// Reads a script, and writes the lines that mend the directory after it without these houses, or
/// why none do.
pub fn mend_directory<S: Source, K: Sink>(
    alloc: Global,
    dir: DirId,
    without: Vec<HouseNo>,
    source: &mut S,
    sink: &mut K,
) -> Status
    ensures { Ended (mend_form dir.0 (numbers_of without.items))
        (run_of S.Source K.Sink source.old source.new sink.old sink.new) result }
{
    serve_lines(alloc, Mender::new(alloc, dir, without), source, sink)
}
