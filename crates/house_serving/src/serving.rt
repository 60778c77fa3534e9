// The run of a house, line by line.
ghost use Rattle.std.specs.Prelude.{◌≡◌, ◌⊎◌, ◌<◌, ◌≤◌, ℕ, List, None};
ghost use Rattle.cds_base.specs.Lines.{fault_of_lines};
ghost use Rattle.house_segments.specs.Segments.{IsAt, size_of};
ghost use Rattle.cds_base.specs.RunEnds.{run_of};
ghost use Rattle.house_serving.specs.Serving.{Served, course, first_records, moment};
ghost use Rattle.house_serving.specs.declared.ending.Ending.TheVariants.{Grown, InputEnds};

use crate::answering::{answer_line, stop_at};
use crate::{Ending, Responder};
use cds_base::{Lines, Sink, Source};
use house_journal::Disk;
use house_segments::Segment;
use std::alloc::Global;

/// Answers the lines of the source up to the end of the input, the first fault, or the first line
/// after which the segment has this size. A line's record is durable before anything of its answer
/// is written.
pub fn serve<R: Responder, S: Source, K: Sink, D: Disk>(
    alloc: Global,
    house: &mut R,
    segment: &mut Segment<D>,
    most: u64,
    lines: &mut Lines,
    source: &mut S,
    sink: &mut K,
) -> Ending
    requires ready { (before : List ℕ) × (bodies : List (List ℕ))
        × IsAt D.Disk segment.old before bodies }
    requires unbroken { fault_of_lines lines.old ≡ None }
    ensures served { (before : List ℕ) (bodies : List (List ℕ))
        → IsAt D.Disk segment.old before bodies
        → Served R.responds D.Disk (first_records before bodies) (course
        (moment house.old segment.old lines.old) (moment house.new segment.new lines.new)
        (run_of S.Source K.Sink source.old source.new sink.old sink.new)) result }
    ensures grown { result ≡ Grown → most ≤ size_of segment.new }
    ensures small { result ≡ InputEnds
        → (segment.new ≡ segment.old) ⊎ (size_of segment.new < most) }
{
    'lines: loop {
        match lines.next(source) {
            Ok(Some(line)) => {
                match answer_line(alloc, house, segment, sink, line.number, line.octets) {
                    Ok(()) => {}
                    Err(ending) => return ending,
                }
            }
            Ok(None) => return Ending::InputEnds,
            Err(fault) => return stop_at(alloc, fault, sink),
        }
        if segment.size() >= most {
            return Ending::Grown;
        }
    }
}
