// One line: its reply is made, its record is put, and then its answer is written.
ghost use Rattle.std.specs.Prelude.{◌≡◌, ℕ, List};
ghost use Rattle.std.specs.Option.{option_map};
ghost use Rattle.cds_base.specs.Counts.{HasCause};
ghost use Rattle.house_segments.specs.Segments.{IsAt, disk_of};
ghost use Rattle.house_serving.specs.PrivateParts.{ending_of_put, KeepsRecord, LineServed, StopsAtFault, line_course, line_moment};
ghost use Rattle.house_serving.specs.Serving.{first_records};

use crate::faults::{MOST_LINE, fault_line, shown_fault};
use crate::{Ending, Responder};
use cds_base::{LineFault, Sink, put_all};
use cds_stamps::AllocOr;
use house_journal::{Disk, JournalFault};
use house_segments::Segment;
use std::alloc::Global;

// How a run ends if a record is not put.
fn ending_of(fault: JournalFault) -> Ending
    ensures { result ≡ ending_of_put fault }
{
    match fault {
        JournalFault::Full => Ending::Full,
        JournalFault::DiskFault | JournalFault::Reopen => Ending::DiskFault,
    }
}

// Puts the record of a reply, if it has one.
fn keep<D: Disk>(
    alloc: Global,
    segment: &mut Segment<D>,
    body: &Option<Vec<u8>>,
) -> Result<(), Ending>
    requires ready { (before : List ℕ) × (bodies : List (List ℕ))
        × IsAt D.Disk segment.old before bodies }
    ensures { (before : List ℕ) (bodies : List (List ℕ)) → IsAt D.Disk segment.old before bodies
        → KeepsRecord D.Disk (first_records before bodies) segment.old segment.new
        (option_map (λ v. v.items) body.now) result }
{
    let Some(body) = body else {
        return Ok(());
    };
    match segment.put(alloc, body) {
        Ok(()) => Ok(()),
        Err(AllocOr::Fault(fault)) => Err(ending_of(fault)),
        Err(AllocOr::OutOfMemory) => Err(Ending::OutOfMemory),
    }
}

/// Ends a run at a fault of lines: its line is written. Of a failed read nothing is said.
pub(crate) fn stop_at<K: Sink>(alloc: Global, fault: LineFault, sink: &mut K) -> Ending
    ensures { StopsAtFault (K.written sink.old) (K.written sink.new) (K.faults sink.old)
        (K.faults sink.new) fault result }
{
    if fault == LineFault::ReadFault {
        return Ending::ReadFault;
    }
    let Ok(line) = fault_line(alloc, shown_fault(fault)) else {
        return Ending::OutOfMemory;
    };
    match put_all(sink, &line) {
        Ok(()) => Ending::BadInput,
        Err(_) => Ending::WriteFault,
    }
}

/// Answers one line.
pub(crate) fn answer_line<R: Responder, K: Sink, D: Disk>(
    alloc: Global,
    house: &mut R,
    segment: &mut Segment<D>,
    sink: &mut K,
    number: u32,
    line: &[u8],
) -> Result<(), Ending>
    requires ready { (before : List ℕ) × (bodies : List (List ℕ))
        × IsAt D.Disk segment.old before bodies }
    ensures { (before : List ℕ) (bodies : List (List ℕ)) → IsAt D.Disk segment.old before bodies
        → LineServed R.responds D.Disk (first_records before bodies) (line_course number line.now
        (line_moment house.old segment.old (K.written sink.old) (K.faults sink.old))
        (line_moment house.new segment.new (K.written sink.new) (K.faults sink.new))) result }
{
    if line.len() > MOST_LINE {
        return Err(stop_at(alloc, LineFault::LineTooLong(number, MOST_LINE + 1), sink));
    }
    let Ok(reply) = house.respond(alloc, number, line) else {
        return Err(Ending::OutOfMemory);
    };
    if let Err(ending) = keep(alloc, segment, &reply.record) {
        return Err(ending);
    }
    match put_all(sink, &reply.text) {
        Ok(()) => Ok(()),
        Err(_) => Err(Ending::WriteFault),
    }
}
