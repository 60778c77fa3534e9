// The next segment that a process writes.
ghost use Rattle.std.specs.Prelude.{◌≡◌, ◌+◌, ◌^◌, ◌<◌, ◌≤◌, ℕ, List, [], None, true, IfErr, IfOk};
ghost use Rattle.cds_base.specs.Lines.{fault_of_lines};
ghost use Rattle.house_journal.specs.Disks.{Only};
ghost use Rattle.cds_stamps.specs.declared.alloc_or.AllocOr.TheVariants.{Fault};
ghost use Rattle.house_segments.specs.Segments.{HasFaultCause, IsAt, disk_of, size_with};
ghost use Rattle.house_serving.specs.Serving.{course, first_records, moment};
ghost use Rattle.house_serving.specs.Ending.{HasEndingCause, failures};
ghost use Rattle.cds_base.specs.RunEnds.{run_of};
ghost use Rattle.house_program.specs.Beginnings.{first_bodies};
ghost use Rattle.house_program.specs.Causes.{HasSegmentCause, counts_of};
ghost use Rattle.house_program.specs.Files.{CountsFile, NumberedFile, Quiet, last_file, number_in};
ghost use Rattle.house_program.specs.Statuses.{ends_by_disk, is_disk_fault, status_not_begun};
ghost use Rattle.house_program.specs.declared.status.Status.TheVariants as statuses;
ghost use Rattle.house_program.specs.PrivateLives.{SegmentDone, Spoken, passage, remains};

use crate::folder::Folder;
use crate::status::Status;
use cds_base::{Lines, Sink, Source, put_all};
use cds_stamps::AllocOr;
use house_entries::head_octets;
use house_journal::{Disk, JournalFault};
use house_segments::{DIGEST, NotBegun, Segment};
use house_serving::{Ending, serve};
use house_turns::House;
use std::alloc::Global;

// A segment is changed for the next one once it has so many octets, and three times as many as it
// began with.
pub(crate) const MOST_SEGMENT: u64 = 4_194_304;

/// A segment that is to be made: its number, the digest before it, its first record, and what the
/// house says once it has its number.
#[derive(Drop)]
pub struct Next {
    pub number: u64,
    pub before: [u8; DIGEST],
    pub first: Vec<u8>,
    pub said: Vec<u8>,
}

/// The segment after the one of this number.
pub(crate) fn next_after(
    number: u64,
    before: [u8; DIGEST],
    first: Vec<u8>,
    said: Vec<u8>,
) -> Result<Next, Status>
    ensures number { IfOk result (λ n. n.number ≡ number + 1) }
    ensures before { IfOk result (λ n. n.before ≡ before) }
    ensures first { IfOk result (λ n. n.first.items ≡ first.items) }
    ensures said { IfOk result (λ n. n.said.items ≡ said.items) }
    ensures full { IfErr result (λ s. (s ≡ statuses.Full) × (2 ^ 64 ≤ number + 1)) }
{
    Ok(Next {
        number: number.checked_add(1).ok_or(Status::Full)?,
        before,
        first,
        said,
    })
}

// Makes the next segment on a disk that is empty: its head, and its first record.
fn begin<D: Disk + Drop>(alloc: Global, disk: D, next: &Next) -> Result<Segment<D>, NotBegun<D>>
    requires empty { D.Disk.reads disk ≡ [] }
    requires only { Only (D.Disk.reads disk) (D.Disk.may_leave disk) }
    ensures ok { IfOk result (λ s. IsAt D.Disk s next.now.before
        (first_bodies next.now)) }
    ensures calm { IfOk result (λ s. D.Disk.faults (disk_of s) ≡ D.Disk.faults disk) }
    ensures cause { IfErr result (λ n. HasFaultCause (D.Disk.faults disk)
        (D.Disk.faults n.disk) n.fault) }
    ensures full { IfErr result (λ n. n.fault ≡ Fault JournalFault.Full
        → 2 ^ 40 < size_with (first_bodies next.now)) }
{
    let Ok(head) = head_octets(alloc, next.number, &next.before) else {
        return Err(NotBegun {
            disk,
            fault: AllocOr::OutOfMemory,
        });
    };
    Segment::begin(alloc, disk, next.before, &head, &next.first)
}

// Whether a fault is one of the disk.
fn is_of_disk(fault: AllocOr<JournalFault>) -> bool
    ensures { result ≡ is_disk_fault fault }
{
    match fault {
        AllocOr::Fault(JournalFault::DiskFault) => true,
        AllocOr::Fault(_) | AllocOr::OutOfMemory => false,
    }
}

// Takes back the file of a segment that is not begun. How the process ends.
fn not_begun<F: Folder>(folder: &mut F, segment: NotBegun<F::File>) -> Status
    requires locked { F.locked folder.old ≡ true }
    requires cause { HasFaultCause 0 (F.File.faults segment.disk) segment.fault }
    ensures status { result ≡ status_not_begun segment.fault }
    ensures locked { F.locked folder.new ≡ true }
    ensures quiet { Quiet F.kept F.left_ever F.named_at folder.old folder.new }
    ensures cause { CountsFile (is_disk_fault segment.fault) (F.faults folder.old)
        (F.faults folder.new) }
{
    let NotBegun { disk, fault } = segment;
    folder.take_back(disk, is_of_disk(fault));
    Status::not_begun(fault)
}

// Whether a run ended since a call of the disk failed.
fn is_failed(ending: Ending) -> bool
    ensures { result ≡ ends_by_disk ending }
{
    match ending {
        Ending::DiskFault => true,
        _ => false,
    }
}

/// How a segment was left: why, and the digest of its last record.
#[derive(Clone, Copy)]
pub struct Left {
    pub ending: Ending,
    pub digest: [u8; DIGEST],
}

// Says what is said first, and answers lines until the segment has grown or the run ends.
fn speak_and_serve<S: Source, K: Sink, D: Disk>(
    alloc: Global,
    said: &[u8],
    house: &mut House,
    segment: &mut Segment<D>,
    lines: &mut Lines,
    source: &mut S,
    sink: &mut K,
) -> Ending
    requires ready { (before : List ℕ) × (bodies : List (List ℕ))
        × IsAt D.Disk segment.old before bodies }
    requires unbroken { fault_of_lines lines.old ≡ None }
    ensures spoken { (before : List ℕ) (bodies : List (List ℕ))
        → IsAt D.Disk segment.old before bodies
        → Spoken D.Disk (first_records before bodies) said.now (course
        (moment house.old segment.old lines.old) (moment house.new segment.new lines.new)
        (run_of S.Source K.Sink source.old source.new sink.old sink.new)) result }
    ensures cause { HasEndingCause
        (failures (S.faults source.old) (K.faults sink.old) (D.Disk.faults (disk_of segment.old)))
        (failures (S.faults source.new) (K.faults sink.new) (D.Disk.faults (disk_of segment.new)))
        result }
{
    match put_all(sink, said) {
        Ok(()) => {
            let most = segment.size().saturating_mul(3).max(MOST_SEGMENT);
            serve(alloc, house, segment, most, lines, source, sink)
        }
        Err(_) => Ending::WriteFault,
    }
}

/// Makes a segment, gives it its number, and answers lines until it has grown or the run ends.
pub(crate) fn serve_on<F: Folder, S: Source, K: Sink>(
    alloc: Global,
    folder: &mut F,
    next: &Next,
    house: &mut House,
    lines: &mut Lines,
    source: &mut S,
    sink: &mut K,
) -> Result<Left, Status>
    requires locked { F.locked folder.old ≡ true }
    requires above { (files : List NumberedFile) → F.kept folder.old files
        → number_in (last_file files) < next.now.number }
    requires unbroken { fault_of_lines lines.old ≡ None }
    ensures done { SegmentDone (remains (F.kept folder.old) (F.left_ever folder.old))
        (remains (F.kept folder.new) (F.left_ever folder.new)) next.now
        (passage house.old house.new lines.old lines.new
        (run_of S.Source K.Sink source.old source.new sink.old sink.new)) result }
    ensures locked { F.locked folder.new ≡ true }
    ensures cause { HasSegmentCause (counts_of S.faults K.faults F.faults source.old sink.old
        folder.old) (counts_of S.faults K.faults F.faults source.new sink.new folder.new) result }
{
    let file = folder.make(alloc)?;
    let mut segment = match begin(alloc, file, next) {
        Ok(segment) => segment,
        Err(segment) => return Err(not_begun(folder, segment)),
    };
    folder.name(alloc, segment.disk(), next.number)?;
    let ending = speak_and_serve(alloc, &next.said, house, &mut segment, lines, source, sink);
    let digest = segment.digest();
    folder.close(next.number, segment.into_disk(), is_failed(ending));
    Ok(Left { ending, digest })
}
