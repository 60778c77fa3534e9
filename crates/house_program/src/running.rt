// The process of a house, from its folder's lock to its last line.
ghost use Rattle.std.specs.Prelude.{◌≡◌, ◌⊎◌, ◌+◌, ◌^◌, ◌≤◌, [], true, IfErr, IfOk};
ghost use Rattle.cds_base.specs.RunEnds.{run_of};
ghost use Rattle.house_program.specs.Beginnings.{FindsSo};
ghost use Rattle.house_program.specs.Causes.{HasStatusCause, IsFolderRefused, counts_of};
ghost use Rattle.house_program.specs.HouseFolders.{LeavesHouse};
ghost use Rattle.house_program.specs.Lives.{IsSaidFirst, Lived};
ghost use Rattle.house_program.specs.Statuses.{status_of};
ghost use Rattle.house_program.specs.declared.status.Status.TheVariants as statuses;
ghost use Rattle.house_turns.specs.Openings.{IsSegmentRecord, after_start, start_text};
ghost use Rattle.house_turns.specs.Records.{IsRecord};

use crate::folder::Folder;
use crate::reading::{FolderHouse, read_folder};
use crate::segments::{Left, Next, next_after, serve_on};
use crate::status::Status;
use cds_base::{Lines, Sink, Source};
use house_turns::House;
use std::alloc::Global;

// A house that began, and the segment that it is to make.
#[derive(Drop)]
struct Begun {
    house: House,
    next: Next,
}

// The first segment of a process, in which the house says who it is.
fn first_segment(alloc: Global, found: FolderHouse) -> Result<Begun, Status>
    ensures house { IfOk result (λ b. b.house ≡ after_start found.house found.house.home) }
    ensures number { IfOk result (λ b. b.next.number ≡ found.number + 1) }
    ensures before { IfOk result (λ b. b.next.before ≡ found.digest) }
    ensures first { IfOk result (λ b. IsRecord b.house
        (start_text found.house.home found.house.last) b.next.first.items) }
    ensures said { IfOk result (λ b. IsSaidFirst (after_start found.house found.house.home)
        b.next.said.items) }
    ensures why { IfErr result (λ s. (s ≡ statuses.OutOfMemory)
        ⊎ ((s ≡ statuses.Full) × (2 ^ 64 ≤ found.number + 1))) }
{
    let FolderHouse {
        mut house,
        number,
        digest,
    } = found;
    let first = house.start(alloc)?;
    let said = house.first_words(alloc)?;
    let next = next_after(number, digest, first, said)?;
    Ok(Begun { house, next })
}

// The segment after one that has grown, of which nothing is said first.
fn next_segment(alloc: Global, house: &House, next: &Next, left: Left) -> Result<Next, Status>
    ensures number { IfOk result (λ n. n.number ≡ next.now.number + 1) }
    ensures before { IfOk result (λ n. n.before ≡ left.digest) }
    ensures first { IfOk result (λ n. IsSegmentRecord house.now n.first.items) }
    ensures said { IfOk result (λ n. n.said.items ≡ []) }
    ensures why { IfErr result (λ s. (s ≡ statuses.OutOfMemory)
        ⊎ ((s ≡ statuses.Full) × (2 ^ 64 ≤ next.now.number + 1))) }
{
    let first = house.next_segment(alloc)?;
    next_after(next.number, left.digest, first, Vec::new(alloc))
}

// Answers lines, and changes the segment each time that it has grown.
fn serve_all<F: Folder, S: Source, K: Sink>(
    alloc: Global,
    folder: &mut F,
    found: FolderHouse,
    source: &mut S,
    sink: &mut K,
) -> Result<Status, Status>
    requires locked { F.locked folder.old ≡ true }
    requires found { FindsSo (F.kept folder.old) found }
    ensures lived { Lived (F.kept folder.old) (F.left_ever folder.old) (F.kept folder.new)
        (F.left_ever folder.new) (run_of S.Source K.Sink source.old source.new
        sink.old sink.new) (status_of result) }
    ensures cause { HasStatusCause (λ s. ⊥) (counts_of S.faults K.faults F.faults
        source.old sink.old folder.old) (counts_of S.faults K.faults F.faults source.new sink.new
        folder.new) (status_of result) }
{
    let mut lines = Lines::new(alloc)?;
    let begun = first_segment(alloc, found)?;
    let Begun {
        mut house,
        mut next,
    } = begun;
    'segments: loop {
        let left = serve_on(alloc, folder, &next, &mut house, &mut lines, source, sink)?;
        if let Some(status) = Status::after(left.ending) {
            return Ok(status);
        }
        next = next_segment(alloc, &house, &next, left)?;
    }
}

// The process of the house in this folder.
fn process<F: Folder, S: Source, K: Sink>(
    alloc: Global,
    folder: &mut F,
    source: &mut S,
    sink: &mut K,
) -> Result<Status, Status>
    ensures lived { Lived (F.kept folder.old) (F.left_ever folder.old) (F.kept folder.new)
        (F.left_ever folder.new) (run_of S.Source K.Sink source.old source.new
        sink.old sink.new) (status_of result) }
    ensures cause { HasStatusCause (IsFolderRefused (F.kept folder.new))
        (counts_of S.faults K.faults F.faults
        source.old sink.old folder.old) (counts_of S.faults K.faults F.faults source.new sink.new
        folder.new) (status_of result) }
{
    folder.lock()?;
    let found = read_folder(alloc, folder)?;
    serve_all(alloc, folder, found, source, sink)
}

/// The process of the house in this folder. How it ends.
pub fn run<F: Folder, S: Source, K: Sink>(
    alloc: Global,
    folder: &mut F,
    source: &mut S,
    sink: &mut K,
) -> Status
    ensures lived { Lived (F.kept folder.old) (F.left_ever folder.old) (F.kept folder.new)
        (F.left_ever folder.new) (run_of S.Source K.Sink source.old source.new
        sink.old sink.new) result }
    ensures cause { HasStatusCause (IsFolderRefused (F.kept folder.new))
        (counts_of S.faults K.faults F.faults
        source.old sink.old folder.old) (counts_of S.faults K.faults F.faults source.new sink.new
        folder.new) result }
    ensures house { LeavesHouse (F.kept folder.old) → LeavesHouse (F.left_ever folder.old)
        → LeavesHouse (F.kept folder.new) × LeavesHouse (F.left_ever folder.new) }
{
    match process(alloc, folder, source, sink) {
        Ok(status) | Err(status) => status,
    }
}
