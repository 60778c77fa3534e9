// What a process finds in the last segment of its folder: the house that its records say, which
// does them again.
ghost use Rattle.std.specs.Prelude.{◌≡◌, ◌≢◌, ◌⊎◌, true, IfErr, IfOk, OnOk, map, replicate};
ghost use Rattle.house_journal.specs.JournalRecords.{images};
ghost use Rattle.house_program.specs.Beginnings as beginnings;
ghost use Rattle.house_program.specs.Beginnings.{FindsSo, IsLastSegment, begins_otherwise, status_not_read};
ghost use Rattle.house_program.specs.Causes.{CannotGoOn, DoesOther, HasFolderEnd, IsFolderRefused, NoHouseOf};
ghost use Rattle.house_program.specs.Files.{Quiet};
ghost use Rattle.house_program.specs.declared.status.Status.TheVariants as statuses;
ghost use Rattle.house_turns.specs.Openings.{EndsLife, MayEnd, OpensBy, RedoneBy, Resumes, begins_with, new_house};
ghost use Rattle.house_turns.specs.declared.house.House.{House};

use crate::folder::{Folder, LastFile};
use crate::status::Status;
use house_entries::head_octets;
use house_segments::{DIGEST, first_record, last_record};
use house_turns::{House, resume};
use std::alloc::Global;

/// A house as the folder has it: its last segment's number, and the digest of that segment's last
/// record.
#[derive(Drop)]
pub struct FolderHouse {
    pub house: House,
    pub number: u64,
    pub digest: [u8; DIGEST],
}

// What a folder without a segment has.
fn empty_folder(alloc: Global) -> FolderHouse
    ensures house { result.house ≡ new_house }
    ensures number { result.number ≡ 0 }
    ensures digest { result.digest ≡ replicate 32 0 }
{
    FolderHouse {
        house: House::new(alloc),
        number: 0,
        digest: [0; DIGEST],
    }
}

// The body of a record.
fn body_in(record: &[u8]) -> &[u8]
    ensures { result.now ≡ beginnings.body_in record.now }
{
    &record[..record.len().saturating_sub(DIGEST)]
}

// Does again what the records of these octets say.
#[tactic(auto, using(crate::proofs::ReadLemmas::redoing_first, crate::proofs::ReadLemmas::redoing_on, crate::proofs::ReadLemmas::redoing_ends, crate::proofs::CauseLemmas::redoing_why))]
fn redo_all(alloc: Global, house: &mut House, octets: &[u8]) -> Result<(), Status>
    ensures ok { OnOk result
        (RedoneBy house.old (map beginnings.body_in (images octets.now)) house.new) }
    ensures not_ok { IfErr result (λ s. s ≢ statuses.Ok) }
    ensures why { IfErr result (λ s. (s ≡ statuses.OutOfMemory)
        ⊎ ((s ≡ statuses.OtherDeeds) × DoesOther house.old (images octets.now))) }
{
    let mut rest = octets;
    'records: while let Some((record, behind)) = first_record(rest) {
        if !house.redo(alloc, body_in(record))? {
            return Err(Status::OtherDeeds);
        }
        rest = behind;
    }
    Ok(())
}

// The house at the first record of a segment.
#[tactic(auto, using(crate::proofs::CauseLemmas::unresumed))]
fn resumed(alloc: Global, body: &[u8]) -> Result<House, Status>
    ensures ok { IfOk result (Resumes body.now) }
    ensures not_ok { IfErr result (λ s. s ≢ statuses.Ok) }
    ensures why { IfErr result (λ s. (s ≡ statuses.OutOfMemory)
        ⊎ ((s ≡ statuses.BadFolder) × ((h : House) → ¬ Resumes body.now h))) }
{
    match resume(alloc, body)? {
        Some(house) => Ok(house),
        None => Err(Status::BadFolder),
    }
}

// The house after a crash.
fn ended(alloc: Global, house: House) -> Result<House, Status>
    ensures ok { IfOk result (EndsLife house) }
    ensures not_ok { IfErr result (λ s. s ≢ statuses.Ok) }
    ensures why { IfErr result (λ s. (s ≡ statuses.OutOfMemory)
        ⊎ ((s ≡ statuses.BadFolder) × ¬ MayEnd house.home)) }
{
    match house.end(alloc)? {
        Some(house) => Ok(house),
        None => Err(Status::BadFolder),
    }
}

// Whether octets begin with these.
fn begins(octets: &[u8], front: &[u8]) -> bool
    ensures { result ≡ begins_with front.now octets.now }
{
    octets.starts_with(front)
}

// Whether a first record is the head of a segment of another version.
#[tactic(auto, using(crate::proofs::ReadLemmas::other_head))]
fn is_other_head(head: &[u8]) -> bool
    ensures { result ≡ beginnings.is_other_head head.now }
{
    if begins(head, b"cdshouse journal 2 ") {
        false
    } else {
        begins(head, b"cdshouse journal ")
    }
}

// Whether octets begin as a segment of another version.
fn is_other_version(octets: &[u8]) -> bool
    ensures { result ≡ begins_otherwise (images octets.now) }
{
    match first_record(octets) {
        Some((head, _)) => is_other_head(head),
        None => false,
    }
}

// Why octets are no segment.
fn not_read(octets: &[u8]) -> Status
    ensures { result ≡ status_not_read (images octets.now) }
{
    if is_other_version(octets) {
        Status::OtherVersion
    } else {
        Status::BadFolder
    }
}

// The house of the records after the head, which ends and goes on.
#[tactic(auto, using(crate::proofs::ReadLemmas::opens, crate::proofs::CauseLemmas::none_begins))]
fn house_of(alloc: Global, records: &[u8]) -> Result<House, Status>
    ensures ok { IfOk result (OpensBy (map beginnings.body_in (images records.now))) }
    ensures not_ok { IfErr result (λ s. s ≢ statuses.Ok) }
    ensures why { IfErr result (λ s. (s ≡ statuses.OutOfMemory)
        ⊎ NoHouseOf (images records.now) s) }
{
    let Some((first, others)) = first_record(records) else {
        return Err(Status::BadFolder);
    };
    let mut house = resumed(alloc, body_in(first))?;
    redo_all(alloc, &mut house, others)?;
    ended(alloc, house)
}

// What the octets of the last segment have.
#[tactic(auto, using(crate::proofs::CauseLemmas::no_segment, crate::proofs::CauseLemmas::headless))]
fn read_segment(alloc: Global, number: u64, octets: &[u8]) -> Result<FolderHouse, Status>
    ensures ok { IfOk result (IsLastSegment number octets.now) }
    ensures not_ok { IfErr result (λ s. s ≢ statuses.Ok) }
    ensures why { IfErr result (λ s. (s ≡ statuses.OutOfMemory) ⊎ CannotGoOn number octets.now s) }
{
    let title = head_octets(alloc, number, b"")?;
    let Some(last) = last_record(&title, octets) else {
        return Err(not_read(octets));
    };
    let Some((_, records)) = first_record(octets) else {
        return Err(Status::BadFolder);
    };
    let house = house_of(alloc, records)?;
    Ok(FolderHouse {
        house,
        number,
        digest: last.digest,
    })
}

/// What the last segment of the folder has.
pub(crate) fn read_folder<F: Folder>(alloc: Global, folder: &mut F) -> Result<FolderHouse, Status>
    requires { F.locked folder.old ≡ true }
    ensures found { IfOk result (FindsSo (F.kept folder.new)) }
    ensures not_ok { IfErr result (λ s. s ≢ statuses.Ok) }
    ensures why { IfErr result
        (HasFolderEnd (IsFolderRefused (F.kept folder.new)) (F.faults folder.old)
        (F.faults folder.new)) }
    ensures calm { OnOk result (F.faults folder.new ≡ F.faults folder.old) }
    ensures quiet { Quiet F.kept F.left_ever F.named_at folder.old folder.new }
    ensures locked { F.locked folder.new ≡ true }
{
    match folder.last(alloc)? {
        None => Ok(empty_folder(alloc)),
        Some(LastFile { number, octets }) => read_segment(alloc, number, &octets),
    }
}
