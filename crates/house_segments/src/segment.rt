// A journal on a disk that was empty, with a head and a first record.
ghost use Rattle.std.specs.Prelude.{◌≡◌, ◌≢◌, ◌+◌, ◌^◌, ◌<◌, ◌≤◌, ◌++◌, ◌∷◌, [], ℕ, List, true, false, length, Err, IfErr, IfOk, OnOk, IsTrue};
ghost use Rattle.cds_stamps.specs.declared.alloc_or.AllocOr.TheVariants.{Fault, OutOfMemory};
ghost use Rattle.house_journal.specs.Disks.{Only};
ghost use Rattle.house_journal.specs.Faults.{HasJournalCause};
ghost use Rattle.house_journal.specs.JournalRecords.{images};
ghost use Rattle.house_journal.specs.Journals.{IsReady, LeavesOnly};
ghost use Rattle.house_segments.specs.Chains.{last_digest};
ghost use Rattle.house_segments.specs.Segments.{HasFaultCause, IsAt, IsWithOrWithout, disk_of, place_of, size_of, size_with};

use crate::chain::{digest_of, octets_of};
use cds_stamps::AllocOr;
use house_journal::{Disk, Journal, JournalFault};
use std::alloc::Global;

/// A journal, its disk, and the digest of its last record.
#[derive(Drop)]
pub struct Segment<D: Disk> {
    journal: Journal,
    disk: D,
    digest: [u8; 32],
    size: u64,
}

/// A segment that is not begun: its disk, and why.
#[derive(Drop)]
pub struct NotBegun<D: Disk> {
    pub disk: D,
    pub fault: AllocOr<JournalFault>,
}

// The journal of a disk, whose last record is not asked for.
fn opened<D: Disk>(alloc: Global, disk: &mut D) -> Result<Journal, AllocOr<JournalFault>>
    requires { D.reads disk.old ≡ [] }
    ensures ready { IfOk result (λ j. IsReady D.Disk disk.new j.place × (j.broken ≡ false)) }
    ensures none { OnOk result (images (D.reads disk.new) ≡ []) }
    ensures calm { OnOk result (D.faults disk.new ≡ D.faults disk.old) }
    ensures cause { IfErr result (HasFaultCause (D.faults disk.old) (D.faults disk.new)) }
    ensures not_full { result ≢ Err (Fault JournalFault.Full) }
{
    let (journal, _image) = Journal::open(alloc, disk)?;
    Ok(journal)
}

impl<D: Disk> Segment<D> {
    /// A journal of two records, with a head and a first body, on a disk that is empty. Nobody
    /// needs to know of it before it is whole.
    pub fn begin(
        alloc: Global,
        mut disk: D,
        before: [u8; 32],
        head: &[u8],
        first: &[u8],
    ) -> Result<Segment<D>, NotBegun<D>>
    where
        D: Drop,
        requires empty { D.reads disk ≡ [] }
        requires only { Only (D.reads disk) (D.may_leave disk) }
        ensures ok { IfOk result (λ s. IsAt D.Disk s before (head.now ∷ first.now ∷ [])) }
        ensures calm { IfOk result (λ s. D.faults (disk_of s) ≡ D.faults disk) }
        ensures cause { IfErr result
            (λ n. HasFaultCause (D.faults disk) (D.faults n.disk) n.fault) }
        ensures full { IfErr result (λ n. n.fault ≡ Fault JournalFault.Full
            → 2 ^ 40 < size_with (head.now ∷ first.now ∷ [])) }
    {
        let journal = match opened(alloc, &mut disk) {
            Ok(journal) => journal,
            Err(fault) => return Err(NotBegun { disk, fault }),
        };
        let mut segment = Segment {
            journal,
            disk,
            digest: before,
            size: 0,
        };
        match segment.put_two(alloc, head, first) {
            Ok(()) => Ok(segment),
            Err(fault) => Err(NotBegun {
                disk: segment.into_disk(),
                fault,
            }),
        }
    }

    // Two records more.
    fn put_two(
        &mut self,
        alloc: Global,
        first: &[u8],
        second: &[u8],
    ) -> Result<(), AllocOr<JournalFault>>
        requires ready { (before : List ℕ) × (bodies : List (List ℕ))
            × IsAt D.Disk self.old before bodies }
        ensures ok { (before : List ℕ) (bodies : List (List ℕ)) → IsAt D.Disk self.old before bodies
            → OnOk result (IsAt D.Disk self.new before (bodies ++ first.now ∷ second.now ∷ [])) }
        ensures calm { OnOk result
            (D.faults (disk_of self.new) ≡ D.faults (disk_of self.old)) }
        ensures cause { IfErr result (HasFaultCause (D.faults (disk_of self.old))
            (D.faults (disk_of self.new))) }
        ensures full { result ≡ Err (Fault JournalFault.Full)
            → (before : List ℕ) (bodies : List (List ℕ)) → IsAt D.Disk self.old before bodies
            → 2 ^ 40 < size_with (bodies ++ first.now ∷ second.now ∷ []) }
    {
        self.put(alloc, first)?;
        self.put(alloc, second)
    }

    /// One record more. Once it answers Ok, each crash leaves it; a crash before leaves the others,
    /// or those and this one.
    pub fn put(&mut self, alloc: Global, body: &[u8]) -> Result<(), AllocOr<JournalFault>>
        requires ready { (before : List ℕ) × (bodies : List (List ℕ))
            × IsAt D.Disk self.old before bodies }
        ensures ok { (before : List ℕ) (bodies : List (List ℕ)) → IsAt D.Disk self.old before bodies
            → OnOk result (IsAt D.Disk self.new before (bodies ++ body.now ∷ [])) }
        ensures any_moment { (before : List ℕ) (bodies : List (List ℕ))
            → IsAt D.Disk self.old before bodies
            → LeavesOnly D.Disk (disk_of self.old) (disk_of self.new)
            (IsWithOrWithout before bodies body.now) }
        ensures open { result ≢ Err (Fault JournalFault.Reopen) }
        ensures full { (result ≡ Err (Fault JournalFault.Full))
            → (2 ^ 40 < place_of self.old + length body.now + 42) × (self.new ≡ self.old) }
        ensures large { (result ≡ Err (Fault JournalFault.Full))
            → (before : List ℕ) (bodies : List (List ℕ)) → IsAt D.Disk self.old before bodies
            → 2 ^ 40 < size_with (bodies ++ body.now ∷ []) }
        ensures cause { HasJournalCause (D.faults (disk_of self.old))
            (D.faults (disk_of self.new)) result }
    {
        let digest = digest_of(&self.digest, body);
        let record = octets_of(alloc, body, &digest)?;
        self.journal.put(alloc, &mut self.disk, &record)?;
        self.digest = digest;
        self.size = self.size.saturating_add(record.len() as u64);
        Ok(())
    }

    /// How many octets its records have.
    pub fn size(&self) -> u64
        ensures { result ≡ size_of self.now }
    {
        self.size
    }

    /// The digest of its last record.
    pub fn digest(&self) -> [u8; 32]
        ensures { (before : List ℕ) (bodies : List (List ℕ)) → IsAt D.Disk self.now before bodies
            → result ≡ last_digest before bodies }
    {
        self.digest
    }

    /// Its disk.
    pub fn disk(&self) -> &D
        ensures { result.now ≡ disk_of self.now }
    {
        &self.disk
    }

    /// Gives its disk back.
    pub fn into_disk(self) -> D
        ensures { result ≡ disk_of self }
    {
        let Segment {
            disk,
            journal: _journal,
            ..
        } = self;
        disk
    }
}
