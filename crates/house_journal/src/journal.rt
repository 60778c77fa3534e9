// A journal: how it is opened, and how an image is put into it.
ghost use Rattle.std.specs.Prelude.{◌≡◌, ◌≢◌, ◌⊎◌, ◌↔◌, ◌+◌, ◌^◌, ◌<◌, ◌≤◌, ◌++◌, ◌∷◌, [], ℕ, List};
ghost use Rattle.std.specs.Prelude.{true, false, length, take, Some, Err, IfOk, IfErr, OnOk, IsTrue};
ghost use Rattle.std.specs.Option.{option_map};
ghost use Rattle.cds_stamps.specs.declared.alloc_or.AllocOr.TheVariants.{Fault, OutOfMemory};
ghost use Rattle.house_journal.specs.Disks.{Told};
ghost use Rattle.house_journal.specs.Faults.{IsRefused, IsBreaking, IsOpenFault, HasJournalCause};
ghost use Rattle.house_journal.specs.Faults.{IsUntried, TellsOpen, TellsTried, fault_of};
ghost use Rattle.house_journal.specs.Tellings.{open_calls, put_calls};
ghost use Rattle.house_journal.specs.Journals.{IsCalm, IsKept, IsKeptSince, IsListed, IsReady};
ghost use Rattle.house_journal.specs.Journals.{LeavesOnly, Settles};
ghost use Rattle.house_journal.specs.JournalRecords.{HasImagesOf, IsBeforeOrAfter, IsClean, IsRecordOf};
ghost use Rattle.house_journal.specs.JournalRecords.{gate_of, images, last_image};

use crate::append::{append, record_of};
use crate::settle::settle;
use crate::{Disk, DiskError};
use cds_stamps::AllocOr;
use std::alloc::Global;
use std::marker::Model;
use thiserror::Error;

/// The greatest size of a journal, in octets.
pub const MOST_OCTETS: u64 = 1_099_511_627_776;

// The octets of a record that are none of its image's: its gate, its length, and the closed gate
// after it.
const FRAME: u64 = 10;

/// Why an image is not put, or a journal not opened.
#[derive(Clone, Copy, Debug, PartialEq, Eq, Error)]
pub enum JournalFault {
    #[error("the disk failed")]
    DiskFault,
    #[error("the journal would be too large")]
    Full,
    /// An earlier put failed. Drop the journal and open its disk again: that gives the image of
    /// before that put, or that one.
    #[error("the journal has to be opened again")]
    Reopen,
}

impl From<DiskError> for AllocOr<JournalFault> {
    ghost from_gives = { λ e r. r ≡ fault_of e };

    fn from(error: DiskError) -> AllocOr<JournalFault> {
        match error {
            DiskError::Failed => AllocOr::Fault(JournalFault::DiskFault),
            DiskError::OutOfMemory => AllocOr::OutOfMemory,
        }
    }
}

/// A journal: the place of its closed gate, and whether it has to be opened again.
#[derive(Drop)]
pub struct Journal {
    place: u64,
    broken: bool,
}

impl Model for Journal {
    ghost use Rattle.std.specs.Prelude.{◌<◌, ◌^◌};
    ghost use Rattle.house_journal.specs.Faults.{JournalState};

    ghost Value = { JournalState };

    ghost view = { λ j. record { place = j.place; broken = j.broken } };

    ghost invariant = { λ j. j.place < 2 ^ 40 };
}

impl Journal {
    /// Opens the journal of a disk, in whatever state a crash or a failure left it, and answers the
    /// last image. It syncs and reads; then it cuts off all after the gate that ends the list, and
    /// syncs; and where that gate is not 0, or missing, it writes 0 there, and syncs. From its
    /// first sync on a crash at any moment leaves that image; a second open changes nothing. After
    /// OutOfMemory or a fault of the disk it can be opened again. It requires at most 2^40 octets
    /// (test: `disk.size()? <= MOST_OCTETS`).
    pub fn open<D: Disk>(
        alloc: Global,
        disk: &mut D,
    ) -> Result<(Journal, Option<Vec<u8>>), AllocOr<JournalFault>>
        requires { length (D.reads disk.old) ≤ 2 ^ 40 }
        ensures image { IfOk result (λ r. option_map (λ v. v.items) r.1
            ≡ last_image (D.reads disk.old)) }
        ensures ready { IfOk result (λ r. IsReady D.Disk disk.new r.0.place
            × (r.0.broken ≡ false)) }
        ensures size { OnOk result (length (D.reads disk.new) ≤ 2 ^ 40) }
        ensures rests { OnOk result (D.reads disk.new
            ≡ take (gate_of (D.reads disk.old)) (D.reads disk.old) ++ 0 ∷ []) }
        ensures told { (t : Told) → D.told disk.old ≡ Some t → TellsOpen
            (open_calls (D.reads disk.old)) (D.reads disk.old) t result (D.told disk.new) }
        ensures any_moment { IsClean (D.reads disk.old)
            → Settles D.Disk disk.old disk.new (HasImagesOf (D.reads disk.old)) result }
        ensures kept { IsKept D.Disk disk.old → IsKept D.Disk disk.new }
        ensures kept_since { IsKept D.Disk disk.old → IsKeptSince D.Disk disk.old disk.new }
        ensures open_list { OnOk result (IsListed (D.told disk.new)) }
        ensures faults { IfErr result IsOpenFault }
        ensures cause { HasJournalCause (D.faults disk.old) (D.faults disk.new) result }
        ensures calm { IsCalm (D.told disk.old)
            → (result ≢ Err (Fault JournalFault.DiskFault)) × IsCalm (D.told disk.new) }
    {
        let (place, image) = settle(alloc, disk)?;
        let journal = Journal {
            place,
            broken: false,
        };
        Ok((journal, image))
    }

    /// Whether an image of so many octets has room.
    pub fn has_room(&self, len: usize) -> bool
        ensures { IsTrue result ↔ (self.now.place + len + 10 ≤ 2 ^ 40) }
    {
        let len = len as u64;
        len <= MOST_OCTETS - FRAME && self.place <= MOST_OCTETS - FRAME - len
    }

    /// Puts an image after the others. It requires the disk that the journal was opened on, with
    /// nothing done to it in between: keep the two in one value (`crates/two_houses/src/store.rt`).
    /// A crash at any moment leaves the earlier images, or those and this one; after Ok, these.
    /// Reopen and Full change nothing; after another error the journal answers Reopen until it is
    /// opened again.
    pub fn put<D: Disk>(
        &mut self,
        alloc: Global,
        disk: &mut D,
        image: &[u8],
    ) -> Result<(), AllocOr<JournalFault>>
        requires { self.old.broken ≡ false → IsReady D.Disk disk.old self.old.place }
        ensures reopen { (result ≡ Err (Fault JournalFault.Reopen)) ↔ (self.old.broken ≡ true) }
        ensures full { (result ≡ Err (Fault JournalFault.Full))
            ↔ ((self.old.broken ≡ false) × (2 ^ 40 < self.old.place + length image.now + 10)) }
        ensures refused { IsRefused result → (self.new ≡ self.old) × (disk.new ≡ disk.old) }
        ensures ok { OnOk result (IsReady D.Disk disk.new self.new.place × (self.new.broken ≡ false)
            × (images (D.reads disk.new) ≡ images (D.reads disk.old) ++ image.now ∷ [])) }
        ensures size { OnOk result (length (D.reads disk.new) ≤ 2 ^ 40) }
        ensures broken { IsBreaking result → self.new.broken ≡ true }
        ensures any_moment { self.old.broken ≡ false → LeavesOnly D.Disk disk.old disk.new
            (IsBeforeOrAfter (images (D.reads disk.old)) image.now) }
        ensures told { (t : Told) → D.told disk.old ≡ Some t
            → (IsUntried result × (D.told disk.new ≡ Some t))
            ⊎ ((octets : List ℕ) × IsRecordOf image.now octets
            × TellsTried (put_calls self.old.place octets) (D.reads disk.old) t result
            (D.told disk.new)) }
        ensures kept { IsKept D.Disk disk.old → IsKept D.Disk disk.new }
        ensures kept_since { IsKept D.Disk disk.old → IsKeptSince D.Disk disk.old disk.new }
        ensures cause { HasJournalCause (D.faults disk.old) (D.faults disk.new) result }
        ensures calm { IsCalm (D.told disk.old)
            → (result ≢ Err (Fault JournalFault.DiskFault)) × IsCalm (D.told disk.new) }
    {
        if self.broken {
            return Err(AllocOr::Fault(JournalFault::Reopen));
        }
        if !self.has_room(image.len()) {
            return Err(AllocOr::Fault(JournalFault::Full));
        }
        self.broken = true;
        let octets = record_of(alloc, image)?;
        append(disk, self.place, &octets)?;
        self.place += octets.len() as u64 - 1;
        self.broken = false;
        Ok(())
    }
}
