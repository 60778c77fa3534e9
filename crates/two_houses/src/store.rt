// A disk and the journal that is open on it.
ghost use Rattle.std.specs.Prelude.{◌≡◌, ◌++◌, ◌∷◌, [], OnOk, IfOk};
ghost use Rattle.std.specs.Option.{option_map};
ghost use Rattle.house_journal.specs.JournalRecords.{images, last_image};

use anyhow::{Result, ensure};
use house_journal::{Disk, Journal, MOST_OCTETS};
use std::alloc::Global;
use std::marker::Model;

/// A disk and the journal that is open on it, as the list of its images. A journal is put to the
/// disk that it was opened on and to no other: the two are one value, whose `invariant` says what
/// `Journal::put` requires.
#[derive(Drop)]
pub struct Store<D: Disk> {
    disk: D,
    journal: Journal,
}

impl<D: Disk> Model for Store<D> {
    ghost use Rattle.std.specs.Prelude.{◌≡◌, ℕ, List, false};
    ghost use Rattle.house_journal.specs.Journals.{IsReady};
    ghost use Rattle.house_journal.specs.JournalRecords.{images};

    ghost Value = { List (List ℕ) };

    ghost view = { λ s. images (D.reads s.disk) };

    ghost invariant = { λ s. s.journal.broken ≡ false → IsReady D.Disk s.disk s.journal.place };
}

impl<D: Disk + Drop> Store<D> {
    /// Opens the journal of a disk, and answers its last image. A disk that is too large is
    /// refused: `Journal::open` requires that.
    pub fn open(alloc: Global, mut disk: D) -> Result<(Store<D>, Option<Vec<u8>>)>
        ensures { IfOk result (λ r. option_map (λ v. v.items) r.1 ≡ last_image (D.reads disk)) }
    {
        ensure!(disk.size()? <= MOST_OCTETS, "the journal is too large");
        let (journal, image) = Journal::open(alloc, &mut disk)?;
        Ok((Store { disk, journal }, image))
    }

    /// Puts an image after the others. After an error the journal has to be opened again.
    pub fn put(&mut self, alloc: Global, image: &[u8]) -> Result<()>
        ensures { OnOk result (self.new ≡ self.old ++ image.now ∷ []) }
    {
        self.journal.put(alloc, &mut self.disk, image)?;
        Ok(())
    }

    /// The disk, as a crash leaves it.
    pub fn into_disk(self) -> D
        ensures { images (D.reads result) ≡ self }
    {
        let Store {
            disk,
            journal: _journal,
        } = self;
        disk
    }
}
