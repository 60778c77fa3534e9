// A disk over a file: a disk beside it, as one in memory, says what the file holds and what a crash
// may leave of it. Each call that changes something is made to both. What is read comes from that
// disk, so the file is never read.
//
// No clause sees the file: the clauses speak of the disk beside it. That the file holds the same
// has to be believed of these bodies.
ghost use Rattle.std.specs.Prelude.{◌≡◌, None, IsErrOf};
ghost use Rattle.house_journal.specs.Disks.{HasDiskCause};
ghost use Rattle.house_journal.specs.declared.disk.DiskError.TheVariants as why;
ghost use Rattle.file_disk.specs.FileDisks.{inner_of, failures_of};

use cds_base::Failed;
use house_journal::{Disk, DiskError};
use std::fs::File;
use std::os::unix::fs::FileExt;

/// A file, and a disk that says what it holds.
#[derive(Drop)]
pub struct FileDisk<D: Disk> {
    file: File,
    inner: D,
    faults: u64,
}

impl<D: Disk> FileDisk<D> {
    /// A file that holds what the disk reads as, all of it synced.
    pub fn new(file: File, inner: D) -> Self
        ensures inner { inner_of result ≡ inner }
        ensures faults { failures_of result ≡ 0 }
    {
        FileDisk {
            file,
            inner,
            faults: 0,
        }
    }

    /// What a write or a cut answered, and if it failed, that is counted.
    fn counted(&mut self, answer: Result<(), DiskError>) -> Result<(), DiskError>
        ensures answer { result ≡ answer }
        ensures inner { inner_of self.new ≡ inner_of self.old }
        ensures memory { IsErrOf answer why.OutOfMemory → self.new ≡ self.old }
        ensures cause { HasDiskCause (failures_of self.old) (failures_of self.new) answer }
    {
        if let Err(DiskError::Failed) = answer {
            self.faults = self.faults.saturating_add(1);
        }
        answer
    }
}

impl<D: Disk> Disk for FileDisk<D> {
    ghost reads = { λ f. D.reads (inner_of f) };

    ghost may_leave = { λ f. D.may_leave (inner_of f) };

    ghost moment = { λ f. D.moment (inner_of f) };

    ghost left_since = { λ f. D.left_since (inner_of f) };

    ghost faults = { failures_of };

    ghost told = { λ f. None };

    ghost reads_left = { λ f. D.reads_left (inner_of f) };

    ghost counts_now = { λ f. D.counts_now (inner_of f) };

    ghost only_now = { λ f. D.only_now (inner_of f) };

    fn size(&mut self) -> Result<u64, Failed> {
        match self.inner.size() {
            Ok(size) => Ok(size),
            Err(_) => {
                self.faults = self.faults.saturating_add(1);
                Err(Failed)
            }
        }
    }

    fn read_at(&mut self, at: u64, buf: &mut [u8]) -> Result<(), Failed> {
        match self.inner.read_at(at, buf) {
            Ok(()) => Ok(()),
            Err(_) => {
                self.faults = self.faults.saturating_add(1);
                Err(Failed)
            }
        }
    }

    fn write_at(&mut self, at: u64, piece: &[u8]) -> Result<(), DiskError> {
        let beside = self.inner.write_at(at, piece);
        self.counted(beside)?;
        if self.file.write_all_at(piece, at).is_err() {
            return self.counted(Err(DiskError::Failed));
        }
        Ok(())
    }

    fn cut(&mut self, size: u64) -> Result<(), DiskError> {
        let beside = self.inner.cut(size);
        self.counted(beside)?;
        if self.file.set_len(size).is_err() {
            return self.counted(Err(DiskError::Failed));
        }
        Ok(())
    }

    // The file comes first: if it fails, the disk beside it must not say that it is synced.
    fn sync(&mut self) -> Result<(), Failed> {
        if self.file.sync_all().is_err() {
            self.faults = self.faults.saturating_add(1);
            return Err(Failed);
        }
        match self.inner.sync() {
            Ok(()) => Ok(()),
            Err(_) => {
                self.faults = self.faults.saturating_add(1);
                Err(Failed)
            }
        }
    }
}
