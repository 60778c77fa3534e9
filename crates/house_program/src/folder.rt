// The folder of a house: what a crash may leave of its numbered files.
ghost use Rattle.std.specs.Prelude.{◌≡◌, ◌⊎◌, ◌↔◌, ◌<◌, ◌≤◌, ℕ, List, [], Bool, true, IfOk, IsTrue, OnErr, OnOk};
ghost use Rattle.std.specs.Option.{option_map};
ghost use Rattle.house_journal.specs.Disks.{Only};
ghost use Rattle.house_program.specs.declared.folder.FolderFault.TheVariants as why;
ghost use Rattle.house_program.specs.Files.{CountsFile, HasFolderCause, NumberedFile, Quiet, RoseAt, WithFile, file_of, last_file, number_in};
ghost use Rattle.house_program.specs.declared.folder.FolderCounts.{FolderCounts};

use house_journal::Disk;
use std::alloc::{AllocError, Global};
use thiserror::Error;

/// Why a call of a folder was not done.
#[derive(Clone, Copy, Debug, PartialEq, Eq, Error)]
pub enum FolderFault {
    #[error("the folder is not there, or cannot be read")]
    Unreadable,
    #[error("another process has the folder")]
    Taken,
    #[error("a call that writes or syncs failed")]
    Failed,
    #[error("out of memory")]
    OutOfMemory,
}

impl From<AllocError> for FolderFault {
    ghost from_gives = { λ _ f. f ≡ why.OutOfMemory };

    fn from(_error: AllocError) -> FolderFault {
        FolderFault::OutOfMemory
    }
}

/// How many calls of a folder were not done, by their faults; and of how many of its files a call
/// failed.
#[derive(Clone, Copy, Debug, PartialEq, Eq)]
pub struct FolderCounts {
    pub unreadable: u64,
    pub taken: u64,
    pub failed: u64,
    pub files: u64,
}

impl FolderCounts {
    /// Each call was done, and each of each file.
    pub fn none() -> FolderCounts
        ensures { result ≡ record { unreadable = 0; taken = 0; failed = 0; files = 0 } }
    {
        FolderCounts {
            unreadable: 0,
            taken: 0,
            failed: 0,
            files: 0,
        }
    }

    /// Counts a call that was not done. Those that ran out of memory are not counted.
    pub fn count(&mut self, fault: FolderFault)
        ensures { RoseAt fault self.old self.new }
    {
        match fault {
            FolderFault::Unreadable => self.unreadable = self.unreadable.saturating_add(1),
            FolderFault::Taken => self.taken = self.taken.saturating_add(1),
            FolderFault::Failed => self.failed = self.failed.saturating_add(1),
            FolderFault::OutOfMemory => {}
        }
    }

    /// Counts a file that is taken back, if a call of it failed.
    pub fn count_file(&mut self, failed: bool)
        ensures { CountsFile failed self.old self.new }
    {
        if failed {
            self.files = self.files.saturating_add(1);
        }
    }
}

/// The file of the greatest number.
#[derive(Drop)]
pub struct LastFile {
    pub number: u64,
    pub octets: Vec<u8>,
}

/// The folder of a house. In it are files whose names are numbers; one file more, which a process
/// makes, and then gives a number; and a lock.
pub trait Folder {
    /// A file that a process makes and writes.
    type File: Disk + Drop;

    /// What a crash at this moment may leave: the numbered files, but for the one that this process
    /// writes.
    ghost kept: { Self → List NumberedFile → Type 0 };

    /// What a crash at some moment since the process began may have left, but for what it wrote in
    /// a file that is not closed.
    ghost left_ever: { Self → List NumberedFile → Type 0 };

    /// The file that this process writes has this number, which it got at this moment of its own.
    ghost named_at: { Self → (number : ℕ) → (moment : ℕ) → Type 0 };

    /// No other process gets the folder.
    ghost locked: { Self → Bool };

    /// How many of its calls were not done, and of how many of its files a call failed.
    ghost faults: { Self → FolderCounts };

    /// Takes the lock, which is held until the process ends.
    fn lock(&mut self) -> Result<(), FolderFault>
        ensures locked { OnOk result (locked self.new ≡ true) }
        ensures quiet { Quiet kept left_ever named_at self.old self.new }
        ensures cause { HasFolderCause (faults self.old) (faults self.new) result };

    /// The last numbered file, if there is one. After it each crash leaves that file, with these
    /// octets, as the last one.
    fn last(&mut self, alloc: Global) -> Result<Option<LastFile>, FolderFault>
        requires { locked self.old ≡ true }
        ensures last { IfOk result (λ o. (files : List NumberedFile) → kept self.new files
            → last_file files ≡ option_map file_of o) }
        ensures locked { locked self.new ≡ true }
        ensures quiet { Quiet kept left_ever named_at self.old self.new }
        ensures cause { HasFolderCause (faults self.old) (faults self.new) result };

    /// An empty file, which has no number yet.
    fn make(&mut self, alloc: Global) -> Result<Self::File, FolderFault>
        requires { locked self.old ≡ true }
        ensures empty { IfOk result (λ f. Self.File.reads f ≡ []) }
        ensures only { IfOk result (λ f. Only (Self.File.reads f) (Self.File.may_leave f)) }
        ensures fresh { IfOk result (λ f. Self.File.faults f ≡ 0) }
        ensures locked { locked self.new ≡ true }
        ensures quiet { Quiet kept left_ever named_at self.old self.new }
        ensures cause { HasFolderCause (faults self.old) (faults self.new) result };

    /// Gives a file that was made a number, which is greater than those that are there. Until it
    /// answers a crash leaves the number or not.
    fn name(&mut self, alloc: Global, file: &Self::File, number: u64) -> Result<(), FolderFault>
        requires locked { locked self.old ≡ true }
        requires above { (files : List NumberedFile) → kept self.old files
            → number_in (last_file files) < number }
        ensures named { OnOk result (named_at self.new number (Self.File.moment file.now)) }
        ensures others { OnOk result ((files : List NumberedFile) → kept self.new files
            → kept self.old files) }
        ensures one { OnErr result ((files : List NumberedFile) → kept self.new files
            → kept self.old files
            ⊎ WithFile (kept self.old) number (Self.File.may_leave file.now) files) }
        ensures ever { (files : List NumberedFile) → left_ever self.new files
            → left_ever self.old files
            ⊎ WithFile (kept self.old) number (Self.File.may_leave file.now) files }
        ensures locked { locked self.new ≡ true }
        ensures cause { HasFolderCause (faults self.old) (faults self.new) result };

    /// Takes back a file that got no number. `failed` says whether a call of it failed.
    fn take_back(&mut self, file: Self::File, failed: bool)
        requires locked { locked self.old ≡ true }
        requires failed { IsTrue failed ↔ (1 ≤ Self.File.faults file) }
        ensures locked { locked self.new ≡ true }
        ensures quiet { Quiet kept left_ever named_at self.old self.new }
        ensures cause { CountsFile failed (faults self.old) (faults self.new) };

    /// Takes back a file that was given its number, to which nothing more is written. `failed` says
    /// whether a call of it failed.
    fn close(&mut self, number: u64, file: Self::File, failed: bool)
        requires locked { locked self.old ≡ true }
        requires failed { IsTrue failed ↔ (1 ≤ Self.File.faults file) }
        ensures kept { (moment : ℕ) → named_at self.old number moment
            → (files : List NumberedFile) → kept self.new files
            → WithFile (kept self.old) number (Self.File.may_leave file) files }
        ensures ever { (moment : ℕ) → named_at self.old number moment
            → (files : List NumberedFile) → left_ever self.new files → left_ever self.old files
            ⊎ WithFile (kept self.old) number (Self.File.left_since file moment) files }
        ensures locked { locked self.new ≡ true }
        ensures cause { CountsFile failed (faults self.old) (faults self.new) };
}
