// How the process ends.
ghost use Rattle.std.specs.Prelude.{◌≡◌};
ghost use Rattle.house_program.specs.Statuses.{code_of, status_after, status_not_begun, status_of_folder, status_without_words};
ghost use Rattle.house_program.specs.declared.status.Status.TheVariants.{OutOfMemory};

use crate::folder::FolderFault;
use cds_base::WordsFault;
use cds_stamps::AllocOr;
use house_journal::JournalFault;
use house_serving::Ending;
use std::alloc::AllocError;

/// How the process ends.
#[derive(Clone, Copy, Debug, PartialEq, Eq)]
pub enum Status {
    /// The input ended.
    Ok,
    /// There is not exactly one word that is not empty.
    Usage,
    BadInput,
    ReadFault,
    WriteFault,
    OutOfMemory,
    /// A segment has no room for a record.
    Full,
    DiskFault,
    /// The folder is not there or cannot be read, or its last segment is none.
    BadFolder,
    /// Another process has the folder.
    Taken,
    /// The last segment is one of another version of this program.
    OtherVersion,
    /// The records of the last segment are whole, and this house does other than they say.
    OtherDeeds,
}

impl Status {
    /// The number that the process ends with.
    pub fn code(self) -> u8
        ensures { result ≡ code_of self }
    {
        match self {
            Status::Ok => 0,
            Status::Usage => 2,
            Status::BadInput => 3,
            Status::ReadFault => 4,
            Status::WriteFault => 5,
            Status::OutOfMemory => 6,
            Status::Full => 7,
            Status::DiskFault => 8,
            Status::BadFolder => 9,
            Status::Taken => 10,
            Status::OtherVersion => 11,
            Status::OtherDeeds => 12,
        }
    }

    /// How the process ends without the words of its command line.
    pub fn without_words(fault: WordsFault) -> Status
        ensures { result ≡ status_without_words fault }
    {
        match fault {
            WordsFault::NoText => Status::Usage,
            WordsFault::OutOfMemory => Status::OutOfMemory,
        }
    }

    /// How the process ends if a segment is not begun.
    pub fn not_begun(fault: AllocOr<JournalFault>) -> Status
        ensures { result ≡ status_not_begun fault }
    {
        match fault {
            AllocOr::Fault(JournalFault::Full) => Status::Full,
            AllocOr::Fault(_) => Status::DiskFault,
            AllocOr::OutOfMemory => Status::OutOfMemory,
        }
    }

    /// How the process ends by the ending of a run; or it goes on, in the next segment.
    pub fn after(ending: Ending) -> Option<Status>
        ensures { result ≡ status_after ending }
    {
        match ending {
            Ending::InputEnds => Some(Status::Ok),
            Ending::BadInput => Some(Status::BadInput),
            Ending::ReadFault => Some(Status::ReadFault),
            Ending::WriteFault => Some(Status::WriteFault),
            Ending::OutOfMemory => Some(Status::OutOfMemory),
            Ending::Full => Some(Status::Full),
            Ending::DiskFault => Some(Status::DiskFault),
            Ending::Grown => None,
        }
    }
}

impl From<FolderFault> for Status {
    ghost from_gives = { λ f s. s ≡ status_of_folder f };

    fn from(fault: FolderFault) -> Status {
        match fault {
            FolderFault::Unreadable => Status::BadFolder,
            FolderFault::Taken => Status::Taken,
            FolderFault::Failed => Status::DiskFault,
            FolderFault::OutOfMemory => Status::OutOfMemory,
        }
    }
}

impl From<AllocError> for Status {
    ghost from_gives = { λ _ e. e ≡ OutOfMemory };

    fn from(_error: AllocError) -> Status {
        Status::OutOfMemory
    }
}
