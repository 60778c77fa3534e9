// The folder of a house in a file system. No clause sees its files: that each call does what its
// trait says of it has to be believed of these bodies.
ghost use Rattle.std.specs.Prelude.{◌≡◌, Some, is_some};
ghost use Rattle.house_program.specs.Files.{HasFolderCause, RoseAt};

use file_disk::{FileDisk, greatest, is_want, path_of, segment_path};
use house_journal::MemDisk;
use house_program::{Folder, FolderCounts, FolderFault, LastFile};
use std::alloc::{AllocError, Global};
use std::fs::{File, OpenOptions, TryLockError};
use std::os::unix::fs::OpenOptionsExt;
use std::{fs, io};

/// A folder of the operating system, which tells nothing of what a crash leaves there.
#[derive(Drop)]
pub struct HostFolder<'a> {
    rt: &'a HostRuntime,
    path: &'a str,
    lock: Option<File>,
    named: Option<u64>,
    faults: FolderCounts,
}

impl<'a> HostFolder<'a> {
    /// The folder of this path. Nothing is done to it yet.
    pub fn new(rt: &'a HostRuntime, path: &'a str) -> HostFolder<'a> {
        HostFolder {
            rt,
            path,
            lock: None,
            named: None,
            faults: FolderCounts::none(),
        }
    }

    // The path of a file.
    fn path_to(&self, name: &str) -> Result<String, AllocError> {
        path_of(self.rt.alloc(), self.path, name)
    }

    // The path of a segment.
    fn segment(&self, number: u64) -> Result<String, AllocError> {
        segment_path(self.rt.alloc(), self.path, number)
    }
}

// A file that its owner can read and write, made if it is not there.
fn opened(rt: &HostRuntime, path: &str, anew: bool) -> io::Result<File> {
    let mut options = OpenOptions::new();
    options.read(true).write(true).create(true).truncate(anew);
    options.mode(0o600);
    options.open(rt, path)
}

// Syncs a file or a folder.
fn synced(rt: &HostRuntime, path: &str) -> io::Result<()> {
    fs::open(rt, path)?.sync_all()
}

// Gives a file its name, if no other has that, and syncs the folder.
fn renamed(rt: &HostRuntime, folder: &str, from: &str, to: &str) -> io::Result<()> {
    if fs::exists(rt, to)? {
        return Err(io::Error::from(io::ErrorKind::AlreadyExists));
    }
    fs::rename(rt, from, to)?;
    synced(rt, folder)
}

impl<'a> HostFolder<'a> {
    // Counts a call that was not done.
    fn not_done(&mut self, fault: FolderFault) -> FolderFault
        ensures fault { result ≡ fault }
        ensures lock { self.new.lock ≡ self.old.lock }
        ensures named { self.new.named ≡ self.old.named }
        ensures count { RoseAt fault self.old.faults self.new.faults }
    {
        self.faults.count(fault);
        fault
    }

    // Syncs a file or the folder: a process may have died between a write and its sync, and then
    // it shows what a crash may still take away.
    fn sync(&mut self, path: &str) -> Result<(), FolderFault>
        ensures lock { self.new.lock ≡ self.old.lock }
        ensures named { self.new.named ≡ self.old.named }
        ensures cause { HasFolderCause self.old.faults self.new.faults result }
    {
        match synced(self.rt, path) {
            Ok(()) => Ok(()),
            Err(error) if is_want(&error) => Err(FolderFault::OutOfMemory),
            Err(_) => Err(self.not_done(FolderFault::Failed)),
        }
    }
}

impl<'a> Folder for HostFolder<'a> {
    type File = FileDisk<MemDisk>;

    ghost kept = { λ f files. ⊥ };

    ghost left_ever = { λ f files. ⊥ };

    ghost named_at = { λ f number moment. f.named ≡ Some number };

    ghost locked = { λ f. is_some f.lock };

    ghost faults = { λ f. f.faults };

    fn lock(&mut self) -> Result<(), FolderFault> {
        let path = self.path_to("lock")?;
        let file = match opened(self.rt, path.as_str(), false) {
            Ok(file) => file,
            Err(error) if is_want(&error) => return Err(FolderFault::OutOfMemory),
            Err(_) => return Err(self.not_done(FolderFault::Unreadable)),
        };
        match file.try_lock() {
            Ok(()) => {
                self.lock = Some(file);
                Ok(())
            }
            Err(TryLockError::WouldBlock) => Err(self.not_done(FolderFault::Taken)),
            Err(_) => Err(self.not_done(FolderFault::Unreadable)),
        }
    }

    fn last(&mut self, _alloc: Global) -> Result<Option<LastFile>, FolderFault> {
        self.sync(self.path)?;
        let number = match greatest(self.rt, self.path) {
            Ok(0) => return Ok(None),
            Ok(number) => number,
            Err(error) if is_want(&error) => return Err(FolderFault::OutOfMemory),
            Err(_) => return Err(self.not_done(FolderFault::Unreadable)),
        };
        let path = self.segment(number)?;
        self.sync(path.as_str())?;
        match fs::read(self.rt, path.as_str()) {
            Ok(octets) => Ok(Some(LastFile { number, octets })),
            Err(error) if is_want(&error) => Err(FolderFault::OutOfMemory),
            Err(_) => Err(self.not_done(FolderFault::Unreadable)),
        }
    }

    fn make(&mut self, alloc: Global) -> Result<FileDisk<MemDisk>, FolderFault> {
        let path = self.path_to("new")?;
        match opened(self.rt, path.as_str(), true) {
            Ok(file) => Ok(FileDisk::new(file, MemDisk::new(alloc))),
            Err(error) if is_want(&error) => Err(FolderFault::OutOfMemory),
            Err(_) => Err(self.not_done(FolderFault::Failed)),
        }
    }

    fn name(
        &mut self,
        _alloc: Global,
        _file: &FileDisk<MemDisk>,
        number: u64,
    ) -> Result<(), FolderFault> {
        let from = self.path_to("new")?;
        let to = self.segment(number)?;
        match renamed(self.rt, self.path, from.as_str(), to.as_str()) {
            Ok(()) => {
                self.named = Some(number);
                Ok(())
            }
            Err(error) if is_want(&error) => Err(FolderFault::OutOfMemory),
            Err(_) => Err(self.not_done(FolderFault::Failed)),
        }
    }

    fn take_back(&mut self, _file: FileDisk<MemDisk>, failed: bool) {
        self.faults.count_file(failed);
    }

    fn close(&mut self, _number: u64, _file: FileDisk<MemDisk>, failed: bool) {
        self.faults.count_file(failed);
        self.named = None;
    }
}
