// A folder in memory, in which processes die.
ghost use Rattle.std.specs.Prelude.{◌≡◌, Some};

use crate::folder::{Folder, FolderCounts, FolderFault, LastFile};
use house_journal::{Disk, Leave, MemDisk};
use std::alloc::{AllocError, Global};

/// The call of the file that a process writes at which it dies, from 1 on, and what the crash
/// leaves.
#[derive(Clone, Copy)]
pub struct Death {
    pub call: u64,
    pub leave: Leave,
}

/// A folder in memory. It tells nothing of what a crash leaves.
#[derive(Drop)]
pub struct MemFolder {
    alloc: Global,
    last: Option<LastFile>,
    death: Option<Death>,
    locked: bool,
    named: Option<u64>,
    faults: FolderCounts,
}

// The octets of a disk, or none.
fn octets_of(alloc: Global, disk: &mut MemDisk) -> Option<Vec<u8>> {
    let size = disk.size().ok()?;
    let mut octets = vec![in alloc; 0_u8; size as usize].ok()?;
    disk.read_at(0, &mut octets).ok()?;
    Some(octets)
}

impl MemFolder {
    /// A folder without a file.
    pub fn new(alloc: Global) -> MemFolder {
        MemFolder {
            alloc,
            last: None,
            death: None,
            locked: false,
            named: None,
            faults: FolderCounts::none(),
        }
    }

    /// Another process can have the folder. It dies so, if it has to.
    pub fn free(&mut self, death: Option<Death>) {
        self.locked = false;
        self.named = None;
        self.death = death;
    }

    /// Another folder with the same last file.
    pub fn copy(&self) -> Result<MemFolder, AllocError> {
        let mut folder = MemFolder::new(self.alloc);
        folder.last = match &self.last {
            Some(file) => Some(LastFile {
                number: file.number,
                octets: Vec::from_slice(self.alloc, &file.octets)?,
            }),
            None => None,
        };
        Ok(folder)
    }
}

impl Folder for MemFolder {
    type File = MemDisk;

    ghost kept = { λ f files. ⊥ };

    ghost left_ever = { λ f files. ⊥ };

    ghost named_at = { λ f number moment. f.named ≡ Some number };

    ghost locked = { λ f. f.locked };

    ghost faults = { λ f. f.faults };

    fn lock(&mut self) -> Result<(), FolderFault> {
        if self.locked {
            self.faults.count(FolderFault::Taken);
            return Err(FolderFault::Taken);
        }
        self.locked = true;
        Ok(())
    }

    fn last(&mut self, alloc: Global) -> Result<Option<LastFile>, FolderFault> {
        match &self.last {
            None => Ok(None),
            Some(file) => Ok(Some(LastFile {
                number: file.number,
                octets: Vec::from_slice(alloc, &file.octets)?,
            })),
        }
    }

    fn make(&mut self, alloc: Global) -> Result<MemDisk, FolderFault> {
        let mut disk = MemDisk::new(alloc);
        if let Some(Death { call, leave }) = self.death {
            disk.stop(call.max(1), leave);
        }
        Ok(disk)
    }

    fn name(&mut self, _alloc: Global, _file: &MemDisk, number: u64) -> Result<(), FolderFault> {
        self.named = Some(number);
        Ok(())
    }

    fn take_back(&mut self, _file: MemDisk, failed: bool) {
        self.faults.count_file(failed);
    }

    fn close(&mut self, number: u64, mut file: MemDisk, failed: bool) {
        self.faults.count_file(failed);
        self.named = None;
        if file.restart().is_err() {
            return;
        }
        if let Some(octets) = octets_of(self.alloc, &mut file) {
            self.last = Some(LastFile { number, octets });
        }
    }
}
