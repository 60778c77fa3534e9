// What a house keeps over a crash.
ghost use Rattle.std.specs.Prelude.{◌≡◌, IfOk, OnOk, OnErr, option_copied};
ghost use Rattle.std.specs.FinMap as map;

use cds_stamps::{DirId, EpochNo, HouseNo, Members, Node};
use purge_rule::Replica;
use std::alloc::{AllocError, Global};
use std::collections::BTreeMap;
use std::collections::btree_map::{IntoIter, Iter};
use std::marker::Model;

/// What a house keeps over a crash: who it is, its floor, and its directories.
#[derive(Drop)]
pub struct Image {
    pub house: HouseNo,
    pub node: Node,
    pub floor: u64,
    pub dirs: ImageDirs,
}

/// What a house keeps of a directory.
#[derive(Drop)]
pub enum ImageDir {
    /// It is a member in this epoch.
    Held(EpochNo, Members, Replica),
    /// It has left the directory in this epoch.
    Gone(EpochNo),
}

/// The directories of a house, in ascending order of their numbers.
pub struct ImageDirs {
    dirs: BTreeMap<DirId, ImageDir>,
}

impl Drop for ImageDirs {
    fn drop(self) {
        let ImageDirs { dirs: _dirs } = self;
    }
}

impl Model for ImageDirs {
    ghost use Rattle.std.specs.FinMap as map;
    ghost use Rattle.cds_messages.specs.Dirs.{dir_cmp};
    ghost use Rattle.cds_messages.specs.PrivateDirCodes.{dir_code, image_dir_code};
    ghost use Rattle.cds_messages.specs.declared.image.ImageDir.{ImageDir};

    ghost Value = { map.FinMap dir_cmp ImageDir };

    ghost coded = { map.code dir_code image_dir_code };

    ghost view = { λ m. map.from_entries m.dirs.entries };
}

impl ImageDirs {
    /// No directory. Takes no memory.
    pub fn new(alloc: Global) -> Self
        ensures { result ≡ map.empty }
    {
        ImageDirs {
            dirs: BTreeMap::new(alloc),
        }
    }

    /// How many directories there are.
    pub fn len(&self) -> usize
        ensures { result ≡ map.len self.now }
    {
        self.dirs.len()
    }

    /// The directories, ascending.
    pub fn iter(&self) -> Iter<'_, DirId, ImageDir>
        ensures { result ≡ map.entries self.now }
    {
        self.dirs.iter()
    }

    /// The directories with what is kept of them, ascending, given away.
    pub fn into_entries(self) -> IntoIter<DirId, ImageDir, Global>
        ensures { result ≡ map.entries self }
    {
        let ImageDirs { dirs } = self;
        dirs.into_iter()
    }

    /// What is kept of a directory.
    pub fn get(&self, dir: &DirId) -> Option<&ImageDir>
        ensures { option_copied result ≡ map.get self.now dir.now }
    {
        self.dirs.get(dir)
    }

    /// Keeps this of a directory. What was kept of it.
    pub fn insert(&mut self, dir: DirId, kept: ImageDir) -> Result<Option<ImageDir>, AllocError>
        ensures before { IfOk result (λ before. before ≡ map.get self.old dir) }
        ensures ok { OnOk result (self.new ≡ map.insert self.old dir kept) }
        ensures err { OnErr result (self.new ≡ self.old) }
    {
        Ok(self.dirs.insert(dir, kept)?)
    }

    /// The same of the same directories.
    pub fn copy(&self, alloc: Global) -> Result<ImageDirs, AllocError>
        ensures { IfOk result (λ d. d ≡ self.now) }
    {
        let mut copy = ImageDirs::new(alloc);
        for (dir, kept) in self.iter() {
            copy.insert(*dir, kept.copy(alloc)?)?;
        }
        Ok(copy)
    }
}

impl ImageDir {
    /// The same, kept again.
    pub fn copy(&self, alloc: Global) -> Result<ImageDir, AllocError>
        ensures { IfOk result (λ d. d ≡ self.now) }
    {
        match self {
            ImageDir::Held(epoch, members, replica) => {
                let members = members.copy(alloc)?;
                Ok(ImageDir::Held(*epoch, members, replica.copy(alloc)?))
            }
            ImageDir::Gone(epoch) => Ok(ImageDir::Gone(*epoch)),
        }
    }
}
