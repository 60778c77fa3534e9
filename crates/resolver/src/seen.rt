// What a reader sees of a name, and where a name leads.
ghost use Rattle.std.specs.Prelude.{◌≡◌, IfOk};

use cds_stamps::{DirId, HouseNo, SimpleName};
use cell_names::{ChildPointer, FullName};
use directory::{AttrMap, Kind};
use std::alloc::{AllocError, Global};

/// What is seen of a simple name in a directory: that no house of the directory answers, that the
/// house which was asked shows no entry of this name, or what it shows.
#[derive(Debug, Drop)]
pub enum Seen {
    Unreachable,
    Absent(HouseNo),
    Object(HouseNo),
    Link(HouseNo, FullName),
    Child(HouseNo, ChildPointer),
}

impl Seen {
    /// The same again.
    pub fn copy(&self, alloc: Global) -> Result<Seen, AllocError>
        ensures { IfOk result (λ seen. seen ≡ self.now) }
    {
        match self {
            Seen::Unreachable => Ok(Seen::Unreachable),
            Seen::Absent(house) => Ok(Seen::Absent(*house)),
            Seen::Object(house) => Ok(Seen::Object(*house)),
            Seen::Link(house, target) => Ok(Seen::Link(*house, target.copy(alloc)?)),
            Seen::Child(house, child) => Ok(Seen::Child(*house, child.copy(alloc)?)),
        }
    }
}

/// An entry: its directory, the house that showed it, its simple name and its kind.
#[derive(Debug, PartialEq, Eq, Hash, Drop)]
pub struct Found {
    pub dir: DirId,
    pub house: HouseNo,
    pub name: SimpleName,
    pub kind: Kind,
}

/// An entry, and the cells of its attributes where the reader lends them.
#[derive(Drop)]
pub struct LentEntry<'a> {
    pub at: Found,
    pub cells: Option<&'a AttrMap>,
}

/// Where an entry of a simple name is, or could be: the directory, the house that was asked, and
/// the kind of the entry that it shows, if it shows one.
#[derive(Debug)]
pub struct Place {
    pub dir: DirId,
    pub house: HouseNo,
    pub name: SimpleName,
    pub kind: Option<Kind>,
}

impl Drop for Place {
    fn drop(self) {
        let Place {
            dir: _dir,
            house: _house,
            name: _name,
            kind: _kind,
        } = self;
    }
}
