// The numbers of houses, directories and epochs. They are plain numbers: each caller that reads one
// keeps its range.

/// The number of a house, which is a clearinghouse of the cell. Scripts name houses 1 to 255; where
/// octets are read, any number is taken.
#[derive(Clone, Copy, Debug, PartialEq, Eq, PartialOrd, Ord, Hash)]
pub struct HouseNo(pub u8);

/// The number of a directory. The console gives 1 to the root and then 2, 3 and so on; where octets
/// are read, any number is taken.
#[derive(Clone, Copy, Debug, PartialEq, Eq, PartialOrd, Ord, Hash)]
pub struct DirId(pub u32);

impl DirId {
    /// The root directory of the cell.
    pub const ROOT: DirId = DirId(1);
}

/// The number of an epoch of a directory's replica set. The console gives 1, 2, 3 and so on; where
/// octets are read, any number is taken.
#[derive(Clone, Copy, Debug, PartialEq, Eq, PartialOrd, Ord, Hash)]
pub struct EpochNo(pub u64);
