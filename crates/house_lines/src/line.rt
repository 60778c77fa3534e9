// What a line of a house says.
use crate::given::GivenMembers;
use cds_stamps::{AttrName, DirId, EpochNo, HouseNo, Node, SimpleName};
use cell_script::{HouseNos, Listeds, Octets};
use directory::Update;

/// The members of an epoch as a line lists them, and the houses that are members no more.
#[derive(Drop)]
pub struct EpochList {
    pub members: GivenMembers,
    pub leaving: HouseNos,
}

/// What a line asks a house, which changes nothing. Its fields are in the order of its words.
#[derive(Drop)]
pub enum HouseQuestion {
    /// All that the house holds of a directory.
    Dump(DirId),
    /// The values that show of an attribute.
    Look(DirId, SimpleName, AttrName),
    /// What shows of a name; true is `high`, which the master alone answers.
    Show(bool, DirId, SimpleName),
    /// How a directory is, without its entries.
    Status(DirId),
    /// The directories that the house holds, or has left.
    Directories,
    /// The octets of the house's image.
    Image,
}

/// What a house does by itself in a turn. Its fields are in the order of the words of its line.
#[derive(Drop)]
pub enum HouseOrder {
    Root(Listeds),
    /// A child of a directory, and the number of its own directory.
    Mkdir(DirId, SimpleName, DirId, Listeds),
    /// Where a child leads: the master of its directory, and further houses.
    Repoint(DirId, SimpleName, HouseNo, HouseNos),
    /// Makes or changes an entry of a directory: never a child.
    Update(DirId, Update),
    Skulk(DirId),
    Epoch(DirId, EpochNo, EpochList),
    Take(Octets),
}

/// What a line of a house says. Its fields are in the order of its words.
#[derive(Drop)]
pub enum HouseLine {
    House(HouseNo, Node),
    Clock(u64),
    /// Octets in front of those of the next message.
    More(Octets),
    Ask(HouseQuestion),
    Order(HouseOrder),
}
