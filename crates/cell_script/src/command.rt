// The commands of a script.
use crate::lists::{HouseNos, Listeds, Note, Octets, StringBindings, Uuids};
use cds_stamps::{AttrName, DirId, HouseNo, Node, SimpleName};
use cell_names::FullName;
use directory::Update;
use tower_codec::Interface;
use uuid::Uuid;

/// A command that is a step of the cell. Its fields stand in the order of its words, and all
/// further houses of a replica set are one list.
#[derive(Drop)]
pub enum Command {
    House(HouseNo, Node),
    Clock(HouseNo, u64),
    Root(HouseNo, Listeds),
    Mkdir(HouseNo, DirId, SimpleName, HouseNo, Listeds),
    Repoint(HouseNo, DirId, SimpleName, HouseNo, HouseNos),
    /// Makes or changes an entry of a directory: never a child.
    Update(HouseNo, DirId, Update),
    /// A new epoch of a directory: its master, and the other houses.
    Epoch(DirId, HouseNo, Listeds),
    Skulk(HouseNo, DirId),
    /// A message is delivered, or lost, by its serial number.
    Deliver(u64),
    Lose(u64),
    Crash(HouseNo),
    Start(HouseNo),
}

/// A command that finds its entry by a full name, or asks. A `bool` after the number of a house is
/// the confidence, true for high.
#[derive(Drop)]
pub enum Question {
    Read(HouseNo, bool, FullName, AttrName),
    Readlink(HouseNo, bool, FullName),
    /// The entry of a server gets the towers of an interface at these bindings, and these objects.
    Export(FullName, Interface, StringBindings, Uuids),
    /// It loses the towers of an interface, or none, and these objects.
    Unexport(FullName, Option<Interface>, Uuids),
    /// A group, and the member that comes to it, or leaves it.
    Groupadd(FullName, FullName),
    Groupdel(FullName, FullName),
    /// A profile gets an element for an interface, or a default element: its member, its priority
    /// and its annotation.
    Profadd(FullName, Option<Interface>, FullName, u8, Note),
    /// It loses the elements for an interface, or the default elements, that have this member.
    Profdel(FullName, Option<Interface>, FullName),
    /// The bindings of an interface, for an object or nil, over TCP where the first of the last two
    /// says so, and over UDP where the last one does.
    Import(HouseNo, bool, FullName, Interface, Uuid, bool, bool),
    /// What a house holds of a directory.
    Dump(HouseNo, DirId),
    /// The octets of a message, by its serial number.
    OctetsMsg(u64),
    /// The octets of a house's image.
    OctetsHouse(HouseNo),
    /// Which message is at the front of these octets.
    Decode(Octets),
}

/// What a line says.
#[derive(Drop)]
pub enum ScriptLine {
    Cell(Command),
    Question(Question),
}
