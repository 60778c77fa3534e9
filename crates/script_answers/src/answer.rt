// What the cell answers to a line.
use crate::lists::{Serials, Values};
use cds_stamps::{DirId, EpochNo, Members, Stamp};
use cell_names::FullName;
use cell_script::{Octets, StringBindings};
use directory::Table;
use record_fields::RecordFault;

/// What the cell answers to a line.
pub enum Answer {
    /// Nothing but that it is done.
    Done,
    /// The messages that were posted.
    Posted(Serials),
    /// A new directory, the stamp of its entry, and the messages that were posted.
    Made(DirId, Stamp, Serials),
    /// The stamp of an update, and the messages that were posted.
    Stamped(Stamp, Serials),
    /// The number of a new epoch, and the messages that were posted.
    Epoch(EpochNo, Serials),
    /// A message was taken, and these were posted.
    Taken(Serials),
    /// A message of an epoch before that of the house: its epoch, and the house's.
    Late(EpochNo, EpochNo),
    /// A message of an epoch after that of the house: its epoch, and the house's.
    Early(EpochNo, EpochNo),
    /// A message of another skulk than the one that runs: its stamp, and the running one's.
    Stale(Stamp, Option<Stamp>),
    /// The house holds no replica that the message could be for.
    NoReplica,
    /// A skulk is complete: its stamp, and the messages that were posted.
    Complete(Stamp, Serials),
    /// The values that show, in ascending order.
    Values(Values),
    /// The name that a link leads to.
    Target(FullName),
    /// How many updates were accepted, and the messages that they posted.
    Updates(u64, Serials),
    /// The bindings of an import, in the order in which the search finds them.
    Bindings(StringBindings),
    /// What a house holds of a directory: the epoch, AllUpTo, the members, and the table.
    Dump(EpochNo, Option<Stamp>, Members, Table),
    /// The octets of a message or of an image.
    Octets(Octets),
    /// The message at the front of octets: its tag, and how many octets it has.
    Decoded(u8, usize),
    Refused(ScriptRefusal),
}

impl Drop for Answer {
    fn drop(self) {
        match self {
            Answer::Done => (),
            Answer::Posted(_field_1) => (),
            Answer::Made(_field_1, _field_2, _field_3) => (),
            Answer::Stamped(_field_1, _field_2) => (),
            Answer::Epoch(_field_1, _field_2) => (),
            Answer::Taken(_field_1) => (),
            Answer::Late(_field_1, _field_2) => (),
            Answer::Early(_field_1, _field_2) => (),
            Answer::Stale(_field_1, _field_2) => (),
            Answer::NoReplica => (),
            Answer::Complete(_field_1, _field_2) => (),
            Answer::Values(_field_1) => (),
            Answer::Target(_field_1) => (),
            Answer::Updates(_field_1, _field_2) => (),
            Answer::Bindings(_field_1) => (),
            Answer::Dump(_field_1, _field_2, _field_3, _field_4) => (),
            Answer::Octets(_field_1) => (),
            Answer::Decoded(_field_1, _field_2) => (),
            Answer::Refused(_field_1) => (),
        }
    }
}

/// Why a command is refused.
pub enum ScriptRefusal {
    HouseExists,
    NoHouse,
    NoDirectory,
    DirectoryExists,
    BadMembers,
    NotMember,
    Down,
    Up,
    NoMessage,
    NoReplica,
    NotMaster,
    NoSuchEntry,
    EntryExists,
    WrongKind,
    /// Of a command that makes several updates: how many were accepted before, and the messages
    /// that they posted.
    StampsSpent(Option<u64>, Serials),
    /// The epoch that the house holds, and the one that began its present term.
    NotJoined(EpochNo, EpochNo),
    /// How many components of the name were found.
    NoSuchName(u32),
    /// The number of the component that is no directory.
    NotDirectory(u32),
    Unreachable(DirId),
    LinkCycle,
    TooManyLinks,
    NameTooLong,
    RootName,
    /// A kept answer led to an entry, and the house that is asked for its values now does not show
    /// it, or none answers.
    Vanished,
    /// The entry that was found is no link, or no object.
    NotLink,
    NotObject,
    /// Neither a binding nor an object is given.
    NothingToExport,
    /// The entry has none of the towers and objects.
    NothingToUnexport,
    NoSuchMember,
    /// A default element has priority 8, and any other one below it.
    BadPriority,
    /// The member's name and the annotation are too long together.
    ElementTooLong,
    NoSuchElement,
    /// The number of a new epoch is not above the one that the house holds.
    NotAbove(EpochNo),
    /// Octets begin with no message, or are no image.
    Octets(RecordFault),
}

impl Drop for ScriptRefusal {
    fn drop(self) {
        match self {
            ScriptRefusal::HouseExists => (),
            ScriptRefusal::NoHouse => (),
            ScriptRefusal::NoDirectory => (),
            ScriptRefusal::DirectoryExists => (),
            ScriptRefusal::BadMembers => (),
            ScriptRefusal::NotMember => (),
            ScriptRefusal::Down => (),
            ScriptRefusal::Up => (),
            ScriptRefusal::NoMessage => (),
            ScriptRefusal::NoReplica => (),
            ScriptRefusal::NotMaster => (),
            ScriptRefusal::NoSuchEntry => (),
            ScriptRefusal::EntryExists => (),
            ScriptRefusal::WrongKind => (),
            ScriptRefusal::StampsSpent(_field_1, _field_2) => (),
            ScriptRefusal::NotJoined(_field_1, _field_2) => (),
            ScriptRefusal::NoSuchName(_field_1) => (),
            ScriptRefusal::NotDirectory(_field_1) => (),
            ScriptRefusal::Unreachable(_field_1) => (),
            ScriptRefusal::LinkCycle => (),
            ScriptRefusal::TooManyLinks => (),
            ScriptRefusal::NameTooLong => (),
            ScriptRefusal::RootName => (),
            ScriptRefusal::Vanished => (),
            ScriptRefusal::NotLink => (),
            ScriptRefusal::NotObject => (),
            ScriptRefusal::NothingToExport => (),
            ScriptRefusal::NothingToUnexport => (),
            ScriptRefusal::NoSuchMember => (),
            ScriptRefusal::BadPriority => (),
            ScriptRefusal::ElementTooLong => (),
            ScriptRefusal::NoSuchElement => (),
            ScriptRefusal::NotAbove(_field_1) => (),
            ScriptRefusal::Octets(_field_1) => (),
        }
    }
}
