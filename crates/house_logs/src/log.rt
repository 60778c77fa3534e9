// What a house did, as its journal has it.
ghost use Rattle.std.specs.Prelude.{◌≡◌, option_copied};
ghost use Rattle.house_logs.specs.Records.{image_of, with_image};

use cds_stamps::{HouseNo, Node};
use cell_script::Octets;
use house_lines::HouseOrder;

/// A message that was posted: the house that it is for, and its octets.
#[derive(Drop)]
pub struct PostedOctets {
    pub to: HouseNo,
    pub octets: Octets,
}

/// A turn: the clock of the house, its line, what that says, the messages that it posted, its
/// answer, and the image after it, if a record shows it. Of a `take` the line is left out.
#[derive(Drop)]
pub struct LoggedTurn {
    pub clock: u64,
    pub line: Octets,
    pub order: HouseOrder,
    pub posts: Vec<PostedOctets>,
    pub answer: Octets,
    pub image: Option<Octets>,
}

/// An entry of a journal: a process began, with this image; or a turn.
#[derive(Drop)]
pub enum LogEntry {
    Started(Octets),
    Turned(LoggedTurn),
}

impl LogEntry {
    // The image after it, if it is known.
    pub(crate) fn image(&self) -> Option<&Octets>
        ensures { option_copied result ≡ image_of self.now }
    {
        match self {
            LogEntry::Started(image) => Some(image),
            LogEntry::Turned(turn) => turn.image.as_ref(),
        }
    }

    // The entry with this image.
    pub(crate) fn with_image(self, image: Octets) -> LogEntry
        ensures { result ≡ with_image image self }
    {
        match self {
            LogEntry::Started(_other) => LogEntry::Started(image),
            LogEntry::Turned(turn) => {
                let LoggedTurn {
                    clock,
                    line,
                    order,
                    posts,
                    answer,
                    image: _other,
                } = turn;
                LogEntry::Turned(LoggedTurn {
                    clock,
                    line,
                    order,
                    posts,
                    answer,
                    image: Some(image),
                })
            }
        }
    }
}

/// The journal of a house: its number, its node, the image with which it was made, if a record
/// shows it, and the entries after that, the first of which has the number 2.
#[derive(Drop)]
pub struct HouseLog {
    pub house: HouseNo,
    pub node: Node,
    pub image: Option<Octets>,
    pub entries: Vec<LogEntry>,
}

/// A house that was made: its number and its node.
#[derive(Drop)]
pub(crate) struct Making {
    pub(crate) house: HouseNo,
    pub(crate) node: Node,
}
