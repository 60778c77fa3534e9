// Why an entry is not explained, in words.
ghost use Rattle.std.specs.Prelude.{◌≡◌, ◌++◌, List, ℕ, OnOk, map};
ghost use Rattle.cds_explain.specs.ReasonLines.{entry_said, reason_line, visible};

use cds_stamps::{DirId, EpochNo, HouseNo};
use script_answers::push_number;
use std::alloc::{AllocError, Global};

/// Why an entry is not explained.
#[derive(Drop)]
pub enum Cause {
    /// Another journal is of the same house.
    HouseAgain,
    /// Another house, this one, has the same node.
    NodeOf(HouseNo),
    MadeBefore(DirId),
    SecondRoot,
    /// The console's epoch, where the last one of the directory is another.
    EpochAfter(EpochNo, EpochNo),
    /// An epoch that may still come.
    EpochLater(EpochNo, EpochNo),
    DirectoryLater(DirId, u64),
    NotPosted,
    /// The console gives an epoch another list, or does not give it to this house.
    OtherList,
    /// What the journal has as an answer, and what the replay answers.
    OtherAnswer(Vec<u8>, Vec<u8>),
    OtherPosts,
    OtherImage,
    /// No line of a script says what the entry does.
    NoLine,
    /// The script would have too many lines.
    TooManyLines,
}

/// An entry that is not explained, by its house and its number, and why.
#[derive(Drop)]
pub struct Reason {
    pub house: HouseNo,
    pub entry: u64,
    pub cause: Cause,
}

// How many octets of an answer are shown.
const MOST_SHOWN: usize = 200;

// An octet, or a `?` where it is not printable.
fn visible(octet: u8) -> u8
    ensures { result ≡ visible octet }
{
    if (0x20..=0x7E).contains(&octet) {
        octet
    } else {
        b'?'
    }
}

// Adds octets as they are shown.
fn push_shown(text: &mut Vec<u8>, octets: &[u8]) -> Result<(), AllocError>
    ensures { OnOk result (text.new.items ≡ text.old.items ++ map visible octets.now) }
{
    for octet in octets {
        text.push(visible(*octet))?;
    }
    Ok(())
}

// Adds the first octets of an answer.
fn push_answer(text: &mut Vec<u8>, answer: &[u8]) -> Result<(), AllocError> {
    text.extend_from_slice(&answer[..answer.len().min(MOST_SHOWN)])
}

// Adds a number between words.
fn push_between(
    text: &mut Vec<u8>,
    before: &[u8],
    number: u64,
    behind: &[u8],
) -> Result<(), AllocError> {
    text.extend_from_slice(before)?;
    push_number(text, number)?;
    text.extend_from_slice(behind)
}

// Adds an epoch, and the last one.
fn push_epochs(text: &mut Vec<u8>, epoch: EpochNo, last: EpochNo) -> Result<(), AllocError> {
    push_between(text, b"epoch ", epoch.0, b" where the last one is ")?;
    push_number(text, last.0)
}

impl Cause {
    /// Whether another entry may yet make it go on.
    pub(crate) fn waits(&self) -> bool {
        matches!(
            self,
            Cause::EpochLater(_, _) | Cause::DirectoryLater(_, _) | Cause::NotPosted
        )
    }

    // Adds it in words.
    fn push(&self, text: &mut Vec<u8>) -> Result<(), AllocError> {
        match self {
            Cause::HouseAgain => text.extend_from_slice(b"the house of another journal"),
            Cause::NodeOf(house) => {
                push_between(text, b"the node of house ", u64::from(house.0), b"")
            }
            Cause::MadeBefore(dir) => {
                push_between(text, b"directory ", u64::from(dir.0), b" was made before")
            }
            Cause::SecondRoot => text.extend_from_slice(b"a second root"),
            Cause::EpochAfter(epoch, last) => push_epochs(text, *epoch, *last),
            Cause::EpochLater(epoch, last) => push_epochs(text, *epoch, *last),
            Cause::DirectoryLater(dir, next) => {
                let dir = u64::from(dir.0);
                push_between(text, b"directory ", dir, b" where the next one is ")?;
                push_number(text, *next)
            }
            Cause::NotPosted => text.extend_from_slice(b"took a message that no house posted"),
            Cause::OtherList => text.extend_from_slice(b"the console would give another list"),
            Cause::OtherAnswer(answer, replay) => {
                text.extend_from_slice(b"answered ")?;
                push_answer(text, answer)?;
                text.extend_from_slice(b" where the replay answers ")?;
                push_answer(text, replay)
            }
            Cause::OtherPosts => text.extend_from_slice(b"posted what the replay does not post"),
            Cause::OtherImage => text.extend_from_slice(b"an image that the replay has not"),
            Cause::NoLine => text.extend_from_slice(b"no line of a script does this"),
            Cause::TooManyLines => text.extend_from_slice(b"too many lines"),
        }
    }
}

impl Reason {
    // Adds its entry, at the beginning of a line.
    fn push_entry(&self, text: &mut Vec<u8>) -> Result<(), AllocError>
        ensures { OnOk result (text.new.items ≡ text.old.items ++ entry_said self.now) }
    {
        text.extend_from_slice(b"# unexplained: house ")?;
        push_number(text, u64::from(self.house.0))?;
        text.extend_from_slice(b" entry ")?;
        push_number(text, self.entry)
    }

    // Adds the line with these words.
    fn push_line(&self, text: &mut Vec<u8>, words: &[u8]) -> Result<(), AllocError>
        ensures { OnOk result
            (text.new.items ≡ text.old.items ++ reason_line self.now words.now) }
    {
        self.push_entry(text)?;
        text.extend_from_slice(b": ")?;
        push_shown(text, words)?;
        text.push(b'\n')?;
        Ok(())
    }

    /// Adds the line of the reason, which is a comment of a script.
    pub fn push(&self, alloc: Global, text: &mut Vec<u8>) -> Result<(), AllocError>
        ensures { OnOk result ((words : List ℕ)
            × (text.new.items ≡ text.old.items ++ reason_line self.now words)) }
    {
        let mut words = Vec::new(alloc);
        self.cause.push(&mut words)?;
        self.push_line(text, &words)
    }
}
