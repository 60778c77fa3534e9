// Why octets are no journal of a house.
ghost use Rattle.std.specs.Prelude.{◌≡◌, ◌++◌, OnOk, codes};
ghost use Rattle.house_logs.specs.Faults.{due_said, fault_text, numbered, record_said};

use script_answers::push_number;
use std::alloc::AllocError;

/// Why a segment, by its number, is not the next one of a house's journal.
#[derive(Clone, Copy, Debug, PartialEq, Eq, Drop)]
pub enum LogFault {
    OtherVersion(u64),
    /// From this record on, the first of which is the head, no chain of records goes on.
    Damaged(u64, u64),
    /// The head does not name the last record of the segment before.
    NotNext(u64),
    /// A record, by its place in the segment, that no house writes there.
    BadRecord(u64, u64),
    /// A record with the number of an entry, where another one is due.
    NotDue(u64, u64, u64, u64),
}

// Adds words, and a number after them.
fn push_numbered(text: &mut Vec<u8>, words: &[u8], number: u64) -> Result<(), AllocError>
    ensures { OnOk result (text.new.items ≡ text.old.items ++ numbered words.now number) }
{
    text.extend_from_slice(words)?;
    push_number(text, number)
}

// Adds words of a segment.
fn push_segment(text: &mut Vec<u8>, segment: u64, words: &[u8]) -> Result<(), AllocError>
    ensures { OnOk result
        (text.new.items ≡ text.old.items ++ (numbered (codes "segment ") segment ++ words.now)) }
{
    push_numbered(text, b"segment ", segment)?;
    text.extend_from_slice(words)
}

// Adds a record, by its place in a segment.
fn push_place(text: &mut Vec<u8>, segment: u64, place: u64) -> Result<(), AllocError>
    ensures { OnOk result (text.new.items ≡ text.old.items ++ record_said segment place) }
{
    push_numbered(text, b"segment ", segment)?;
    push_numbered(text, b" record ", place)
}

// Adds words of a record.
fn push_record(text: &mut Vec<u8>, segment: u64, place: u64, words: &[u8]) -> Result<(), AllocError>
    ensures { OnOk result
        (text.new.items ≡ text.old.items ++ (record_said segment place ++ words.now)) }
{
    push_place(text, segment, place)?;
    text.extend_from_slice(words)
}

// Adds that another entry is due.
fn push_due(text: &mut Vec<u8>, entry: u64, due: u64) -> Result<(), AllocError>
    ensures { OnOk result (text.new.items ≡ text.old.items ++ due_said entry due) }
{
    push_numbered(text, b" has entry ", entry)?;
    push_numbered(text, b" where ", due)?;
    text.extend_from_slice(b" is due")
}

impl LogFault {
    /// Adds it in words.
    pub fn push(self, text: &mut Vec<u8>) -> Result<(), AllocError>
        ensures { OnOk result (text.new.items ≡ text.old.items ++ fault_text self) }
    {
        match self {
            LogFault::OtherVersion(segment) => {
                push_segment(text, segment, b" is of another version")
            }
            LogFault::Damaged(segment, place) => {
                push_record(text, segment, place, b" is damaged")
            }
            LogFault::NotNext(segment) => {
                push_segment(text, segment, b" does not follow the segment before")
            }
            LogFault::BadRecord(segment, place) => {
                push_record(text, segment, place, b" does not follow the record before")
            }
            LogFault::NotDue(segment, place, entry, due) => {
                push_place(text, segment, place)?;
                push_due(text, entry, due)
            }
        }
    }
}
