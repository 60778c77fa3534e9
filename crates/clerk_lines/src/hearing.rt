// The answer to `show`, heard line by line.
ghost use Rattle.std.specs.Prelude.{◌≡◌, IfOk};
ghost use Rattle.clerk_lines.specs.Hearings.{entry_begun, child_said, first_said, heard_with, is_last, later_said, told_at_end, word_of};

use crate::answer::{AnswerLine, parse_answer_line};
use crate::shown::{Lead, ShownAttrs, ShownEntry};
use cds_stamps::{AllocOr, DirId, HouseNo};
use cell_names::{ChildPointer, HouseList};
use std::alloc::{AllocError, Global};
use tower_codec::split_at_mark;

const ABSENT: &[u8] = b"refused NoSuchEntry";

/// What a house says of a name: nothing that counts, since it has no replica, is not the master
/// that is wanted, or says what no house says; that no entry shows; or what shows.
#[derive(Drop)]
pub enum Told {
    Passed,
    Absent,
    Shows(ShownEntry),
}

/// An answer to `show` of which not all lines were heard.
#[derive(Drop)]
pub enum Hearing {
    /// No line was heard.
    Begun,
    /// The first line of an entry was heard, and maybe more.
    Amid(ShownEntry),
    /// A line was heard that no house says there.
    Nonsense,
}

/// The octets of a line before its first space, or all of it.
pub fn first_word(line: &[u8]) -> &[u8]
    ensures { result.now ≡ word_of line.now }
{
    match split_at_mark(line, b' ') {
        Some((word, _)) => word,
        None => line,
    }
}

/// Whether a line is the last one of an answer.
#[tactic(auto, unfolding(crate::specs::Hearings::is_last))]
pub fn is_last(line: &[u8]) -> bool
    ensures { result ≡ is_last line.now }
{
    let word = first_word(line);
    word == b"ok".as_slice()
        || word == b"refused".as_slice()
        || word == b"fault".as_slice()
        || word == b"end".as_slice()
}

// The entry of a child that leads to these houses.
fn child(
    alloc: Global,
    dir: DirId,
    master: HouseNo,
    others: &[HouseNo],
) -> Result<Hearing, AllocError>
    ensures { IfOk result (λ h. h ≡ child_said dir master others.now) }
{
    match HouseList::new(alloc, master, others) {
        Ok(houses) => Ok(entry(alloc, Lead::Child(ChildPointer { dir, houses }))),
        Err(AllocOr::Fault(_)) => Ok(Hearing::Nonsense),
        Err(AllocOr::OutOfMemory) => Err(AllocError),
    }
}

// An entry of which only the first line was heard.
fn entry(alloc: Global, lead: Lead) -> Hearing
    ensures { result ≡ entry_begun lead }
{
    Hearing::Amid(ShownEntry {
        lead,
        attrs: ShownAttrs::new(alloc),
    })
}

// What the first line begins.
fn begin(alloc: Global, line: AnswerLine) -> Result<Hearing, AllocError>
    ensures { IfOk result (λ h. h ≡ first_said line) }
{
    match line {
        AnswerLine::Object => Ok(entry(alloc, Lead::Object)),
        AnswerLine::Link(target) => Ok(entry(alloc, Lead::Link(target))),
        AnswerLine::Child(dir, master, others) => child(alloc, dir, master, others.list()),
        AnswerLine::Attr(_) | AnswerLine::Value(_) => Ok(Hearing::Nonsense),
    }
}

// What a later line adds.
fn add(alloc: Global, entry: ShownEntry, line: AnswerLine) -> Result<Hearing, AllocError>
    ensures { IfOk result (λ h. h ≡ later_said entry line) }
{
    let ShownEntry { lead, attrs } = entry;
    match line {
        AnswerLine::Attr(name) => {
            let attrs = attrs.begin(alloc, name)?;
            Ok(Hearing::Amid(ShownEntry { lead, attrs }))
        }
        AnswerLine::Value(value) => match attrs.add(value)? {
            Some(attrs) => Ok(Hearing::Amid(ShownEntry { lead, attrs })),
            None => Ok(Hearing::Nonsense),
        },
        AnswerLine::Object | AnswerLine::Link(_) | AnswerLine::Child(_, _, _) => {
            Ok(Hearing::Nonsense)
        }
    }
}

impl Hearing {
    /// What was heard with one more line, which is not the last.
    pub fn hear(self, alloc: Global, line: &[u8]) -> Result<Hearing, AllocError>
        ensures { IfOk result (λ h. h ≡ heard_with self line.now) }
    {
        let said = match parse_answer_line(alloc, line) {
            Ok(said) => said,
            Err(AllocOr::Fault(_)) => return Ok(Hearing::Nonsense),
            Err(AllocOr::OutOfMemory) => return Err(AllocError),
        };
        match self {
            Hearing::Begun => begin(alloc, said),
            Hearing::Amid(entry) => add(alloc, entry, said),
            Hearing::Nonsense => Ok(Hearing::Nonsense),
        }
    }

    /// What the house says of the name, by the last line of its answer.
    pub fn told(self, last: &[u8]) -> Told
        ensures { result ≡ told_at_end self last.now }
    {
        match self {
            Hearing::Begun if last == ABSENT => Told::Absent,
            Hearing::Amid(entry) if first_word(last) == b"end".as_slice() => Told::Shows(entry),
            Hearing::Begun | Hearing::Amid(_) | Hearing::Nonsense => Told::Passed,
        }
    }
}
