// The lines of a house's answer to `show`.
ghost use Rattle.std.specs.Prelude.{◌≡◌, ◌∷◌, codes};
ghost use Rattle.cds_stamps.specs.Outcomes.{Answers};
ghost use Rattle.cell_script.specs.Words.{words_of};
ghost use Rattle.clerk_lines.specs.AnswerRows.{answer_said, said_by};

use attr_sets::Value;
use cds_stamps::{AllocOr, AttrName, DirId, HouseNo};
use cell_names::FullName;
use cell_script::{HouseNos, ParseFault, Parsed, Words};
use std::alloc::Global;

/// What a line of a house's answer to `show` says. Its fields are in the order of its words.
#[derive(Drop)]
pub enum AnswerLine {
    /// The entry is an object.
    Object,
    /// It is a link to this name.
    Link(FullName),
    /// It is a child: its directory, the house of the master, and the other houses.
    Child(DirId, HouseNo, HouseNos),
    /// An attribute that has values, which come next.
    Attr(AttrName),
    Value(Value),
}

/// What a line says, or its fault.
#[tactic(auto, unfolding(crate::specs::AnswerRows::answer_said))]
pub fn parse_answer_line(alloc: Global, line: &[u8]) -> Parsed<AnswerLine>
    ensures { Answers result (answer_said (words_of line.now)) }
{
    let mut words = Words::of(line);
    match words.next() {
        Some(word) => said_by(alloc, word, &mut words),
        None => Err(AllocOr::Fault(ParseFault::UnknownCommand(1))),
    }
}

// What the words after the first one say.
#[tactic(auto, unfolding(crate::specs::AnswerRows::said_by))]
fn said_by(alloc: Global, word: &[u8], words: &mut Words<'_>) -> Parsed<AnswerLine>
    ensures { Answers result (said_by word.now words.old) }
{
    if word == b"object".as_slice() {
        return object(words);
    }
    if word == b"link".as_slice() {
        return link(alloc, words);
    }
    if word == b"child".as_slice() {
        return child(alloc, words);
    }
    if word == b"attr".as_slice() {
        return attr(alloc, words);
    }
    if word == b"value".as_slice() {
        return value(alloc, words);
    }
    Err(AllocOr::Fault(ParseFault::UnknownCommand(1)))
}

#[tactic(auto, unfolding(crate::specs::AnswerRows::said_by))]
fn object(words: &mut Words<'_>) -> Parsed<AnswerLine>
    ensures { Answers result (said_by (codes "object") words.old) }
{
    words.exactly(0)?;
    Ok(AnswerLine::Object)
}

#[tactic(auto, unfolding(crate::specs::AnswerRows::said_by))]
fn link(alloc: Global, words: &mut Words<'_>) -> Parsed<AnswerLine>
    ensures { Answers result (said_by (codes "link") words.old) }
{
    words.exactly(1)?;
    Ok(AnswerLine::Link(words.full_name(alloc)?))
}

#[tactic(auto, unfolding(crate::specs::AnswerRows::said_by))]
fn child(alloc: Global, words: &mut Words<'_>) -> Parsed<AnswerLine>
    ensures { Answers result (said_by (codes "child") words.old) }
{
    words.at_least(2)?;
    Ok(AnswerLine::Child(words.directory()?, words.house()?, words.houses(alloc)?))
}

#[tactic(auto, unfolding(crate::specs::AnswerRows::said_by))]
fn attr(alloc: Global, words: &mut Words<'_>) -> Parsed<AnswerLine>
    ensures { Answers result (said_by (codes "attr") words.old) }
{
    words.exactly(1)?;
    Ok(AnswerLine::Attr(words.attr_name(alloc)?))
}

#[tactic(auto, unfolding(crate::specs::AnswerRows::said_by))]
fn value(alloc: Global, words: &mut Words<'_>) -> Parsed<AnswerLine>
    ensures { Answers result (said_by (codes "value") words.old) }
{
    words.exactly(1)?;
    Ok(AnswerLine::Value(words.value(alloc)?))
}
