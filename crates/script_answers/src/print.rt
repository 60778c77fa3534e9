// Answers and faults to text.
ghost use Rattle.std.specs.Prelude.{◌≡◌, ◌++◌, ◌∷◌, [], length, take, drop, get_or, map, IfOk, OnOk, OnErr, codes, decimal};
ghost use Rattle.hex.specs.Hex.{encode_lower};
ghost use Rattle.script_answers.specs.Texts.{spaced, line_text, posted_words, stamp_text, stamp_or, message_name};
ghost use Rattle.script_answers.specs.Texts.{answer_words, answer_line, answer_text, fault_text};
ghost use Rattle.script_answers.specs.Texts.{parse_fault_text};

use crate::answer::{Answer, ScriptRefusal};
use crate::dump::dump_text;
use crate::import::import_text;
use crate::pieces::{
    begin_line, push_epochs, push_hex, push_number, push_posted, push_spaced, push_spaced_stamp,
    push_spaced_stamp_or, push_stamped, push_word,
};
use crate::refusals::push_refusal;
use attr_sets::Value;
use cds_stamps::{DirId, EpochNo, Stamp};
use cell_script::ParseFault;
use std::alloc::{AllocError, Global};

// Room for the line of a fault.
const USUAL_LINE: usize = 80;

// How many values, and each in hexadecimal digits.
fn push_values(line: &mut Vec<u8>, values: &[Value]) -> Result<(), AllocError>
    ensures ok { OnOk result (line.new.items ≡ line.old.items
        ++ spaced (decimal (length values.now) ∷ map encode_lower values.now)) }
    ensures err { OnErr result (take (length line.old.items) line.new.items ≡ line.old.items) }
{
    push_spaced(line, values.len() as u64)?;
    for value in values {
        line.push(b' ')?;
        push_hex(line, value.octets())?;
    }
    Ok(())
}

// The name of a message by its tag.
fn message_of(tag: u8) -> &'static [u8]
    ensures { result.now ≡ message_name tag }
{
    match tag {
        1 => b"Update",
        2 => b"Gather",
        3 => b"Gathered",
        4 => b"Spread",
        5 => b"SpreadAck",
        6 => b"Advance",
        7 => b"Join",
        8 => b"Leave",
        _ => b"",
    }
}

// A message: its name by its tag, and how many octets it has.
fn push_message(line: &mut Vec<u8>, tag: u8, used: usize) -> Result<(), AllocError>
    ensures ok { OnOk result
        (line.new.items ≡ line.old.items ++ spaced (message_name tag ∷ decimal used ∷ [])) }
    ensures err { OnErr result (take (length line.old.items) line.new.items ≡ line.old.items) }
{
    push_word(line, message_of(tag))?;
    push_spaced(line, used as u64)
}

// A new directory: its number, the stamp of its entry, and the messages that were posted.
fn push_made(
    line: &mut Vec<u8>,
    dir: DirId,
    stamp: &Stamp,
    serials: &[u64],
) -> Result<(), AllocError>
    ensures ok { OnOk result (line.new.items ≡ line.old.items
        ++ spaced (decimal dir.0 ∷ stamp_text stamp.now ∷ posted_words serials.now)) }
    ensures err { OnErr result (take (length line.old.items) line.new.items ≡ line.old.items) }
{
    push_spaced(line, u64::from(dir.0))?;
    push_stamped(line, stamp, serials)
}

// A word, and the messages that were posted.
fn push_posted_behind(line: &mut Vec<u8>, word: &[u8], serials: &[u64]) -> Result<(), AllocError>
    ensures ok { OnOk result
        (line.new.items ≡ line.old.items ++ spaced (word.now ∷ posted_words serials.now)) }
    ensures err { OnErr result (take (length line.old.items) line.new.items ≡ line.old.items) }
{
    push_word(line, word)?;
    push_posted(line, serials)
}

// A number, and the messages that were posted.
fn push_counted(line: &mut Vec<u8>, number: u64, serials: &[u64]) -> Result<(), AllocError>
    ensures ok { OnOk result
        (line.new.items ≡ line.old.items ++ spaced (decimal number ∷ posted_words serials.now)) }
    ensures err { OnErr result (take (length line.old.items) line.new.items ≡ line.old.items) }
{
    push_spaced(line, number)?;
    push_posted(line, serials)
}

// A word, a stamp, and the messages that were posted.
fn push_stamped_behind(
    line: &mut Vec<u8>,
    word: &[u8],
    stamp: &Stamp,
    serials: &[u64],
) -> Result<(), AllocError>
    ensures ok { OnOk result (line.new.items ≡ line.old.items
        ++ spaced (word.now ∷ stamp_text stamp.now ∷ posted_words serials.now)) }
    ensures err { OnErr result (take (length line.old.items) line.new.items ≡ line.old.items) }
{
    push_word(line, word)?;
    push_stamped(line, stamp, serials)
}

// A word, and two epochs.
fn push_epochs_behind(
    line: &mut Vec<u8>,
    word: &[u8],
    a: EpochNo,
    b: EpochNo,
) -> Result<(), AllocError>
    ensures ok { OnOk result
        (line.new.items ≡ line.old.items ++ spaced (word.now ∷ decimal a.0 ∷ decimal b.0 ∷ [])) }
    ensures err { OnErr result (take (length line.old.items) line.new.items ≡ line.old.items) }
{
    push_word(line, word)?;
    push_epochs(line, a, b)
}

// Another skulk: its stamp, and that of the skulk that runs.
fn push_stale(line: &mut Vec<u8>, stamp: &Stamp, running: Option<Stamp>) -> Result<(), AllocError>
    ensures ok { OnOk result (line.new.items ≡ line.old.items
        ++ spaced (codes "stale" ∷ stamp_text stamp.now ∷ stamp_or (codes "none") running ∷ [])) }
    ensures err { OnErr result (take (length line.old.items) line.new.items ≡ line.old.items) }
{
    push_word(line, b"stale")?;
    push_spaced_stamp(line, stamp)?;
    push_spaced_stamp_or(line, b"none", running)
}

// Octets: how many, and they in hexadecimal digits.
fn push_octets(line: &mut Vec<u8>, octets: &[u8]) -> Result<(), AllocError>
    ensures ok { OnOk result (line.new.items ≡ line.old.items
        ++ spaced (decimal (length octets.now) ∷ encode_lower octets.now ∷ [])) }
    ensures err { OnErr result (take (length line.old.items) line.new.items ≡ line.old.items) }
{
    push_spaced(line, octets.len() as u64)?;
    line.push(b' ')?;
    push_hex(line, octets)
}

// The first word of an answer that has one line.
fn first_word(answer: &Answer) -> &'static [u8]
    ensures { result.now ≡ get_or (answer_words answer.now) 0 [] }
{
    match answer {
        Answer::Refused(_) => b"refused",
        Answer::Bindings(_) | Answer::Dump(_, _, _, _) => b"",
        _ => b"ok",
    }
}

// The other words of an answer that has one line.
fn push_rest(alloc: Global, line: &mut Vec<u8>, answer: &Answer) -> Result<(), AllocError>
    ensures ok { OnOk result
        (line.new.items ≡ line.old.items ++ spaced (drop 1 (answer_words answer.now))) }
    ensures err { OnErr result (take (length line.old.items) line.new.items ≡ line.old.items) }
{
    match answer {
        Answer::Posted(serials) => push_posted(line, serials.list()),
        Answer::Made(dir, stamp, serials) => push_made(line, *dir, stamp, serials.list()),
        Answer::Stamped(stamp, serials) => push_stamped(line, stamp, serials.list()),
        Answer::Epoch(epoch, serials) => push_counted(line, epoch.0, serials.list()),
        Answer::Taken(serials) => push_posted_behind(line, b"taken", serials.list()),
        Answer::Late(message, house) => push_epochs_behind(line, b"late", *message, *house),
        Answer::Early(message, house) => push_epochs_behind(line, b"early", *message, *house),
        Answer::Stale(stamp, running) => push_stale(line, stamp, *running),
        Answer::NoReplica => push_word(line, b"noreplica"),
        Answer::Complete(stamp, serials) => {
            push_stamped_behind(line, b"complete", stamp, serials.list())
        }
        Answer::Values(values) => push_values(line, values.list()),
        Answer::Target(name) => push_word(line, &name.print(alloc)?),
        Answer::Updates(number, serials) => push_counted(line, *number, serials.list()),
        Answer::Octets(octets) => push_octets(line, octets.list()),
        Answer::Decoded(tag, used) => push_message(line, *tag, *used),
        Answer::Refused(refusal) => push_refusal(line, refusal),
        Answer::Done | Answer::Bindings(_) | Answer::Dump(_, _, _, _) => Ok(()),
    }
}

/// Puts what an answer of one line says after a line, without a number and an end; of an answer of
/// several lines nothing. After it ran out of memory the line may have grown.
#[tactic(auto, using(crate::proofs::Printing::first_and_rest))]
pub fn append_said(alloc: Global, line: &mut Vec<u8>, answer: &Answer) -> Result<(), AllocError>
    ensures ok { OnOk result (line.new.items ≡ line.old.items ++ answer_line answer.now) }
    ensures err { OnErr result (take (length line.old.items) line.new.items ≡ line.old.items) }
{
    line.extend_from_slice(first_word(answer))?;
    push_rest(alloc, line, answer)
}

// The line of an answer that has one. After it ran out of memory the text may have grown.
fn push_line(
    alloc: Global,
    line: &mut Vec<u8>,
    number: u32,
    answer: &Answer,
) -> Result<(), AllocError>
    ensures ok { OnOk result
        (line.new.items ≡ line.old.items ++ line_text number (answer_line answer.now)) }
    ensures err { OnErr result (take (length line.old.items) line.new.items ≡ line.old.items) }
{
    begin_line(line, number)?;
    append_said(alloc, line, answer)?;
    line.push(b'\n')?;
    Ok(())
}

// The lines of an answer.
fn push_lines(
    alloc: Global,
    text: &mut Vec<u8>,
    number: u32,
    answer: &Answer,
) -> Result<(), AllocError>
    ensures ok { OnOk result (text.new.items ≡ text.old.items ++ answer_text number answer.now) }
    ensures err { OnErr result (take (length text.old.items) text.new.items ≡ text.old.items) }
{
    match answer {
        Answer::Bindings(bindings) => {
            let lines = import_text(alloc, number, bindings.list())?;
            text.extend_from_slice(&lines)
        }
        Answer::Dump(epoch, all_up_to, members, table) => {
            let dump = dump_text(alloc, number, *epoch, *all_up_to, members, table)?;
            text.extend_from_slice(&dump)
        }
        _ => push_line(alloc, text, number, answer),
    }
}

/// Puts the lines of an answer after the text, each with the number of the script line. After it
/// ran out of memory the text is as it was.
pub fn append_answer(
    alloc: Global,
    text: &mut Vec<u8>,
    number: u32,
    answer: &Answer,
) -> Result<(), AllocError>
    ensures ok { OnOk result (text.new.items ≡ text.old.items ++ answer_text number answer.now) }
    ensures err { OnErr result (text.new.items ≡ text.old.items) }
{
    let before = text.len();
    if let Err(error) = push_lines(alloc, text, number, answer) {
        text.truncate(before);
        return Err(error);
    }
    Ok(())
}

/// The line of a fault: its name and its place.
pub fn print_fault(
    alloc: Global,
    number: u32,
    name: &str,
    place: usize,
) -> Result<Vec<u8>, AllocError>
    ensures { IfOk result (λ line. line.items ≡ fault_text number name.now place) }
{
    let mut line = Vec::with_capacity(alloc, USUAL_LINE)?;
    push_number(&mut line, u64::from(number))?;
    line.extend_from_slice(b" fault ")?;
    line.extend_from_slice(name.as_bytes())?;
    line.push(b' ')?;
    push_number(&mut line, place as u64)?;
    line.push(b'\n')?;
    Ok(line)
}

/// The line of a fault of words.
pub fn print_parse_fault(
    alloc: Global,
    number: u32,
    fault: ParseFault,
) -> Result<Vec<u8>, AllocError>
    ensures { IfOk result (λ line. line.items ≡ parse_fault_text number fault) }
{
    match fault {
        ParseFault::UnknownCommand(word) => print_fault(alloc, number, "UnknownCommand", word),
        ParseFault::WrongCount(words) => print_fault(alloc, number, "WrongCount", words),
        ParseFault::BadWord(word) => print_fault(alloc, number, "BadWord", word),
    }
}
