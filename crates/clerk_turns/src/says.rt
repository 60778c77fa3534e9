// What a clerk says to a command.
ghost use Rattle.std.specs.Prelude.{◌≡◌, ◌∷◌, ◌++◌, [], IfOk, OnOk, decimal, map};
ghost use Rattle.std.specs.List.{flat_map};
ghost use Rattle.script_answers.specs.Texts.{answer_line};
ghost use Rattle.clerk_lines.specs.ClerkTexts.{say_text};
ghost use Rattle.inquire_forms.specs.Inquired.{inquired_answer};
ghost use Rattle.inquire_forms.specs.InquireTexts.{listed_lines};
ghost use Rattle.clerk_turns.specs.Says.{answer_said, fault_line, fault_said, front_said, list_said, parse_fault_line, unreached_line};

use cds_stamps::DirId;
use cell_script::ParseFault;
use clerk_lines::push_say;
use inquire_forms::{InquireAnswer, append_listed, count_listed};
use script_answers::{Answer, append_said, push_number};
use std::alloc::{AllocError, Global};

/// Says one line.
pub(crate) fn say_line(alloc: Global, command: u64, line: &[u8]) -> Result<Vec<u8>, AllocError>
    ensures { IfOk result (λ text. text.items ≡ say_text command line.now) }
{
    let mut text = Vec::new(alloc);
    push_say(&mut text, command, line)?;
    Ok(text)
}

// Says an answer that has one line.
#[tactic(auto, using(crate::proofs::Texts::single_said))]
fn say_single(alloc: Global, command: u64, answer: &Answer) -> Result<Vec<u8>, AllocError>
    ensures { IfOk result
        (λ text. text.items ≡ flat_map (say_text command) (answer_line answer.now ∷ [])) }
{
    let mut line = Vec::new(alloc);
    append_said(alloc, &mut line, answer)?;
    say_line(alloc, command, &line)
}

// Says words and a number.
fn push_counted(
    alloc: Global,
    text: &mut Vec<u8>,
    command: u64,
    words: &[u8],
    count: u64,
) -> Result<(), AllocError>
    ensures { OnOk result (text.new.items
        ≡ text.old.items ++ say_text command (words.now ++ decimal count)) }
{
    let mut line = Vec::new(alloc);
    line.extend_from_slice(words)?;
    push_number(&mut line, count)?;
    push_say(text, command, &line)
}

// Says a directory that was not reached.
fn push_unreached(
    alloc: Global,
    text: &mut Vec<u8>,
    command: u64,
    dir: &DirId,
) -> Result<(), AllocError>
    ensures { OnOk result (text.new.items
        ≡ text.old.items ++ say_text command (unreached_line dir.now)) }
{
    push_counted(alloc, text, command, b"unreached ", u64::from(dir.0))
}

// Says the directories that were not reached.
fn push_each_unreached(
    alloc: Global,
    text: &mut Vec<u8>,
    command: u64,
    dirs: &[DirId],
) -> Result<(), AllocError>
    ensures { OnOk result (text.new.items
        ≡ text.old.items ++ flat_map (say_text command) (map unreached_line dirs.now)) }
{
    for dir in dirs {
        push_unreached(alloc, text, command, dir)?;
    }
    Ok(())
}

// What a line begins with that is said to a command.
fn front_said(alloc: Global, command: u64) -> Result<Vec<u8>, AllocError>
    ensures { IfOk result (λ front. front.items ≡ front_said command) }
{
    let mut front = Vec::new(alloc);
    front.extend_from_slice(b"say ")?;
    push_number(&mut front, command)?;
    front.push(b' ')?;
    Ok(front)
}

// Says what an answer lists.
#[tactic(auto, using(crate::proofs::Texts::listed_said))]
fn say_listed(alloc: Global, command: u64, answer: &InquireAnswer) -> Result<Vec<u8>, AllocError>
    ensures { IfOk result (λ text. text.items
        ≡ flat_map (say_text command) (listed_lines (inquired_answer answer.now))) }
{
    let front = front_said(alloc, command)?;
    let mut text = Vec::new(alloc);
    append_listed(alloc, &mut text, &front, answer)?;
    Ok(text)
}

// Says an answer that lists something, and the directories that were not reached.
#[tactic(auto, using(crate::proofs::Texts::list_is_said))]
fn say_list(
    alloc: Global,
    command: u64,
    answer: &InquireAnswer,
    unreached: &[DirId],
) -> Result<Vec<u8>, AllocError>
    ensures { IfOk result (λ text. text.items
        ≡ flat_map (say_text command) (list_said (inquired_answer answer.now) unreached.now)) }
{
    let mut text = say_listed(alloc, command, answer)?;
    push_each_unreached(alloc, &mut text, command, unreached)?;
    push_counted(alloc, &mut text, command, b"end ", count_listed(answer)?)?;
    Ok(text)
}

/// Says the answer to a command, and the directories that its search did not reach.
pub(crate) fn say_answer(
    alloc: Global,
    command: u64,
    answer: &InquireAnswer,
    unreached: &[DirId],
) -> Result<Vec<u8>, AllocError>
    ensures { IfOk result (λ text. text.items
        ≡ answer_said command (inquired_answer answer.now) unreached.now) }
{
    match answer {
        InquireAnswer::Plain(Answer::Bindings(_)) => say_list(alloc, command, answer, unreached),
        InquireAnswer::Plain(answer) => say_single(alloc, command, answer),
        _ => say_list(alloc, command, answer, unreached),
    }
}

// The line of a fault: its name and its place.
fn fault_line(alloc: Global, name: &[u8], place: usize) -> Result<Vec<u8>, AllocError>
    ensures { IfOk result (λ line. line.items ≡ fault_line name.now place) }
{
    let mut line = Vec::new(alloc);
    line.extend_from_slice(b"fault ")?;
    line.extend_from_slice(name)?;
    line.push(b' ')?;
    push_number(&mut line, place as u64)?;
    Ok(line)
}

// The line of a fault of words.
fn parse_fault_line(alloc: Global, fault: ParseFault) -> Result<Vec<u8>, AllocError>
    ensures { IfOk result (λ line. line.items ≡ parse_fault_line fault) }
{
    match fault {
        ParseFault::UnknownCommand(word) => fault_line(alloc, b"UnknownCommand", word),
        ParseFault::WrongCount(words) => fault_line(alloc, b"WrongCount", words),
        ParseFault::BadWord(word) => fault_line(alloc, b"BadWord", word),
    }
}

/// Says the fault of a command.
pub(crate) fn say_fault(
    alloc: Global,
    command: u64,
    fault: ParseFault,
) -> Result<Vec<u8>, AllocError>
    ensures { IfOk result (λ text. text.items ≡ fault_said command fault) }
{
    let line = parse_fault_line(alloc, fault)?;
    say_line(alloc, command, &line)
}
