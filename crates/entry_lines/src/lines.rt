// The lines of a script that do what entries say. What each one says is compared with the entry
// afterwards.
ghost use Rattle.std.specs.Prelude.{◌≡◌, ◌++◌, ◌∷◌, IfOk, OnOk, decimal, drop, take};
ghost use Rattle.cell_script.specs.Words.{words_of};
ghost use Rattle.cell_script.specs.declared.command.Command.TheVariants as command';
ghost use Rattle.script_answers.specs.Texts.{spaced};
ghost use Rattle.command_lines.specs.CommandTexts.{command_line};
ghost use Rattle.command_lines.specs.ListedMembers as listed;
ghost use Rattle.entry_lines.specs.MadeLines.{first_in, mkdir_line, same_line, turn_line};

use cds_stamps::{DirId, HouseNo, Member};
use cell_script::{Command, Words};
use command_lines::{listed_others, push_command, push_number_word, push_word};
use house_lines::HouseOrder;
use house_logs::LoggedTurn;
use std::alloc::{AllocError, Global};

// Adds the next word, if there is one.
fn push_next(line: &mut Vec<u8>, words: &mut Words<'_>) -> Result<(), AllocError>
    ensures line { OnOk result
        (line.new.items ≡ line.old.items ++ spaced (take 1 words.old.rest)) }
    ensures words { OnOk result (words.new.rest ≡ drop 1 words.old.rest) }
{
    match words.next() {
        Some(word) => push_word(line, word),
        None => Ok(()),
    }
}

// Adds the next words, as many as there are.
fn push_rest(line: &mut Vec<u8>, words: &mut Words<'_>) -> Result<(), AllocError>
    ensures { OnOk result (line.new.items ≡ line.old.items ++ spaced words.old.rest) }
{
    'words: while let Some(word) = words.next() {
        push_word(line, word)?;
    }
    Ok(())
}

// A command of a house.
fn house_line(alloc: Global, command: &[u8], house: HouseNo) -> Result<Vec<u8>, AllocError>
    ensures { IfOk result (λ v. v.items ≡ command.now ++ (32 ∷ decimal house.0)) }
{
    let mut line = Vec::from_slice(alloc, command)?;
    push_number_word(&mut line, u64::from(house.0))?;
    Ok(line)
}

/// The line of a command.
pub(crate) fn printed(alloc: Global, command: &Command) -> Result<Vec<u8>, AllocError>
    ensures { IfOk result (λ v. v.items ≡ command_line command.now) }
{
    let mut line = Vec::new(alloc);
    push_command(&mut line, command)?;
    Ok(line)
}

// `epoch D H R..`.
fn epoch_line(
    alloc: Global,
    dir: DirId,
    house: HouseNo,
    members: &[Member],
) -> Result<Vec<u8>, AllocError>
    ensures { IfOk result
        (λ v. v.items
        ≡ command_line (command'.Epoch dir house (listed.listed_others house members.now))) }
{
    let others = listed_others(alloc, house, members)?;
    printed(alloc, &Command::Epoch(dir, house, others))
}

// The next word; no octets, if there is none.
fn first_of<'a>(words: &mut Words<'a>) -> &'a [u8]
    ensures word { result.now ≡ first_in words.old.rest }
    ensures words { words.new.rest ≡ drop 1 words.old.rest }
{
    match words.next() {
        Some(word) => word,
        None => &[],
    }
}

// The line of a turn with the house after its first word.
fn same_line(alloc: Global, house: HouseNo, own: &[u8]) -> Result<Vec<u8>, AllocError>
    ensures { IfOk result (λ v. v.items ≡ same_line house (words_of own.now)) }
{
    let mut words = Words::of(own);
    let first = first_of(&mut words);
    let mut line = house_line(alloc, first, house)?;
    push_rest(&mut line, &mut words)?;
    Ok(line)
}

// `mkdir H D S H R..`, of a line `mkdir D S N R..`.
fn mkdir_line(alloc: Global, house: HouseNo, own: &[u8]) -> Result<Vec<u8>, AllocError>
    ensures { IfOk result (λ v. v.items ≡ mkdir_line house (words_of own.now)) }
{
    let mut words = Words::of(own);
    let first = first_of(&mut words);
    let mut line = house_line(alloc, first, house)?;
    push_next(&mut line, &mut words)?;
    push_next(&mut line, &mut words)?;
    let _made = first_of(&mut words);
    push_number_word(&mut line, u64::from(house.0))?;
    push_rest(&mut line, &mut words)?;
    Ok(line)
}

/// The line that does a turn of a house, which takes the message of this serial number if it takes
/// one.
pub(crate) fn turn_line(
    alloc: Global,
    house: HouseNo,
    turn: &LoggedTurn,
    serial: u64,
) -> Result<Vec<u8>, AllocError>
    ensures { IfOk result
        (λ v. v.items ≡ turn_line house turn.now.line turn.now.order serial) }
{
    match &turn.order {
        HouseOrder::Take(_) => printed(alloc, &Command::Deliver(serial)),
        HouseOrder::Mkdir(_, _, _, _) => mkdir_line(alloc, house, turn.line.list()),
        HouseOrder::Epoch(dir, _, list) => { epoch_line(alloc, *dir, house, list.members.list()) }
        _ => same_line(alloc, house, turn.line.list()),
    }
}
