// Lines with the commands that they say. That of a turn is read again, and compared with what it is
// to do.
ghost use Rattle.std.specs.Prelude.{◌≡◌, ◌≤◌, ℕ, IfNone, IfOk, IfSome, MatchOption};
ghost use Rattle.std.specs.Bool.{Decides};
ghost use Rattle.std.specs.List.{list_all};
ghost use Rattle.cds_base.specs.LineFaults.{IsLine, is_printable};
ghost use Rattle.cds_base.specs.declared.scan.TheConstants.{MOST_LINES};
ghost use Rattle.cell_script.specs.declared.command.Command.{Command as Command'};
ghost use Rattle.cell_script.specs.declared.command.Command.TheVariants as command;
ghost use Rattle.command_lines.specs.CommandTexts.{command_line};
ghost use Rattle.command_lines.specs.SayableCommands.{CanBeSaid};
ghost use Rattle.entry_lines.specs.EntryCommands.{IsCommandOf};
ghost use Rattle.entry_lines.specs.MadeLines.{turn_line};
ghost use Rattle.entry_lines.specs.SaidLines.{SaysCommand};

use crate::lines::{printed, turn_line};
use crate::meaning::is_order;
use cds_base::LONGEST_LINE;
use cds_stamps::{AllocOr, HouseNo, Node};
use cell_script::{Command, ScriptLine, parse_line};
use house_logs::LoggedTurn;
use std::alloc::{AllocError, Global};

/// A line of a script, and the command that it says.
#[derive(Drop)]
pub struct Said {
    pub line: Vec<u8>,
    pub command: Command,
}

// Whether lines have this octet.
fn is_printable(octet: u8) -> bool
    ensures { result ≡ is_printable octet }
{
    31 < octet && octet < 127
}

// Whether all octets are some that lines have.
fn are_printable(octets: &[u8]) -> bool
    ensures { result ≡ list_all is_printable octets.now }
{
    octets.iter().all(|octet| is_printable(*octet))
}

// Whether octets are those of a line that a script can have.
fn is_line(octets: &[u8]) -> bool
    ensures { Decides result ((number : ℕ) → number ≤ MOST_LINES → IsLine number octets.now) }
{
    octets.len() <= LONGEST_LINE && are_printable(octets)
}

// The command that a line says, if a script can have it.
fn command_in(alloc: Global, line: &[u8]) -> Result<Option<Command>, AllocError>
    ensures { IfOk result (λ o. MatchOption o ((c : Command') → ¬ SaysCommand line.now c)
        (SaysCommand line.now)) }
{
    if !is_line(line) {
        return Ok(None);
    }
    match parse_line(alloc, line) {
        Ok(Some(ScriptLine::Cell(command))) => Ok(Some(command)),
        Ok(_) => Ok(None),
        Err(AllocOr::Fault(_)) => Ok(None),
        Err(AllocOr::OutOfMemory) => Err(AllocError),
    }
}

// A command that lines can say, with its line; none, if it is too long for one.
#[tactic(auto, using(crate::proofs::UnsaidLines::says_it, crate::proofs::UnsaidLines::long_unsaid))]
fn with_line(alloc: Global, command: Command) -> Result<Option<Said>, AllocError>
    requires { CanBeSaid command }
    ensures says { IfOk result (λ o. IfSome o (λ s. SaysCommand s.line.items s.command)) }
    ensures is { IfOk result (λ o. IfSome o (λ s. s.command ≡ command)) }
    ensures none { IfOk result (λ o. IfNone o (¬ SaysCommand (command_line command) command)) }
{
    let line = printed(alloc, &command)?;
    if line.len() > LONGEST_LINE {
        return Ok(None);
    }
    Ok(Some(Said { line, command }))
}

/// `house H NODE`; none, if that is no line which makes this house.
#[tactic(auto, using(crate::proofs::UnsaidLines::no_making))]
pub fn making(alloc: Global, house: HouseNo, node: Node) -> Result<Option<Said>, AllocError>
    ensures says { IfOk result (λ o. IfSome o (λ s. SaysCommand s.line.items s.command)) }
    ensures is { IfOk result (λ o. IfSome o (λ s. s.command ≡ command.House house node)) }
    ensures none { IfOk result (λ o. IfNone o
        (¬ SaysCommand (command_line (command.House house node)) (command.House house node))) }
{
    let _below = node.number();
    if house.0 == 0 {
        return Ok(None);
    }
    with_line(alloc, Command::House(house, node))
}

/// `clock H TIME`; none, if that is no line which sets this clock.
#[tactic(auto, using(crate::proofs::UnsaidLines::no_setting))]
pub fn setting(alloc: Global, house: HouseNo, time: u64) -> Result<Option<Said>, AllocError>
    ensures says { IfOk result (λ o. IfSome o (λ s. SaysCommand s.line.items s.command)) }
    ensures is { IfOk result (λ o. IfSome o (λ s. s.command ≡ command.Clock house time)) }
    ensures none { IfOk result (λ o. IfNone o
        (¬ SaysCommand (command_line (command.Clock house time)) (command.Clock house time))) }
{
    if house.0 == 0 {
        return Ok(None);
    }
    with_line(alloc, Command::Clock(house, time))
}

/// `crash H`; none, if that is no line of this crash.
#[tactic(auto, using(crate::proofs::UnsaidLines::no_crash))]
pub fn crash(alloc: Global, house: HouseNo) -> Result<Option<Said>, AllocError>
    ensures says { IfOk result (λ o. IfSome o (λ s. SaysCommand s.line.items s.command)) }
    ensures is { IfOk result (λ o. IfSome o (λ s. s.command ≡ command.Crash house)) }
    ensures none { IfOk result (λ o. IfNone o
        (¬ SaysCommand (command_line (command.Crash house)) (command.Crash house))) }
{
    if house.0 == 0 {
        return Ok(None);
    }
    with_line(alloc, Command::Crash(house))
}

/// `start H`; none, if that is no line of this start.
#[tactic(auto, using(crate::proofs::UnsaidLines::no_start))]
pub fn start(alloc: Global, house: HouseNo) -> Result<Option<Said>, AllocError>
    ensures says { IfOk result (λ o. IfSome o (λ s. SaysCommand s.line.items s.command)) }
    ensures is { IfOk result (λ o. IfSome o (λ s. s.command ≡ command.Start house)) }
    ensures none { IfOk result (λ o. IfNone o
        (¬ SaysCommand (command_line (command.Start house)) (command.Start house))) }
{
    if house.0 == 0 {
        return Ok(None);
    }
    with_line(alloc, Command::Start(house))
}

/// The line of a turn of a house, which takes the message of this serial number if it takes one;
/// none, if that is no line which does it.
pub fn turn(
    alloc: Global,
    house: HouseNo,
    turn: &LoggedTurn,
    serial: u64,
) -> Result<Option<Said>, AllocError>
    ensures says { IfOk result (λ o. IfSome o (λ s. SaysCommand s.line.items s.command)) }
    ensures is { IfOk result
        (λ o. IfSome o (λ s. IsCommandOf house turn.now.order serial s.command)) }
    ensures none { IfOk result (λ o. IfNone o ((c : Command')
        → SaysCommand (turn_line house turn.now.line turn.now.order serial) c
        → ¬ IsCommandOf house turn.now.order serial c)) }
{
    let line = turn_line(alloc, house, turn, serial)?;
    let Some(command) = command_in(alloc, &line)? else {
        return Ok(None);
    };
    if !is_order(&command, house, &turn.order, serial) {
        return Ok(None);
    }
    Ok(Some(Said { line, command }))
}
