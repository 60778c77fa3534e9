// The lines of faults, of octets and of words.
ghost use Rattle.std.specs.Prelude.{◌≡◌, ◌++◌, IfOk, OnOk, OnErr};
ghost use Rattle.script_answers.specs.Texts.{parse_fault_text};
ghost use Rattle.reply_buffer.specs.FaultTexts.{line_fault_text};
ghost use Rattle.reply_buffer.specs.LineEnds.{Faults};

use crate::replies::{LineEnd, Waiting};
use cds_base::LineFault;
use cell_script::ParseFault;
use script_answers::{print_fault, print_parse_fault};
use std::alloc::{AllocError, Global};

/// The line of a fault of octets; of a failed read nothing is told.
pub fn print_line_fault(alloc: Global, fault: LineFault) -> Result<Vec<u8>, AllocError>
    ensures { IfOk result (λ text. text.items ≡ line_fault_text fault) }
{
    match fault {
        LineFault::LineTooLong(number, place) => print_fault(alloc, number, "LineTooLong", place),
        LineFault::NotAscii(number, place) => print_fault(alloc, number, "NotAscii", place),
        LineFault::NoLineEnd(number, place) => print_fault(alloc, number, "NoLineEnd", place),
        LineFault::TooManyLines(number, place) => print_fault(alloc, number, "TooManyLines", place),
        LineFault::ReadFault => Ok(Vec::new(alloc)),
    }
}

/// A faulty line: its fault waits after the others, and nothing follows.
pub fn reply_to_fault(
    alloc: Global,
    number: u32,
    fault: ParseFault,
    waiting: &mut Waiting,
) -> LineEnd
    ensures { Faults result (parse_fault_text number fault) waiting.old waiting.new }
{
    match queue_fault(alloc, number, fault, waiting) {
        Ok(()) => LineEnd::Stops,
        Err(AllocError) => LineEnd::NoMemory,
    }
}

// The line of a fault waits after the others.
fn queue_fault(
    alloc: Global,
    number: u32,
    fault: ParseFault,
    waiting: &mut Waiting,
) -> Result<(), AllocError>
    ensures ok { OnOk result (waiting.new ≡ waiting.old ++ parse_fault_text number fault) }
    ensures err { OnErr result (waiting.new ≡ waiting.old) }
{
    let text = print_parse_fault(alloc, number, fault)?;
    waiting.add(&text)?;
    Ok(())
}
