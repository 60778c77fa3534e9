// The line of a fault of octets.
ghost use Rattle.std.specs.Prelude.{◌≡◌, ◌++◌, length, take, codes, decimal, IfOk, OnOk, OnErr};
ghost use Rattle.house_serving.specs.Faults.{placed_fault_text, fault_line_text, fault_of_house};

use cds_base::LineFault;
use itoa::Buffer;
use std::alloc::{AllocError, Global};

/// Octets of the longest line that a house takes: what it says again of one is a line that others
/// can read.
pub const MOST_LINE: usize = 4080;

/// The fault that a house shows, where lines are shorter than those that are read.
pub(crate) fn shown_fault(fault: LineFault) -> LineFault
    ensures { result ≡ fault_of_house fault }
{
    match fault {
        LineFault::LineTooLong(number, _) => LineFault::LineTooLong(number, MOST_LINE + 1),
        LineFault::NotAscii(number, place) if place > MOST_LINE => {
            LineFault::LineTooLong(number, MOST_LINE + 1)
        }
        LineFault::NoLineEnd(number, place) if place > MOST_LINE + 1 => {
            LineFault::LineTooLong(number, MOST_LINE + 1)
        }
        fault => fault,
    }
}

// A number, in decimal digits.
fn push_number(line: &mut Vec<u8>, number: u64) -> Result<(), AllocError>
    ensures { OnOk result (line.new.items ≡ line.old.items ++ decimal number) }
{
    let mut digits = Buffer::new();
    line.extend_from_slice(digits.format(number).as_bytes())
}

// The line of a fault: its name and its place.
fn line_of(alloc: Global, number: u32, name: &[u8], place: usize) -> Result<Vec<u8>, AllocError>
    ensures { IfOk result (λ line. line.items ≡ placed_fault_text number name.now place) }
{
    let mut line = Vec::new(alloc);
    push_number(&mut line, u64::from(number))?;
    line.extend_from_slice(b" fault ")?;
    line.extend_from_slice(name)?;
    line.push(b' ')?;
    push_number(&mut line, place as u64)?;
    line.push(b'\n')?;
    Ok(line)
}

/// The line of a fault; of a failed read nothing.
pub(crate) fn fault_line(alloc: Global, fault: LineFault) -> Result<Vec<u8>, AllocError>
    ensures { IfOk result (λ line. line.items ≡ fault_line_text fault) }
{
    match fault {
        LineFault::LineTooLong(number, place) => line_of(alloc, number, b"LineTooLong", place),
        LineFault::NotAscii(number, place) => line_of(alloc, number, b"NotAscii", place),
        LineFault::NoLineEnd(number, place) => line_of(alloc, number, b"NoLineEnd", place),
        LineFault::TooManyLines(number, place) => line_of(alloc, number, b"TooManyLines", place),
        LineFault::ReadFault => Ok(Vec::new(alloc)),
    }
}
