// The faults of lines, and the search for the end of a line.
ghost use Rattle.std.specs.Prelude.{◌≡◌, ◌+◌, ◌<◌, ◌≤◌, ◌↔◌, length, IsTrue};
ghost use Rattle.std.specs.List.{prefix_len};
ghost use Rattle.cds_base.specs.LineFaults.{Sees, is_printable};
ghost use Rattle.cds_base.specs.declared.scan.TheConstants.{STRIDE};

use thiserror::Error;

/// Octets of the longest line.
pub const LONGEST_LINE: usize = 4096;

/// The number of the last line that is read.
pub const MOST_LINES: u32 = 16_777_216;

// Octets that are looked at together.
const STRIDE: usize = 16;

/// Why there is no next line: the number of the line that is at fault, and the place of the octet
/// at fault in it, both counted from 1.
#[derive(Clone, Copy, Debug, PartialEq, Eq, Error)]
pub enum LineFault {
    /// Octet 4,097 of a line is no line end.
    #[error("line {0} is too long at octet {1}")]
    LineTooLong(u32, usize),
    /// An octet among the first 4,096 is outside 0x20 to 0x7E and no line end.
    #[error("line {0} is not ASCII at octet {1}")]
    NotAscii(u32, usize),
    /// The input ends within a line: the place is the one after its last octet.
    #[error("line {0} has no line end at octet {1}")]
    NoLineEnd(u32, usize),
    /// Line 16,777,217 has an octet.
    #[error("line {0} is one too many")]
    TooManyLines(u32, usize),
    /// The source failed.
    #[error("a read failed")]
    ReadFault,
}

/// What is seen in the octets from the beginning of a line on.
#[derive(Clone, Copy)]
pub(crate) enum Seen {
    /// A whole line of this many octets.
    Line(usize),
    Fault(LineFault),
    More,
}

fn may_stand(octet: u8) -> bool
    ensures { result ≡ is_printable octet }
{
    matches!(octet, b' '..=b'~')
}

// Whether the printable octets in front go on through the next STRIDE ones. No octet ends the loop,
// so several are looked at together.
fn goes_on(octets: &[u8], len: usize) -> bool
    requires front { len ≤ prefix_len is_printable octets.now }
    requires room { len + STRIDE ≤ length octets.now }
    ensures { IsTrue result ↔ (len + STRIDE ≤ prefix_len is_printable octets.now) }
{
    let mut all = true;
    for i in 0..STRIDE {
        all &= may_stand(octets[len + i]);
    }
    all
}

/// How many printable octets stand in front. The first `known` of them are not looked at again.
pub(crate) fn printable_len(octets: &[u8], known: usize) -> usize
    requires { known ≤ prefix_len is_printable octets.now }
    ensures { result ≡ prefix_len is_printable octets.now }
{
    let mut len = known;
    'strides: while octets.len() - len >= STRIDE && goes_on(octets, len) {
        len += STRIDE;
    }
    'singles: while len < octets.len() && may_stand(octets[len]) {
        len += 1;
    }
    len
}

/// Looks for the end or the first fault of line `number`, after its printable octets.
pub(crate) fn scan(number: u32, octets: &[u8], printable: usize) -> Seen
    requires { printable ≡ prefix_len is_printable octets.now }
    ensures { Sees number octets.now result }
{
    if printable > 0 && number > MOST_LINES {
        return Seen::Fault(LineFault::TooManyLines(number, 1));
    }
    if printable > LONGEST_LINE {
        return Seen::Fault(LineFault::LineTooLong(number, LONGEST_LINE + 1));
    }
    if printable == octets.len() {
        return Seen::More;
    }
    if octets[printable] == b'\n' {
        if number > MOST_LINES {
            return Seen::Fault(LineFault::TooManyLines(number, 1));
        }
        return Seen::Line(printable);
    }
    if printable == LONGEST_LINE {
        return Seen::Fault(LineFault::LineTooLong(number, LONGEST_LINE + 1));
    }
    Seen::Fault(LineFault::NotAscii(number, printable + 1))
}
