// The head of a segment.
ghost use Rattle.std.specs.Prelude.{◌≡◌, ◌++◌, IfOk};
ghost use Rattle.house_entries.specs.Bodies.{head_of};

use itoa::Buffer;
use std::alloc::{AllocError, Global};

/// The first record of the segment of this number: a line that says so, and the digest of the last
/// record of the segment before.
pub fn head_octets(alloc: Global, number: u64, before: &[u8]) -> Result<Vec<u8>, AllocError>
    ensures { IfOk result (λ v. v.items ≡ head_of number before.now) }
{
    let mut digits = Buffer::new();
    let mut octets = Vec::from_slice(alloc, b"cdshouse journal 2 ")?;
    octets.extend_from_slice(digits.format(number).as_bytes())?;
    octets.push(b'\n')?;
    octets.extend_from_slice(before)?;
    Ok(octets)
}
