// Two images, one after the other.
ghost use Rattle.std.specs.Prelude.{◌≡◌, ◌≤◌, length, IfOk};
ghost use Rattle.cds_stamps.specs.Outcomes.{Answers};
ghost use Rattle.record_fields.specs.Decoding.{decode_by};
ghost use Rattle.record_fields.specs.MemoryFaults.{IfWant};
ghost use Rattle.cds_records.specs.Images.{either_image};
ghost use Rattle.cds_records.specs.RecordMemory.{WantsForImage};
ghost use Rattle.image_audit.specs.Pairs.{audit_verdict};
ghost use Rattle.image_audit.specs.PrivatePairs.{error_in, second_of};

use crate::auditor::audit;
use crate::verdict::Verdict;
use cds_messages::Image;
use cds_records::{RecordFault, decode_image, decode_image_1, whole_image};
use cds_stamps::{AllocOr, DirId};
use std::alloc::Global;
use thiserror::Error;

/// Why octets are not two images, one after the other.
#[derive(Clone, Copy, Debug, PartialEq, Eq, Drop, Error)]
#[error("image {image}: {fault}")]
pub struct PairFault {
    /// Which of the two: 1 or 2.
    pub image: u8,
    /// Its first fault. The place is counted from its own first octet.
    pub fault: RecordFault,
}

// What an image of format 1 begins with.
const FORMER_FORMAT: &[u8] = b"\x01";

// The image of either format at the front of the octets, and how many octets it has. Else the first
// fault.
fn front_image(alloc: Global, octets: &[u8]) -> Result<(Image, usize), AllocOr<RecordFault>>
    ensures answer { Answers result (decode_by either_image octets.now) }
    ensures within { IfOk result (λ r. r.1 ≤ length octets.now) }
    ensures wanting { IfWant (WantsForImage 1 2 octets.now) result }
{
    if octets.starts_with(FORMER_FORMAT) {
        decode_image_1(alloc, octets)
    } else {
        decode_image(alloc, octets)
    }
}

// The error of one of the two images.
fn of_image(image: u8, error: AllocOr<RecordFault>) -> AllocOr<PairFault>
    ensures { result ≡ error_in image error }
{
    match error {
        AllocOr::Fault(fault) => AllocOr::Fault(PairFault { image, fault }),
        AllocOr::OutOfMemory => AllocOr::OutOfMemory,
    }
}

// The second image, of either format: all that the octets are. Else the first fault.
fn second_image(alloc: Global, octets: &[u8]) -> Result<Image, AllocOr<PairFault>>
    ensures answer { Answers result (second_of octets.now) }
    ensures wanting { IfWant (WantsForImage 1 2 octets.now) result }
{
    match whole_image(alloc, octets) {
        Ok(second) => Ok(second),
        Err(error) => Err(of_image(2, error)),
    }
}

/// Audits a directory in the two images that the octets are, one after the other, each of either
/// format. Else the first fault of the first image that has one; where octets follow the second it
/// is Trailing. Of each image memory is asked for only after a whole head of it.
pub fn audit_octets(alloc: Global, octets: &[u8], dir: DirId) -> Result<Verdict, AllocOr<PairFault>>
    ensures answer { Answers result (audit_verdict octets.now dir) }
    ensures wanting { IfWant (WantsForImage 1 2 octets.now) result }
{
    let (first, used) = match front_image(alloc, octets) {
        Ok(read) => read,
        Err(error) => return Err(of_image(1, error)),
    };
    let second = match second_image(alloc, &octets[used..]) {
        Ok(second) => second,
        Err(error) => return Err(error),
    };
    Ok(audit(alloc, &first, &second, dir)?)
}
