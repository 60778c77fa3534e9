// Messages and images from octets.
ghost use Rattle.std.specs.Prelude.{◌≡◌, length, IfOk};
ghost use Rattle.std.specs.Result.{result_map_both};
ghost use Rattle.cds_stamps.specs.Outcomes.{Answers};
ghost use Rattle.cds_records.specs.Images.{image, image_1, image_in};
ghost use Rattle.cds_records.specs.Migration as migration;
ghost use Rattle.cds_records.specs.Records.{message};
ghost use Rattle.record_fields.specs.Decoding.{error_of, IsLeftWithin, IsWhole, Decodes};
ghost use Rattle.cds_messages.specs.declared.image.Image.{Image};
ghost use Rattle.record_fields.specs.MemoryFaults.{IfWant};
ghost use Rattle.cds_records.specs.RecordMemory.{WantsForMessage, WantsForImage};
ghost use Rattle.cds_messages.specs.Validity.{IsValidImage, IsValidMessage};

use crate::bodies::read_message;
use crate::format::{FORMAT, FORMER_FORMAT};
use crate::image_encoding::encode_image;
use crate::images::read_image;
use cds_messages::{Image, Message};
use cds_stamps::AllocOr;
use record_fields::{ReadError, Reader, RecordFault, Rule};
use std::alloc::Global;

/// The message at the front of the octets, and how many octets it has; other octets may follow it.
/// Else the first fault.
pub fn decode(alloc: Global, octets: &[u8]) -> Result<(Message, usize), AllocOr<RecordFault>>
    ensures decodes { Decodes message octets.now result }
    ensures valid { IfOk result (λ r. IsValidMessage r.0) }
    ensures wanting { IfWant (WantsForMessage octets.now) result }
{
    let mut reader = Reader::new(octets);
    match read_message(&mut reader, alloc) {
        Ok(message) => Ok((message, octets.len() - reader.left())),
        Err(error) => Err(fault_from(error, octets)),
    }
}

/// The image at the front of the octets, and how many octets it has; other octets may follow it.
/// Else the first fault.
#[tactic(auto, unfolding(crate::specs::Images::image))]
pub fn decode_image(alloc: Global, octets: &[u8]) -> Result<(Image, usize), AllocOr<RecordFault>>
    ensures decodes { Decodes image octets.now result }
    ensures valid { IfOk result (λ r. IsValidImage r.0) }
    ensures wanting { IfWant (WantsForImage 2 2 octets.now) result }
{
    decode_image_in(alloc, octets, FORMAT, FORMAT)
}

/// The same of an image of format 1, which has no counts of what its replicas hold.
#[tactic(auto, unfolding(crate::specs::Images::image_1))]
pub fn decode_image_1(alloc: Global, octets: &[u8]) -> Result<(Image, usize), AllocOr<RecordFault>>
    ensures decodes { Decodes image_1 octets.now result }
    ensures valid { IfOk result (λ r. IsValidImage r.0) }
    ensures wanting { IfWant (WantsForImage 1 1 octets.now) result }
{
    decode_image_in(alloc, octets, FORMER_FORMAT, FORMER_FORMAT)
}

/// The image of either format that the octets are. Else the first fault; where octets follow an
/// image it is Trailing, at the first of them.
pub fn whole_image(alloc: Global, octets: &[u8]) -> Result<Image, AllocOr<RecordFault>>
    ensures answer { Answers result (migration.whole_image octets.now) }
    ensures valid { IfOk result IsValidImage }
    ensures wanting { IfWant (WantsForImage 1 2 octets.now) result }
{
    let (image, used) = decode_image_in(alloc, octets, FORMER_FORMAT, FORMAT)?;
    if used < octets.len() {
        return Err(AllocOr::Fault(RecordFault {
            rule: Rule::Trailing,
            place: used + 1,
        }));
    }
    Ok(image)
}

/// The octets in format 2 of the image of either format that the octets are. Else the fault of
/// `whole_image`.
pub fn migrate_image(alloc: Global, octets: &[u8]) -> Result<Vec<u8>, AllocOr<RecordFault>>
    ensures answer { Answers (result_map_both (λ v. v.items) (λ e. e) result)
        (migration.migrated_image octets.now) }
    ensures format_2 { IfOk result (λ v. (i : Image) × IsWhole image i v.items) }
    ensures wanting { IfWant (WantsForImage 1 2 octets.now) result }
{
    let image = whole_image(alloc, octets)?;
    let migrated = encode_image(alloc, &image)?;
    Ok(migrated)
}

/// The image of one of these formats at the front of the octets, and how many octets it has. Else
/// the first fault.
fn decode_image_in(
    alloc: Global,
    octets: &[u8],
    least: u8,
    most: u8,
) -> Result<(Image, usize), AllocOr<RecordFault>>
    ensures decodes { Decodes (image_in least most) octets.now result }
    ensures valid { IfOk result (λ r. IsValidImage r.0) }
    ensures wanting { IfWant (WantsForImage least most octets.now) result }
{
    let mut reader = Reader::new(octets);
    match read_image(&mut reader, alloc, least, most) {
        Ok(image) => Ok((image, octets.len() - reader.left())),
        Err(error) => Err(fault_from(error, octets)),
    }
}

/// The error of a reader of these octets, by its place.
fn fault_from(error: ReadError, octets: &[u8]) -> AllocOr<RecordFault>
    requires { IsLeftWithin (length octets.now) error }
    ensures { result ≡ error_of (length octets.now) error }
{
    match error {
        AllocOr::Fault(broken) => AllocOr::Fault(RecordFault {
            rule: broken.rule,
            place: octets.len() - broken.left + 1,
        }),
        AllocOr::OutOfMemory => AllocOr::OutOfMemory,
    }
}
