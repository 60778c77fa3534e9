// The journal of a house, and its last image.
ghost use Rattle.std.specs.Prelude.{◌≡◌, ◌^◌, ◌<◌, ◌≤◌, ◌++◌, ◌∷◌, [], false, Some, Err, IfOk, OnOk};
ghost use Rattle.house_journal.specs.JournalRecords.{images};
ghost use Rattle.house_journal.specs.declared.step.Stop.TheVariants.{Never};
ghost use Rattle.disk_journals.specs.KeptJournals.{HoldsEither, IsKept, IsNew, NotesImage, is_last, noted_image, size_of, with_image};
ghost use Rattle.disk_journals.specs.declared.faults.Unkept.TheVariants as why;

use crate::calls::{open, put};
use crate::faults::Unkept;
use house_journal::{Journal, MOST_OCTETS, MemDisk};
use std::alloc::Global;

// The octets of the greatest image that has room in a new journal.
const MOST_FIRST: u64 = MOST_OCTETS - 10;

/// The journal of a house, and the last image in it.
#[derive(Drop)]
pub struct KeptHouse {
    pub journal: Journal,
    pub image: Vec<u8>,
}

/// Puts an image of a house, unless it is the last in its journal. A house without one gets it, on
/// its new disk. A crash leaves the images that were there, or this one too.
pub fn keep(
    alloc: Global,
    house: &mut Option<KeptHouse>,
    disk: &mut MemDisk,
    image: Vec<u8>,
) -> Result<(), Unkept>
    requires { IsKept house.old disk.old }
    ensures kept { OnOk result (IsKept house.new disk.new) }
    ensures images { OnOk result
        (images disk.new.octets ≡ noted_image image.items (images disk.old.octets)) }
    ensures crash { HoldsEither disk.new (images disk.old.octets)
        (noted_image image.items (images disk.old.octets)) }
    ensures room { OnOk result (is_last image.items (images disk.old.octets) ≡ false
        → size_of (images disk.old.octets ++ image.items ∷ []) ≤ 2 ^ 40) }
    ensures full { result ≡ Err why.Full → (is_last image.items (images disk.old.octets) ≡ false)
        × (2 ^ 40 < size_of (images disk.old.octets ++ image.items ∷ [])) }
    ensures lacking { is_last image.items (images disk.old.octets) ≡ false
        → 2 ^ 40 < size_of (images disk.old.octets ++ image.items ∷ []) → result ≡ Err why.Full }
    ensures never { disk.new.stop ≡ Never }
{
    match house {
        Some(kept) => keep_next(alloc, kept, disk, image),
        None => {
            *house = Some(keep_first(alloc, disk, image)?);
            Ok(())
        }
    }
}

// The first image of a house, on its new disk.
fn keep_first(alloc: Global, disk: &mut MemDisk, image: Vec<u8>) -> Result<KeptHouse, Unkept>
    requires { IsNew disk.old }
    ensures kept { IfOk result (λ k. IsKept (Some k) disk.new) }
    ensures images { OnOk result (images disk.new.octets ≡ with_image disk.old image.items) }
    ensures crash { HoldsEither disk.new (images disk.old.octets) (with_image disk.old image.items) }
    ensures room { OnOk result (size_of (with_image disk.old image.items) ≤ 2 ^ 40) }
    ensures full { result ≡ Err why.Full → 2 ^ 40 < size_of (with_image disk.old image.items) }
    ensures lacking { 2 ^ 40 < size_of (with_image disk.old image.items) → result ≡ Err why.Full }
    ensures never { disk.new.stop ≡ Never }
{
    if image.len() as u64 > MOST_FIRST {
        return Err(Unkept::Full);
    }
    let (mut journal, _) = open(alloc, disk)?;
    put(alloc, &mut journal, disk, &image)?;
    Ok(KeptHouse { journal, image })
}

// A further image of a house, unless it is the last.
fn keep_next(
    alloc: Global,
    kept: &mut KeptHouse,
    disk: &mut MemDisk,
    image: Vec<u8>,
) -> Result<(), Unkept>
    requires { IsKept (Some kept.old) disk.old }
    ensures kept { OnOk result (IsKept (Some kept.new) disk.new) }
    ensures noted { NotesImage image.items disk.old disk.new result }
    ensures never { disk.new.stop ≡ Never }
{
    if image == kept.image {
        return Ok(());
    }
    put(alloc, &mut kept.journal, disk, &image)?;
    kept.image = image;
    Ok(())
}
