// What a house keeps over a crash, and how it starts of that.
ghost use Rattle.std.specs.Prelude.{◌≡◌, ◌++◌, ◌<◌, ◌^◌, false, Ok, IfOk, OnOk, map as list_map};
ghost use Rattle.std.specs.FinMap as map;
ghost use Rattle.cds_stamps.specs.Outcomes.{Answers};
ghost use Rattle.cds_stamps.specs.declared.numbers.DirId as number;
ghost use Rattle.cds_records.specs.RecordOctets.{dir_octets, image_octets, kept_octets};
ghost use Rattle.record_fields.specs.FieldOctets.{items_octets};
ghost use Rattle.cds_records.specs.RecordRanges.{FitsDir, FitsImage};
ghost use Rattle.record_fields.specs.FieldRanges.{ItemsFit};
ghost use Rattle.record_fields.specs.MemoryFaults.{IfWant};
ghost use Rattle.cds_records.specs.RecordMemory.{WantsForImage};
ghost use Rattle.clearinghouse.specs.HouseImages.{image_of, kept_of, house_after_restart, start_of_octets, started_from, started_of};
ghost use Rattle.clearinghouse.specs.LawfulHouses.{IsLawful};

use crate::house::Clearinghouse;
use cds_messages::{Image, ImageDir, ImageDirs};
use cds_records::{ImageWriter, RecordFault, whole_image};
use cds_stamps::{AllocOr, DirId, Floor};
use house_directory::{DirState, DirStates, Held, latest_in_image};
use skulk_core::Skulk;
use std::alloc::{AllocError, Global};
use thiserror::Error;

/// Why a house does not start of octets.
#[derive(Clone, Copy, Debug, PartialEq, Eq, Drop, Error)]
pub enum StartFault {
    #[error("no image: {0}")]
    BadImage(RecordFault),
}

/// What a house has of a directory when it starts: no skulk runs.
fn started(kept: ImageDir) -> DirState
    ensures { result ≡ started_of kept }
{
    match kept {
        ImageDir::Held(epoch, members, replica) => DirState::Held(Held {
            epoch,
            members,
            replica,
            skulk: Skulk::Idle,
        }),
        ImageDir::Gone(epoch) => DirState::Gone(epoch),
    }
}

/// The directories of a house that starts.
fn started_dirs(alloc: Global, kept: ImageDirs) -> Result<DirStates, AllocError>
    ensures { IfOk result
        (λ d. d ≡ map.from_entries (list_map (λ e. (e.0, started_of e.1)) (map.entries kept))) }
{
    let mut dirs = DirStates::new(alloc);
    for (dir, state) in kept.into_entries() {
        dirs.insert(dir, started(state))?;
    }
    Ok(dirs)
}

/// Writes what is kept of the directory of this number after the others of an image.
fn write_state(state: &DirState, image: &mut ImageWriter, dir: DirId) -> Result<(), AllocError>
    ensures octets { OnOk result
        (image.new ≡ image.old ++ (dir_octets dir ++ kept_octets (kept_of state.now))) }
    ensures fits { OnOk result ((dir.0 < 2 ^ 32) × FitsDir (kept_of state.now)) }
{
    match state {
        DirState::Held(held) => image.held(dir, held.epoch, &held.members, &held.replica),
        DirState::Gone(epoch) => image.gone(dir, *epoch),
    }
}

/// Writes what is kept of the directories after the head of an image.
fn write_states(states: &DirStates, image: &mut ImageWriter) -> Result<(), AllocError>
    ensures octets { OnOk result
        (image.new ≡ image.old
        ++ items_octets dir_octets (λ s. kept_octets (kept_of s)) (map.entries states.now)) }
    ensures fits { OnOk result
        (ItemsFit (λ (d : number.DirId). d.0 < 2 ^ 32) (λ s. FitsDir (kept_of s))
        (map.entries states.now)) }
{
    for (dir, state) in states.iter() {
        write_state(state, image, *dir)?;
    }
    Ok(())
}

impl Clearinghouse {
    /// The octets of what it keeps over a crash. `start` makes of them the clearinghouse that a
    /// crash and a start leave. Put them into a journal after each call that changes the house, and
    /// before anything of that call is sent.
    pub fn image(&self, alloc: Global) -> Result<Vec<u8>, AllocError>
        ensures usable { IfOk result (λ _. self.now.spent ≡ false) }
        ensures octets { IfOk result (λ v. v.items ≡ image_octets (image_of self.now)) }
        ensures fits { IfOk result (λ _. FitsImage (image_of self.now)) }
        ensures starts { IfOk result (λ v. IsLawful self.now
            → start_of_octets v.items ≡ Ok (house_after_restart self.now)) }
    {
        self.usable()?;
        let count = self.dirs.len() as u64;
        let mut image = ImageWriter::new(alloc, self.house, self.node, self.floor.time, count)?;
        write_states(&self.dirs, &mut image)?;
        Ok(image.octets())
    }

    /// The house that kept these octets, in either format, with no skulk that runs; its floor is
    /// raised to the greatest time in them. Memory is asked for only after a whole head of an
    /// image, so a fault in the head is never answered as out of memory. Start a house from its
    /// last image and from no earlier one, and only once: from an earlier one it gives stamps a
    /// second time.
    pub fn start(alloc: Global, octets: &[u8]) -> Result<Clearinghouse, AllocOr<StartFault>>
        ensures answer { Answers result (start_of_octets octets.now) }
        ensures wanting { IfWant (WantsForImage 1 2 octets.now) result }
        ensures lawful { IfOk result IsLawful }
    {
        let image = match whole_image(alloc, octets) {
            Ok(image) => image,
            Err(AllocOr::Fault(fault)) => return Err(AllocOr::Fault(StartFault::BadImage(fault))),
            Err(AllocOr::OutOfMemory) => return Err(AllocOr::OutOfMemory),
        };
        let house = started_house(alloc, image)?;
        Ok(house)
    }
}

/// The house that starts of an image.
fn started_house(alloc: Global, image: Image) -> Result<Clearinghouse, AllocError>
    ensures { IfOk result (λ c. c ≡ started_from image) }
{
    let time = latest_in_image(&image);
    Ok(Clearinghouse {
        house: image.house,
        node: image.node,
        floor: Floor { time },
        dirs: started_dirs(alloc, image.dirs)?,
        spent: false,
    })
}
