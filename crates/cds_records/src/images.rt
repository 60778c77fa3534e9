// Readers of images.
ghost use Rattle.std.specs.Prelude.{◌≡◌, Some, None, OnOk, if◌then◌else◌};
ghost use Rattle.std.specs.FinMap as map;
ghost use Rattle.std.specs.Int.{w32};
ghost use Rattle.std.specs.Option.{option_map};
ghost use Rattle.record_fields.specs.FieldReaders.{Reads, ReadsSurely, Adds};
ghost use Rattle.record_fields.specs.Fields.{number_order, number};
ghost use Rattle.record_fields.specs.ListLayouts.{item, map_of};
ghost use Rattle.cds_messages.specs.Dirs.{dir_cmp};
ghost use Rattle.cds_records.specs.Images.{dir_number, held_count, held_directory, dir_state, image_in};
ghost use Rattle.record_fields.specs.MemoryFaults.{IfWant};
ghost use Rattle.cds_records.specs.RecordMemory.{WantsForImage};
ghost use Rattle.record_fields.specs.declared.fault.Rule.TheVariants.{OutOfOrder};

use crate::format::{FORMER_FORMAT, GONE, HELD, IMAGE};
use crate::members::read_members;
use crate::tables::read_replica;
use cds_messages::{Image, ImageDir, ImageDirs};
use cds_stamps::{DirId, EpochNo, HouseNo};
use purge_rule::Replica;
use record_fields::{Broken, ReadError, Reader, Rule, broken};
use std::alloc::{AllocError, Global};

/// A directory above the one before it.
#[tactic(auto, unfolding(crate::specs::Images::dir_number, record_fields::specs::Fields::number))]
fn read_dir_number(reader: &mut Reader<'_>, before: Option<DirId>) -> Result<DirId, Broken>
    ensures { ReadsSurely (λ x. x) (dir_number before) reader.old reader.new result }
{
    let left = reader.left();
    let number = reader.u32()?;
    if is_unordered_dir(number, before) {
        return Err(broken(Rule::OutOfOrder, left));
    }
    Ok(DirId(number))
}

/// The count after a replica, which is how much it holds. In format 1 none is there.
#[tactic(auto, unfolding(crate::specs::Images::held_count, record_fields::specs::Fields::number))]
fn read_held_count(reader: &mut Reader<'_>, format: u8, replica: &Replica) -> Result<(), Broken>
    ensures { ReadsSurely (λ x. x) (held_count format replica.now) reader.old reader.new result }
{
    if format == FORMER_FORMAT {
        return Ok(());
    }
    let left = reader.left();
    let count = reader.u64()?;
    if count != replica.held() {
        return Err(broken(Rule::BadHeld, left));
    }
    Ok(())
}

/// The members and the replica of a directory that is held.
#[tactic(auto, unfolding(crate::specs::Images::held_directory))]
fn read_held_dir(
    reader: &mut Reader<'_>,
    alloc: Global,
    format: u8,
    epoch: u64,
) -> Result<ImageDir, ReadError>
    ensures { Reads (λ x. x) (held_directory format epoch) reader.old reader.new result }
{
    let members = read_members(reader, alloc, format)?;
    let replica = read_replica(reader, alloc)?;
    read_held_count(reader, format, &replica)?;
    Ok(ImageDir::Held(EpochNo(epoch), members, replica))
}

/// What is kept of a directory.
#[tactic(auto, unfolding(crate::specs::Images::dir_state))]
fn read_dir_state(reader: &mut Reader<'_>, alloc: Global, format: u8) -> Result<ImageDir, ReadError>
    ensures { Reads (λ x. x) (dir_state format) reader.old reader.new result }
{
    let state = reader.octet_within(Rule::BadFlag, HELD, GONE)?;
    let epoch = reader.u64()?;
    if state == GONE {
        return Ok(ImageDir::Gone(EpochNo(epoch)));
    }
    let dir = read_held_dir(reader, alloc, format, epoch)?;
    Ok(dir)
}

/// Adds the next directory. Its number.
#[tactic(auto, unfolding(record_fields::specs::ListLayouts::item))]
fn add_dir(
    reader: &mut Reader<'_>,
    alloc: Global,
    format: u8,
    dirs: &mut ImageDirs,
    before: Option<DirId>,
) -> Result<DirId, ReadError>
    ensures { Adds (λ x. x)
        (item dir_number (dir_state format) before) dirs.old dirs.new reader.old reader.new result }
{
    let own = read_dir_number(reader, before)?;
    let state = read_dir_state(reader, alloc, format)?;
    insert_dir(dirs, own, state)?;
    Ok(own)
}

/// So many directories, ascending.
fn read_dirs(
    reader: &mut Reader<'_>,
    alloc: Global,
    format: u8,
    count: u64,
) -> Result<ImageDirs, ReadError>
    ensures { Reads (λ x. x)
        (map_of {R = dir_cmp} dir_number (dir_state format) count) reader.old reader.new result }
{
    let mut dirs = ImageDirs::new(alloc);
    let mut before = None;
    for _ in 0..count {
        let own = add_dir(reader, alloc, format, &mut dirs, before)?;
        before = Some(own);
    }
    Ok(dirs)
}

/// An image of one of these formats.
#[tactic(auto, unfolding(crate::specs::Images::image_in, crate::specs::Images::image_behind))]
pub(crate) fn read_image(
    reader: &mut Reader<'_>,
    alloc: Global,
    least: u8,
    most: u8,
) -> Result<Image, ReadError>
    ensures read { Reads (λ x. x) (image_in least most) reader.old reader.new result }
    ensures wanting { IfWant (WantsForImage least most reader.old) result }
{
    let format = reader.octet_within(Rule::BadTag, least, most)?;
    let _tag = reader.octet_within(Rule::BadTag, IMAGE, IMAGE)?;
    let house = reader.octet()?;
    let node = reader.node()?;
    let floor = reader.u64()?;
    let count = reader.u64()?;
    let dirs = read_dirs(reader, alloc, format, count)?;
    Ok(Image {
        house: HouseNo(house),
        node,
        floor,
        dirs,
    })
}

/// Whether a directory is not above the one before it.
fn is_unordered_dir(number: u32, before: Option<DirId>) -> bool
    ensures { number_order (option_map (λ d. d.0) before) number
        ≡ (if result then Some OutOfOrder else None) }
{
    match before {
        Some(before) => number <= before.0,
        None => false,
    }
}

/// Keeps this of a new directory.
fn insert_dir(dirs: &mut ImageDirs, dir: DirId, state: ImageDir) -> Result<(), AllocError>
    ensures { OnOk result (dirs.new ≡ map.insert dirs.old dir state) }
{
    dirs.insert(dir, state)?;
    Ok(())
}
