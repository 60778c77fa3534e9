// Octets of images.
ghost use Rattle.std.specs.Prelude.{◌≡◌, ◌++◌, ◌<◌, ◌^◌, IfOk, OnOk};
ghost use Rattle.std.specs.FinMap.{entries};
ghost use Rattle.cds_stamps.specs.declared.numbers.DirId as number;
ghost use Rattle.record_fields.specs.Decoding.{IsWhole};
ghost use Rattle.cds_records.specs.Images as images;
ghost use Rattle.record_fields.specs.FieldOctets.{each_octets};
ghost use Rattle.cds_records.specs.RecordOctets.{dir_octets, kept_octets, image_head, image_octets};
ghost use Rattle.record_fields.specs.FieldRanges.{ItemsFit};
ghost use Rattle.cds_records.specs.RecordRanges.{FitsDir};
ghost use Rattle.cds_messages.specs.Validity.{IsValidImage};
ghost use Rattle.cds_messages.specs.declared.image.ImageDir.TheVariants as states;

use crate::encoding::put_members;
use crate::format::{FORMAT, GONE, HELD, IMAGE};
use crate::writing::put_replica;
use cds_messages::{Image, ImageDir, ImageDirs};
use cds_stamps::{DirId, EpochNo, HouseNo, Members, Node};
use purge_rule::Replica;
use record_fields::{put_node, put_octet, put_u32, put_u64};
use std::alloc::{AllocError, Global};
use std::marker::Model;

/// The octets of an image. They are the whole of it if its tables are valid.
pub fn encode_image(alloc: Global, image: &Image) -> Result<Vec<u8>, AllocError>
    ensures octets { IfOk result (λ v. v.items ≡ image_octets image.now) }
    ensures whole { IfOk result (λ v. IsValidImage image.now
        → IsWhole images.image image.now v.items) }
{
    let count = image.dirs.len() as u64;
    let mut out = begin_image(alloc, image.house, image.node, image.floor, count)?;
    put_dirs(&mut out, &image.dirs)?;
    Ok(out)
}

/// What is before the directories, of which there are so many.
fn begin_image(
    alloc: Global,
    house: HouseNo,
    node: Node,
    floor: u64,
    count: u64,
) -> Result<Vec<u8>, AllocError>
    ensures octets { IfOk result (λ v. v.items ≡ image_head house.0 node floor count) }
    ensures node { node < 2 ^ 48 }
    ensures floor { floor < 2 ^ 64 }
{
    let mut out = Vec::new(alloc);
    put_octet(&mut out, FORMAT)?;
    put_octet(&mut out, IMAGE)?;
    put_octet(&mut out, house.0)?;
    put_node(&mut out, node)?;
    put_u64(&mut out, floor)?;
    put_u64(&mut out, count)?;
    Ok(out)
}

/// A directory that is held: its number, its epoch, its members, its replica, and how much that
/// holds.
fn put_held(
    out: &mut Vec<u8>,
    dir: DirId,
    epoch: EpochNo,
    members: &Members,
    replica: &Replica,
) -> Result<(), AllocError>
    ensures octets { OnOk result (
        out.new.items
        ≡ out.old.items
        ++ (dir_octets dir ++ kept_octets (states.Held epoch members.now replica.now))) }
    ensures fits { OnOk result ((dir.0 < 2 ^ 32)
        × FitsDir (states.Held epoch members.now replica.now)) }
{
    put_u32(out, dir.0)?;
    put_octet(out, HELD)?;
    put_u64(out, epoch.0)?;
    put_members(out, members.list())?;
    put_replica(out, replica)?;
    put_u64(out, replica.held())?;
    Ok(())
}

/// A directory that the house has left: its number, and the epoch of that.
fn put_gone(out: &mut Vec<u8>, dir: DirId, epoch: EpochNo) -> Result<(), AllocError>
    ensures octets { OnOk result
        (out.new.items ≡ out.old.items ++ (dir_octets dir ++ kept_octets (states.Gone epoch))) }
    ensures fits { OnOk result ((dir.0 < 2 ^ 32) × FitsDir (states.Gone epoch)) }
{
    put_u32(out, dir.0)?;
    put_octet(out, GONE)?;
    put_u64(out, epoch.0)?;
    Ok(())
}

/// A directory.
fn put_dir(out: &mut Vec<u8>, dir: &DirId, kept: &ImageDir) -> Result<(), AllocError>
    ensures octets { OnOk result
        (out.new.items ≡ out.old.items ++ (dir_octets dir.now ++ kept_octets kept.now)) }
    ensures fits { OnOk result ((dir.now.0 < 2 ^ 32) × FitsDir kept.now) }
{
    match kept {
        ImageDir::Held(epoch, members, replica) => put_held(out, *dir, *epoch, members, replica),
        ImageDir::Gone(epoch) => put_gone(out, *dir, *epoch),
    }
}

/// The directories of an image.
fn put_dirs(out: &mut Vec<u8>, dirs: &ImageDirs) -> Result<(), AllocError>
    ensures octets { OnOk result
        (out.new.items ≡ out.old.items ++ each_octets dir_octets kept_octets dirs.now) }
    ensures fits { OnOk result
        (ItemsFit (λ (d : number.DirId). d.0 < 2 ^ 32) FitsDir (entries dirs.now)) }
{
    for (dir, kept) in dirs.iter() {
        put_dir(out, dir, kept)?;
    }
    Ok(())
}

/// An image in the making, written from borrowed parts. It is seen as the octets that stand there;
/// after it ran out of memory some of a directory may be among them.
#[derive(Drop)]
pub struct ImageWriter {
    out: Vec<u8>,
}

impl Model for ImageWriter {
    ghost use Rattle.std.specs.Prelude.{ℕ, List};

    ghost Value = { List ℕ };

    ghost view = { λ w. w.out.items };
}

impl ImageWriter {
    /// The octets before the directories, of which there are so many.
    pub fn new(
        alloc: Global,
        house: HouseNo,
        node: Node,
        floor: u64,
        count: u64,
    ) -> Result<ImageWriter, AllocError>
        ensures octets { IfOk result (λ w. w ≡ image_head house.0 node floor count) }
        ensures node { node < 2 ^ 48 }
        ensures floor { floor < 2 ^ 64 }
    {
        let out = begin_image(alloc, house, node, floor, count)?;
        Ok(ImageWriter { out })
    }

    /// The next directory, which the house holds.
    pub fn held(
        &mut self,
        dir: DirId,
        epoch: EpochNo,
        members: &Members,
        replica: &Replica,
    ) -> Result<(), AllocError>
        ensures octets { OnOk result (
            self.new ≡ self.old
            ++ (dir_octets dir ++ kept_octets (states.Held epoch members.now replica.now))) }
        ensures fits { OnOk result ((dir.0 < 2 ^ 32)
            × FitsDir (states.Held epoch members.now replica.now)) }
    {
        put_held(&mut self.out, dir, epoch, members, replica)
    }

    /// The next directory, which the house has left.
    pub fn gone(&mut self, dir: DirId, epoch: EpochNo) -> Result<(), AllocError>
        ensures octets { OnOk result
            (self.new ≡ self.old ++ (dir_octets dir ++ kept_octets (states.Gone epoch))) }
        ensures fits { OnOk result ((dir.0 < 2 ^ 32) × FitsDir (states.Gone epoch)) }
    {
        put_gone(&mut self.out, dir, epoch)
    }

    /// The octets of the image.
    pub fn octets(self) -> Vec<u8>
        ensures { result.items ≡ self }
    {
        self.out
    }
}
