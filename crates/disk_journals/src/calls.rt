// Journals on disks in memory that never stop but where they are told to. After each call they do
// not stop any more.
ghost use Rattle.std.specs.Prelude.{◌≡◌, ◌≢◌, ◌+◌, ◌^◌, ◌<◌, ◌≤◌, ◌++◌, ◌∷◌, [], ℕ, List, true, Some, Err, IfOk, OnOk, OnErr, length, if◌then◌else◌};
ghost use Rattle.std.specs.Option.{option_map};
ghost use Rattle.house_journal.specs.JournalRecords.{images, last_image};
ghost use Rattle.house_journal.specs.Restarts.{CanBeOpened};
ghost use Rattle.house_journal.specs.declared.step.Stop.TheVariants.{Never};
ghost use Rattle.house_journal.specs.MemoryDisks.{left_now, told_of};
ghost use Rattle.house_journal.specs.Restarts.{begun_with, disk_after_restart};
ghost use Rattle.disk_journals.specs.KeptJournals.{Holds, HoldsEither, IsOpen, size_of, stops_after, with_image};
ghost use Rattle.disk_journals.specs.KeptJournals.{StopsAndOpens, TellsPutAt, told_opened};
ghost use Rattle.disk_journals.specs.declared.faults.Unkept.TheVariants as why;

use crate::faults::Unkept;
use cds_stamps::AllocOr;
use house_journal::laws::{a_put_is_told_by_its_calls, a_stop_comes_at_its_call};
use house_journal::{Journal, JournalFault, Leave, MemDisk};
use std::alloc::Global;

/// Opens the journal of a disk, and answers its last image. A crash leaves the images that were
/// there.
pub fn open(alloc: Global, disk: &mut MemDisk) -> Result<(Journal, Option<Vec<u8>>), Unkept>
    requires size { length disk.old.octets ≤ 2 ^ 40 }
    requires opens { CanBeOpened disk.old }
    requires never { disk.old.stop ≡ Never }
    ensures open { IfOk result (λ r. IsOpen r.0 disk.new) }
    ensures images { OnOk result (images disk.new.octets ≡ images disk.old.octets) }
    ensures last { IfOk result (λ r. option_map (λ v. v.items) r.1 ≡ last_image disk.old.octets) }
    ensures crash { (list : List (List ℕ)) → Holds disk.old list → Holds disk.new list }
    ensures told { OnOk result (told_of disk.new ≡ told_opened disk.old) }
    ensures never { disk.new.stop ≡ Never }
    ensures memory { result ≢ Err why.Full }
{
    match Journal::open(alloc, disk) {
        Ok(opened) => Ok(opened),
        Err(AllocOr::OutOfMemory) => Err(Unkept::OutOfMemory),
        Err(AllocOr::Fault(_)) => unreachable!(),
    }
}

/// Puts an image, if there is room. A crash leaves the images that were there, or this one too.
pub fn put(
    alloc: Global,
    journal: &mut Journal,
    disk: &mut MemDisk,
    image: &[u8],
) -> Result<(), Unkept>
    requires { IsOpen journal.old disk.old }
    ensures open { OnOk result (IsOpen journal.new disk.new) }
    ensures images { OnOk result (images disk.new.octets ≡ with_image disk.old image.now) }
    ensures crash { HoldsEither disk.new (images disk.old.octets) (with_image disk.old image.now) }
    ensures room { OnOk result (size_of (with_image disk.old image.now) ≤ 2 ^ 40) }
    ensures full { result ≡ Err why.Full → 2 ^ 40 < size_of (with_image disk.old image.now) }
    ensures lacking { 2 ^ 40 < size_of (with_image disk.old image.now) → result ≡ Err why.Full }
    ensures told { OnOk result (TellsPutAt journal.old.place image.now disk.old disk.new) }
    ensures never { disk.new.stop ≡ Never }
{
    match journal.put(alloc, disk, image) {
        Ok(()) => Ok(()),
        Err(AllocOr::OutOfMemory) => Err(Unkept::OutOfMemory),
        Err(AllocOr::Fault(JournalFault::Full)) => Err(Unkept::Full),
        Err(AllocOr::Fault(JournalFault::DiskFault | JournalFault::Reopen)) => unreachable!(),
    }
}

/// Puts an image, if there is room, and stops the disk at this writing call of the put, 1 to 4.
/// Then the disk starts again, with this leave, and the journal is opened. It has the image where
/// the gate was written and is kept. Where memory runs out on the way the disk starts again with
/// all that was written.
pub fn stopped_put(
    alloc: Global,
    journal: &mut Journal,
    disk: &mut MemDisk,
    image: &[u8],
    call: u8,
    leave: Leave,
) -> Result<(Journal, Option<Vec<u8>>), Unkept>
    requires open { IsOpen journal.old disk.old }
    requires first { 1 ≤ call }
    requires last { call ≤ 4 }
    ensures open { IfOk result (λ r. IsOpen r.0 disk.new) }
    ensures images { OnOk result (images disk.new.octets ≡ (if stops_after call leave
        then with_image disk.old image.now else images disk.old.octets)) }
    ensures last { IfOk result (λ r. option_map (λ v. v.items) r.1 ≡ last_image disk.new.octets) }
    ensures crash { HoldsEither disk.new (images disk.old.octets) (with_image disk.old image.now) }
    ensures room { OnOk result (size_of (with_image disk.old image.now) ≤ 2 ^ 40) }
    ensures full { result ≡ Err why.Full → 2 ^ 40 < size_of (with_image disk.old image.now) }
    ensures lacking { 2 ^ 40 < size_of (with_image disk.old image.now) → result ≡ Err why.Full }
    ensures stops { OnOk result
        (StopsAndOpens journal.old.place image.now call leave disk.old disk.new) }
    ensures never { disk.new.stop ≡ Never }
{
    a_put_is_told_by_its_calls();
    a_stop_comes_at_its_call();
    if !journal.has_room(image.len()) {
        return Err(Unkept::Full);
    }
    disk.stop(u64::from(call), leave);
    match journal.put(alloc, disk, image) {
        Err(AllocOr::Fault(JournalFault::DiskFault)) => {}
        Err(AllocOr::OutOfMemory) => {
            disk.restart_with_all();
            return Err(Unkept::OutOfMemory);
        }
        Err(AllocOr::Fault(JournalFault::Full)) => unreachable!(),
        Err(AllocOr::Fault(JournalFault::Reopen)) => unreachable!(),
        Ok(()) => unreachable!(),
    }
    restart(disk)?;
    open(alloc, disk)
}

// Starts a disk again; where memory runs out for that, with all that was written.
fn restart(disk: &mut MemDisk) -> Result<(), Unkept>
    ensures ok { OnOk result (disk.new ≡ disk_after_restart disk.old) }
    ensures err { OnErr result (disk.new ≡ begun_with disk.old.octets disk.old) }
    ensures lawful { left_now disk.old.steps disk.old.octets disk.new.octets }
    ensures memory { result ≢ Err why.Full }
{
    match disk.restart() {
        Ok(()) => Ok(()),
        Err(_) => {
            disk.restart_with_all();
            Err(Unkept::OutOfMemory)
        }
    }
}
