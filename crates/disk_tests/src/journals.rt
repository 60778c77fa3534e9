// Journals on a disk in memory that is stopped at each of its calls.
ghost use Rattle.std.specs.Prelude.{◌^◌, ◌≤◌, length, IfOk};
ghost use Rattle.house_journal.specs.Restarts.{CanBeOpened};

use cds_stamps::AllocOr;
use house_journal::{Journal, JournalFault, Leave, MOST_OCTETS, MemDisk};
use std::alloc::Global;
use std::test::Fail;

static LEAVES: [Leave; 3] = [Leave::Keep, Leave::Drop, Leave::Torn];

// Of each stop the put answers DiskFault, and then Reopen; the new image, which has no octets, is
// there exactly where its gate was written and is kept; and the journal goes on.
#[test]
fn a_stopped_put_leaves_the_image_of_before_or_the_new_one(rt: HostRuntime) -> Result<(), Fail> {
    let alloc = rt.alloc();
    for leave in LEAVES {
        for call in 1..=4 {
            let mut disk = MemDisk::new(alloc);
            let (mut journal, none) = Journal::open(alloc, &mut disk)?;
            assert!(rt; none.is_none());
            journal.put(alloc, &mut disk, b"first")?;
            disk.stop(call, leave);
            let stopped = journal.put(alloc, &mut disk, b"");
            assert_eq!(rt; stopped, Err(AllocOr::Fault(JournalFault::DiskFault)));
            let again = journal.put(alloc, &mut disk, b"");
            assert_eq!(rt; again, Err(AllocOr::Fault(JournalFault::Reopen)));
            disk.restart()?;
            let (mut journal, image) = Journal::open(alloc, &mut disk)?;
            let is_new = call > 2 && leave == Leave::Keep;
            let wanted: &[u8] = if is_new { b"" } else { b"first" };
            assert!(rt; image.as_deref() == Some(wanted));
            journal.put(alloc, &mut disk, b"third")?;
            let (_, image) = Journal::open(alloc, &mut disk)?;
            assert!(rt; image.as_deref() == Some(b"third"));
        }
    }
    Ok(())
}

// A disk with the journal of one image, and with the octets of another after its closed gate.
fn disk_with_a_rest(alloc: Global) -> Result<MemDisk, Fail>
    ensures opens { IfOk result CanBeOpened }
    ensures size { IfOk result (λ d. length d.octets ≤ 2 ^ 40) }
{
    let mut disk = MemDisk::new(alloc);
    let (mut journal, _) = Journal::open(alloc, &mut disk)?;
    journal.put(alloc, &mut disk, b"first")?;
    disk.stop(1, Leave::Keep);
    if journal.put(alloc, &mut disk, b"second").is_ok() {
        return Err(Fail::new("the put was not stopped"));
    }
    disk.restart()?;
    Ok(disk)
}

// An empty disk is opened by five calls that write, cut or sync, and that one by three.
#[test]
fn a_stopped_open_leaves_the_image_that_it_found(rt: HostRuntime) -> Result<(), Fail> {
    let alloc = rt.alloc();
    for leave in LEAVES {
        for call in 1..=6 {
            let mut disk = MemDisk::new(alloc);
            disk.stop(call, leave);
            assert_eq!(rt; Journal::open(alloc, &mut disk).is_err(), call <= 5);
            disk.restart()?;
            let (_, image) = Journal::open(alloc, &mut disk)?;
            assert!(rt; image.is_none());
            let mut disk = disk_with_a_rest(alloc)?;
            disk.stop(call, leave);
            assert_eq!(rt; Journal::open(alloc, &mut disk).is_err(), call <= 3);
            disk.restart()?;
            let (_, image) = Journal::open(alloc, &mut disk)?;
            assert!(rt; image.as_deref() == Some(b"first"));
        }
    }
    Ok(())
}

// A record has 10 octets more than its image, of which the last is the next record's first.
#[test]
fn a_journal_has_room_up_to_its_greatest_size(rt: HostRuntime) -> Result<(), Fail> {
    let alloc = rt.alloc();
    let mut disk = MemDisk::new(alloc);
    let (mut journal, _) = Journal::open(alloc, &mut disk)?;
    let most = MOST_OCTETS as usize - 10;
    assert!(rt; journal.has_room(most));
    assert!(rt; !journal.has_room(most + 1));
    journal.put(alloc, &mut disk, b"four")?;
    assert!(rt; journal.has_room(most - 13));
    assert!(rt; !journal.has_room(most - 12));
    assert!(rt; !journal.has_room(usize::MAX));
    Ok(())
}
