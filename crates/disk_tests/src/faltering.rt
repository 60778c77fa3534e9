// Journals on a disk of which one call fails, whichever it is.
ghost use Rattle.std.specs.Prelude.{◌≡◌, ◌+◌, ◌^◌, ◌≤◌, None, length, IfOk};
ghost use Rattle.cds_base.specs.Counts.{HasCause};
ghost use Rattle.house_journal.specs.ClockProofs.{reads_left_lem, counts_now_lem, only_now_lem};
ghost use Rattle.house_journal.specs.MemoryDisks.{left_from, left_now, moment_of};
ghost use Rattle.house_journal.specs.Restarts.{CanBeOpened};

use cds_base::Failed;
use cds_stamps::AllocOr;
use house_journal::{Disk, DiskError, Journal, JournalFault, MemDisk};
use std::alloc::Global;
use std::test::Fail;

// A disk in memory of which the call of this number from now fails, once: it is done, and says that
// it failed. At 0 none does.
#[derive(Drop)]
struct Faltering {
    disk: MemDisk,
    left: u64,
    failed: u64,
}

impl Faltering {
    // Counts a call, which fails if it is the one.
    fn falter(&mut self) -> Result<(), Failed>
        ensures disk { self.new.disk ≡ self.old.disk }
        ensures cause { HasCause self.old.failed self.new.failed result }
    {
        match self.left {
            0 => Ok(()),
            1 => {
                self.left = 0;
                self.failed = self.failed.saturating_add(1);
                Err(Failed)
            }
            _ => {
                self.left -= 1;
                Ok(())
            }
        }
    }
}

impl Disk for Faltering {
    ghost reads = { λ d. d.disk.octets };

    ghost may_leave = { λ d c. left_now d.disk.steps d.disk.octets c };

    ghost moment = { λ d. moment_of d.disk.steps };

    ghost left_since = { λ d t c. left_from t d.disk.steps d.disk.octets c };

    ghost faults = { λ d. d.disk.faults + d.failed };

    ghost told = { λ d. None };

    ghost reads_left = { λ d. reads_left_lem d.disk.steps d.disk.octets };

    ghost counts_now = { λ d t c le now. counts_now_lem d.disk.steps d.disk.octets t c le now };

    ghost only_now = { λ d c left. only_now_lem d.disk.steps d.disk.octets c left };

    fn size(&mut self) -> Result<u64, Failed> {
        let size = self.disk.size()?;
        self.falter()?;
        Ok(size)
    }

    fn read_at(&mut self, at: u64, buf: &mut [u8]) -> Result<(), Failed> {
        self.disk.read_at(at, buf)?;
        self.falter()?;
        Ok(())
    }

    fn write_at(&mut self, at: u64, piece: &[u8]) -> Result<(), DiskError> {
        self.disk.write_at(at, piece)?;
        self.falter()?;
        Ok(())
    }

    fn cut(&mut self, size: u64) -> Result<(), DiskError> {
        self.disk.cut(size)?;
        self.falter()?;
        Ok(())
    }

    fn sync(&mut self) -> Result<(), Failed> {
        self.disk.sync()?;
        self.falter()?;
        Ok(())
    }
}

// A disk with the journal of one image.
fn disk_of_one(alloc: Global) -> Result<Faltering, Fail>
    ensures opens { IfOk result (λ d. CanBeOpened d.disk) }
    ensures size { IfOk result (λ d. length d.disk.octets ≤ 2 ^ 40) }
{
    let mut disk = Faltering {
        disk: MemDisk::new(alloc),
        left: 0,
        failed: 0,
    };
    let (mut journal, _) = Journal::open(alloc, &mut disk)?;
    journal.put(alloc, &mut disk, b"first")?;
    Ok(disk)
}

// Opens the journal of one image and puts one of no octets; false if a call of the disk failed.
// After a put that failed the journal asks to be opened again.
fn opens_and_puts(alloc: Global, disk: &mut Faltering) -> Result<bool, Fail>
    requires opens { CanBeOpened disk.old.disk }
    requires size { length disk.old.disk.octets ≤ 2 ^ 40 }
    ensures opens { IfOk result (λ _. CanBeOpened disk.new.disk) }
{
    let opened = Journal::open(alloc, disk);
    let Ok((mut journal, image)) = opened else {
        return Ok(false);
    };
    if image.as_deref() != Some(b"first") {
        return Err("another image".into());
    }
    let put = journal.put(alloc, disk, b"");
    if put.is_err() && journal.put(alloc, disk, b"") != Err(AllocOr::Fault(JournalFault::Reopen)) {
        return Err("a journal that goes on".into());
    }
    Ok(put.is_ok())
}

// The last image of the journal.
fn last_image(alloc: Global, disk: &mut Faltering) -> Result<Option<Vec<u8>>, Fail>
    requires opens { CanBeOpened disk.old.disk }
{
    let (_, image) = Journal::open(alloc, disk)?;
    Ok(image)
}

// How many calls that takes: eight and four. The last but one writes the gate.
const CALLS: u64 = 12;

#[test]
fn each_call_of_a_disk_fails_in_turn(rt: HostRuntime) -> Result<(), Fail> {
    let alloc = rt.alloc();
    for call in 1..=CALLS + 1 {
        let mut disk = disk_of_one(alloc)?;
        disk.left = call;
        assert_eq!(rt; opens_and_puts(alloc, &mut disk)?, call > CALLS);
        let wanted: &[u8] = if call + 1 < CALLS { b"first" } else { b"" };
        disk.left = 0;
        let image = last_image(alloc, &mut disk)?;
        assert!(rt; image.as_deref() == Some(wanted), "{call}");
    }
    Ok(())
}
