// A disk in memory, which can be stopped at each of its writing calls and started again.
ghost use Rattle.std.specs.Prelude.{◌≡◌, ◌≤◌, ◌↔◌, ◌++◌, ℕ, List, [], true, false, Some, length, take, IsTrue, OnOk, OnErr};
ghost use Rattle.cds_base.specs.Counts.{HasCause};
ghost use Rattle.house_journal.specs.Disks.{with_piece};
ghost use Rattle.house_journal.specs.MemoryDisks.{after_write_call, after_read_call, fails, has_stopped, noted_write, noted_cut, noted_sync};
ghost use Rattle.house_journal.specs.MemoryDisks.{changes_in, left_now, left_from, moment_of, told_of, stop_with};
ghost use Rattle.house_journal.specs.CrashSets.{IsLeft};
ghost use Rattle.house_journal.specs.Restarts.{CanBeOpened, MayLose, MayLoseBy, begun_with, left_of, disk_after_restart};
ghost use Rattle.house_journal.specs.ClockProofs.{reads_left_lem, counts_now_lem, only_now_lem};
ghost use Rattle.house_journal.specs.declared.step.Stop.TheVariants.{Never};

use crate::restart::{first_changed, torn, unwound};
use crate::step::{Step, Stop};
use crate::{Disk, DiskError, Leave};
use cds_base::Failed;
use cds_stamps::Octets;
use std::alloc::{AllocError, Global};
use std::marker::Model;

/// A disk in memory. It keeps its octets as they read, and of each write and cut the octets that it
/// replaced or cut off, so what is put at its end is kept once.
#[derive(Drop)]
pub struct MemDisk {
    alloc: Global,
    octets: Vec<u8>,
    // the oldest first
    steps: Vec<Step>,
    calls: u64,
    faults: u64,
    stop: Stop,
}

impl Model for MemDisk {
    ghost use Rattle.std.specs.Prelude.{reverse};
    ghost use Rattle.house_journal.specs.MemoryDisks.{Fits, MemState};

    ghost Value = { MemState };

    ghost view = { λ m. record {
      octets = m.octets.items;
      steps = reverse m.steps.items;
      calls = m.calls;
      faults = m.faults;
      stop = m.stop;
    } };

    ghost invariant = { λ m. Fits (reverse m.steps.items) m.octets.items };
}

/// Writes a piece over octets, and past their end.
pub(crate) fn overwrite(octets: &mut Vec<u8>, at: usize, piece: &[u8]) -> Result<(), AllocError>
    requires { at ≤ length octets.old.items }
    ensures ok { OnOk result (octets.new.items ≡ with_piece octets.old.items at piece.now) }
    ensures err { OnErr result (octets.new.items ≡ octets.old.items) }
{
    let over = piece.len().min(octets.len() - at);
    octets.extend_from_slice(&piece[over..])?;
    octets[at..at + over].copy_from_slice(&piece[..over]);
    Ok(())
}

impl MemDisk {
    /// An empty disk. Takes no memory.
    pub fn new(alloc: Global) -> MemDisk
        ensures empty { result
            ≡ record { octets = []; steps = []; calls = 0; faults = 0; stop = Never } }
        ensures opens { CanBeOpened result }
    {
        MemDisk {
            alloc,
            octets: Vec::new(alloc),
            steps: Vec::new(alloc),
            calls: 0,
            faults: 0,
            stop: Stop::Never,
        }
    }

    /// Lets the `at`-th call from now that writes, cuts or syncs fail, and all later calls. That
    /// call, if it writes or cuts, is done and not synced; the later ones do nothing. A disk that
    /// has stopped stays so, with the new leave.
    pub fn stop(&mut self, at: u64, leave: Leave)
        requires { 1 ≤ at }
        ensures { self.new ≡ record self.old { stop = stop_with at leave self.old.stop } }
    {
        self.stop = match self.stop {
            Stop::Stopped(_) => Stop::Stopped(leave),
            _ => Stop::After(at - 1, leave),
        };
    }

    /// Ends the stop, by its leave: all that was written is there, or what was there at the last
    /// sync, or that and of each write since then the first half, rounded down, with 255 in the
    /// rest of what lay past the end. A disk that was not told to stop stays as it is; after
    /// `OutOfMemory` it is as before.
    pub fn restart(&mut self) -> Result<(), AllocError>
        ensures ok { OnOk result (self.new ≡ disk_after_restart self.old) }
        ensures lawful { OnOk result (left_now self.old.steps self.old.octets self.new.octets) }
        ensures kept { CanBeOpened self.old → CanBeOpened self.new }
        ensures err { OnErr result (self.new ≡ self.old) }
        ensures memory { OnErr result (MayLoseBy self.old.stop self.old) }
    {
        match self.stop {
            Stop::Never => Ok(()),
            Stop::After(_, leave) | Stop::Stopped(leave) => self.begin_by(leave),
        }
    }

    /// Ends the stop with all that was written, whatever its leave is. Takes no memory.
    pub fn restart_with_all(&mut self)
        ensures on { self.new ≡ begun_with self.old.octets self.old }
        ensures lawful { left_now self.old.steps self.old.octets self.new.octets }
        ensures kept { CanBeOpened self.old → CanBeOpened self.new }
    {
        self.begin()
    }

    // Begins anew with what a stop leaves.
    fn begin_by(&mut self, leave: Leave) -> Result<(), AllocError>
        ensures ok { OnOk result (self.new ≡ begun_with (left_of leave self.old) self.old) }
        ensures err { OnErr result (self.new ≡ self.old) }
        ensures memory { OnErr result (MayLose leave self.old) }
    {
        if self.is_synced() {
            self.begin();
            return Ok(());
        }
        match leave {
            Leave::Keep => {
                self.begin();
                Ok(())
            }
            Leave::Drop => {
                let low = first_changed(&self.steps, self.octets.len());
                let (end, _) = unwound(self.alloc, &self.steps, &self.octets, low)?;
                self.begin_with(low, &end)
            }
            Leave::Torn => {
                let low = first_changed(&self.steps, self.octets.len());
                let end = torn(self.alloc, &self.steps, &self.octets, low)?;
                self.begin_with(low, &end)
            }
        }
    }

    // Whether nothing was written or cut since the last sync.
    fn is_synced(&self) -> bool
        ensures { IsTrue result ↔ (changes_in self.now.steps self.now.octets ≡ []) }
    {
        if self.steps.is_empty() {
            return true;
        }
        self.steps[self.steps.len() - 1].synced
    }

    // Begins anew with the octets that are there: all that was written.
    fn begin(&mut self)
        ensures { self.new ≡ begun_with self.old.octets self.old }
    {
        self.steps.clear();
        self.stop = Stop::Never;
    }

    // Begins anew with other octets from a place on. Those before it are not copied.
    fn begin_with(&mut self, low: usize, end: &[u8]) -> Result<(), AllocError>
        requires { low ≤ length self.old.octets }
        ensures ok { OnOk result (self.new
            ≡ begun_with (take low self.old.octets ++ end.now) self.old) }
        ensures err { OnErr result (self.new ≡ self.old) }
    {
        overwrite(&mut self.octets, low, end)?;
        self.octets.truncate(low + end.len());
        self.steps.clear();
        self.stop = Stop::Never;
        Ok(())
    }

    /// What a crash may leave is said by its steps. It is what one sentence says: octets of a size
    /// between the least and the greatest since the last sync, and those of that sync at each place
    /// that was there then, and was neither written nor cut off since.
    pub fn a_crash_leaves_untouched_places(&self)
        ensures { (c : List ℕ) → left_now self.now.steps self.now.octets c
            ↔ IsLeft (told_of self.now).synced (told_of self.now).changes c }
    {
        let _ = &self.octets;
    }

    fn has_stopped(&self) -> bool
        ensures { result ≡ has_stopped self.now.stop }
    {
        matches!(self.stop, Stop::Stopped(_))
    }

    // Counts a call that reads, which fails where the disk has stopped.
    fn count_read(&mut self) -> Result<(), Failed>
        ensures counted { self.new ≡ after_read_call self.old }
        ensures cause { HasCause self.old.faults self.new.faults result }
        ensures ok { OnOk result (has_stopped self.old.stop ≡ false) }
        ensures err { OnErr result (has_stopped self.old.stop ≡ true) }
    {
        if self.has_stopped() {
            self.faults = self.faults.saturating_add(1);
            return Err(Failed);
        }
        Ok(())
    }

    // Counts a call that writes, cuts or syncs, which fails where the disk has stopped or stops by
    // it.
    fn count_call(&mut self) -> Result<(), Failed>
        ensures counted { self.new ≡ after_write_call self.old }
        ensures cause { HasCause self.old.faults self.new.faults result }
        ensures ok { OnOk result (fails self.old.stop ≡ false) }
        ensures err { OnErr result (fails self.old.stop ≡ true) }
    {
        self.calls = self.calls.saturating_add(1);
        match self.stop {
            Stop::Never => Ok(()),
            Stop::After(left, leave) if left > 0 => {
                self.stop = Stop::After(left - 1, leave);
                Ok(())
            }
            Stop::After(_, leave) | Stop::Stopped(leave) => {
                self.stop = Stop::Stopped(leave);
                self.faults = self.faults.saturating_add(1);
                Err(Failed)
            }
        }
    }

    // Writes a piece, unless the disk has stopped.
    fn note_write(&mut self, at: usize, piece: &[u8]) -> Result<(), AllocError>
        requires { at ≤ length self.old.octets }
        ensures ok { OnOk result (self.new ≡ noted_write at piece.now self.old) }
        ensures err { OnErr result (self.new ≡ self.old) }
    {
        if self.has_stopped() {
            return Ok(());
        }
        let over = piece.len().min(self.octets.len() - at);
        let gone = Octets::of(self.alloc, &self.octets[at..at + over])?;
        self.steps.push(Step {
            cuts: false,
            at,
            len: piece.len(),
            gone,
            synced: false,
        })?;
        match overwrite(&mut self.octets, at, piece) {
            Ok(()) => Ok(()),
            Err(error) => {
                self.steps.pop();
                Err(error)
            }
        }
    }

    // Cuts off all after so many octets, unless the disk has stopped.
    fn note_cut(&mut self, size: usize) -> Result<(), AllocError>
        requires { size ≤ length self.old.octets }
        ensures ok { OnOk result (self.new ≡ noted_cut size self.old) }
        ensures err { OnErr result (self.new ≡ self.old) }
    {
        if self.has_stopped() {
            return Ok(());
        }
        let gone = Octets::of(self.alloc, &self.octets[size..])?;
        self.steps.push(Step {
            cuts: true,
            at: size,
            len: 0,
            gone,
            synced: false,
        })?;
        self.octets.truncate(size);
        Ok(())
    }

    // Notes that all steps are synced.
    fn note_sync(&mut self)
        ensures { self.new ≡ noted_sync self.old }
    {
        if self.steps.is_empty() {
            return;
        }
        let newest = self.steps.len() - 1;
        self.steps[newest].synced = true;
    }
}

impl Disk for MemDisk {
    ghost reads = { λ m. m.octets };

    ghost may_leave = { λ m c. left_now m.steps m.octets c };

    ghost moment = { λ m. moment_of m.steps };

    ghost left_since = { λ m t c. left_from t m.steps m.octets c };

    ghost faults = { λ m. m.faults };

    ghost told = { λ m. Some (told_of m) };

    ghost reads_left = { λ m. reads_left_lem m.steps m.octets };

    ghost counts_now = { λ m t c le now. counts_now_lem m.steps m.octets t c le now };

    ghost only_now = { λ m c left. only_now_lem m.steps m.octets c left };

    fn size(&mut self) -> Result<u64, Failed> {
        self.count_read()?;
        Ok(self.octets.len() as u64)
    }

    fn read_at(&mut self, at: u64, buf: &mut [u8]) -> Result<(), Failed> {
        self.count_read()?;
        let rest = &self.octets[at as usize..];
        buf.copy_from_slice(&rest[..buf.len()]);
        Ok(())
    }

    fn write_at(&mut self, at: u64, piece: &[u8]) -> Result<(), DiskError> {
        self.note_write(at as usize, piece)?;
        self.count_call()?;
        Ok(())
    }

    fn cut(&mut self, size: u64) -> Result<(), DiskError> {
        self.note_cut(size as usize)?;
        self.count_call()?;
        Ok(())
    }

    fn sync(&mut self) -> Result<(), Failed> {
        self.count_call()?;
        self.note_sync();
        Ok(())
    }
}
