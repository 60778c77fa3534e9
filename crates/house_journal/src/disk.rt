// A disk: what it reads as, what a crash may leave of it, and what it tells of itself.
ghost use Rattle.std.specs.Prelude.{◌≡◌, ◌+◌, ◌^◌, ◌≤◌, ℕ, List, Option, Some, length, take, drop};
ghost use Rattle.std.specs.Prelude.{IfOk, OnOk, IsErr, IsErrOf, is_err};
ghost use Rattle.std.specs.Option.{option_map};
ghost use Rattle.cds_base.specs.Counts.{HasCause};
ghost use Rattle.house_journal.specs.declared.disk.DiskError.TheVariants as why;
ghost use Rattle.house_journal.specs.Disks.{Told, Wrote, CutTo, told_change, told_sync};
ghost use Rattle.house_journal.specs.Disks.{PlanAllows, StopsReads, HasDiskCause, IsDone};
ghost use Rattle.house_journal.specs.Disks.{with_piece, Torn, CutBack, Follows, Only, Elapses, OnlyReads};

use cds_base::Failed;
use std::alloc::{AllocError, AllocFailed};
use thiserror::Error;

/// Why a disk did not write or cut.
#[derive(Clone, Copy, Debug, PartialEq, Eq, Error)]
pub enum DiskError {
    #[error("the disk failed")]
    Failed,
    #[error("out of memory")]
    OutOfMemory,
}

impl From<Failed> for DiskError {
    ghost from_gives = { λ _ e. e ≡ why.Failed };

    fn from(_error: Failed) -> DiskError {
        DiskError::Failed
    }
}

impl From<AllocError> for DiskError {
    ghost from_gives = { λ _ e. e ≡ why.OutOfMemory };

    fn from(_error: AllocError) -> DiskError {
        DiskError::OutOfMemory
    }
}

impl<T: Drop> From<AllocFailed<T>> for DiskError {
    ghost from_gives = { λ _ e. e ≡ why.OutOfMemory };

    fn from(_error: AllocFailed<T>) -> DiskError {
        DiskError::OutOfMemory
    }
}

/// One file, whose owner may be stopped at any moment. Between two syncs a crash may leave any
/// octets where something was written or cut off.
pub trait Disk {
    /// The octets that a read gives.
    ghost reads: { Self → List ℕ };

    /// What a crash at this moment may leave.
    ghost may_leave: { Self → List ℕ → Type 0 };

    /// The moment, as a number that does not fall.
    ghost moment: { Self → ℕ };

    /// What a crash at some moment from that one on may have left, in a call or between two.
    ghost left_since: { Self → ℕ → List ℕ → Type 0 };

    /// How often it has failed.
    ghost faults: { Self → ℕ };

    /// What it tells of itself, if it does.
    ghost told: { Self → Option Told };

    /// How many octets there are.
    fn size(&mut self) -> Result<u64, Failed>
        ensures size { IfOk result (λ n. n ≡ length (reads self.old)) }
        ensures quiet { OnlyReads reads told may_leave moment left_since self.old self.new }
        ensures cause { HasCause (faults self.old) (faults self.new) result }
        ensures plan { StopsReads (told self.old) result };

    /// The octets from a place on, as many as `buf` has.
    fn read_at(&mut self, at: u64, buf: &mut [u8]) -> Result<(), Failed>
        requires { at + length buf.old ≤ length (reads self.old) }
        ensures octets { OnOk result (buf.new ≡ take (length buf.old) (drop at (reads self.old))) }
        ensures quiet { OnlyReads reads told may_leave moment left_since self.old self.new }
        ensures cause { HasCause (faults self.old) (faults self.new) result }
        ensures plan { StopsReads (told self.old) result };

    /// Writes a piece over what is there, and past the end.
    fn write_at(&mut self, at: u64, piece: &[u8]) -> Result<(), DiskError>
        requires start { at ≤ length (reads self.old) }
        requires end { at + length piece.now ≤ 2 ^ 40 }
        ensures written { OnOk result (reads self.new ≡ with_piece (reads self.old) at piece.now) }
        ensures crash { Follows (Torn at (length piece.now)) (may_leave self.old)
            (may_leave self.new) }
        ensures time { Elapses (moment self.old) (moment self.new) (left_since self.old)
            (left_since self.new) (may_leave self.new) }
        ensures told { IsDone result → told self.new
            ≡ option_map (told_change (Wrote at piece.now) (is_err result)) (told self.old) }
        ensures memory { IsErrOf result why.OutOfMemory → self.new ≡ self.old }
        ensures cause { HasDiskCause (faults self.old) (faults self.new) result }
        ensures plan { PlanAllows (told self.old) (IsErrOf result why.Failed) result };

    /// Cuts off all after so many octets.
    fn cut(&mut self, size: u64) -> Result<(), DiskError>
        requires { size ≤ length (reads self.old) }
        ensures cut { OnOk result (reads self.new ≡ take size (reads self.old)) }
        ensures crash { Follows (CutBack size) (may_leave self.old) (may_leave self.new) }
        ensures time { Elapses (moment self.old) (moment self.new) (left_since self.old)
            (left_since self.new) (may_leave self.new) }
        ensures told { IsDone result → told self.new
            ≡ option_map (told_change (CutTo size) (is_err result)) (told self.old) }
        ensures memory { IsErrOf result why.OutOfMemory → self.new ≡ self.old }
        ensures cause { HasDiskCause (faults self.old) (faults self.new) result }
        ensures plan { PlanAllows (told self.old) (IsErrOf result why.Failed) result };

    /// After it a crash leaves what a read gives.
    fn sync(&mut self) -> Result<(), Failed>
        ensures synced { OnOk result
            ((reads self.new ≡ reads self.old) × Only (reads self.old) (may_leave self.new)) }
        ensures crash { (c : List ℕ) → may_leave self.new c → may_leave self.old c }
        ensures time { Elapses (moment self.old) (moment self.new) (left_since self.old)
            (left_since self.new) (may_leave self.new) }
        ensures told { told self.new
            ≡ option_map (told_sync (reads self.old) (is_err result)) (told self.old) }
        ensures cause { HasCause (faults self.old) (faults self.new) result }
        ensures plan { PlanAllows (told self.old) (IsErr result) result };

    /// What is read is one of the images that a crash may leave.
    ghost reads_left: { (disk : Self) → may_leave disk (reads disk) };

    /// This moment is one of those since an earlier one.
    ghost counts_now: { (disk : Self) (t : ℕ) (c : List ℕ) → t ≤ moment disk → may_leave disk c
        → left_since disk t c };

    /// Since this moment there is no other.
    ghost only_now: { (disk : Self) (c : List ℕ) → left_since disk (moment disk) c
        → may_leave disk c };
}
