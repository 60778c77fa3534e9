// How the end of a journal is put in order: all after the gate that ends the list is cut off, and
// that gate is closed.
ghost use Rattle.std.specs.Prelude.{◌≡◌, ◌≢◌, ◌+◌, ◌^◌, ◌≤◌, ◌++◌, ◌∷◌, [], length, take, slice_get};
ghost use Rattle.std.specs.Prelude.{Some, Err, IfOk, OnOk};
ghost use Rattle.house_journal.specs.Disks.{HasDiskCause, Only, OnlyReads, Told};
ghost use Rattle.house_journal.specs.Tellings.{TellsReading, TellsRun, close_calls, gate_calls};
ghost use Rattle.house_journal.specs.Journals.{IsCalm, IsListed, LeavesOnly};
ghost use Rattle.house_journal.specs.JournalRecords.{HasImagesOf, IsOpenable, gate_of};

use crate::{Disk, DiskError};

// The gate at a place, if the disk is that long.
fn gate_at<D: Disk>(disk: &mut D, size: u64, place: u64) -> Result<Option<u8>, DiskError>
    requires { size ≡ length (D.reads disk.old) }
    ensures gate { IfOk result (λ o. o ≡ slice_get (D.reads disk.old) place) }
    ensures quiet { OnlyReads D.reads D.told D.may_leave D.moment D.left_since disk.old disk.new }
    ensures cause { HasDiskCause (D.faults disk.old) (D.faults disk.new) result }
    ensures calm { IsCalm (D.told disk.old)
        → (result ≢ Err DiskError.Failed) × IsCalm (D.told disk.new) }
{
    let mut gate = [0];
    if place < size {
        disk.read_at(place, &mut gate)?;
        return Ok(Some(gate[0]));
    }
    Ok(None)
}

// Closes the gate that ends the list, unless it is closed. It is the last octet, or missing, and a
// crash leaves what is read.
fn close_gate<D: Disk>(disk: &mut D, place: u64, gate: Option<u8>) -> Result<(), DiskError>
    requires gate { gate ≡ slice_get (D.reads disk.old) place }
    requires place { place ≡ gate_of (D.reads disk.old) }
    requires last { length (D.reads disk.old) ≤ place + 1 }
    requires only { Only (D.reads disk.old) (D.may_leave disk.old) }
    requires room { place + 1 ≤ 2 ^ 40 }
    requires listed { IsListed (D.told disk.old) }
    ensures any_moment { LeavesOnly D.Disk disk.old disk.new (HasImagesOf (D.reads disk.old)) }
    ensures rests { OnOk result (D.reads disk.new ≡ take place (D.reads disk.old) ++ 0 ∷ []) }
    ensures durable { OnOk result (Only (D.reads disk.new) (D.may_leave disk.new)) }
    ensures listed { OnOk result (IsListed (D.told disk.new)) }
    ensures told { (t : Told) → D.told disk.old ≡ Some t
        → TellsRun (gate_calls place gate) (D.reads disk.old) t result (D.told disk.new) }
    ensures cause { HasDiskCause (D.faults disk.old) (D.faults disk.new) result }
    ensures calm { IsCalm (D.told disk.old)
        → (result ≢ Err DiskError.Failed) × IsCalm (D.told disk.new) }
{
    if gate == Some(0) {
        return Ok(());
    }
    disk.write_at(place, &[0])?;
    disk.sync()?;
    Ok(())
}

/// Cuts off all after the gate that ends the list, and closes that gate. A crash leaves what is
/// read. The cut is synced before the gate is written: else a gate that a crash leaves 1 could have
/// a whole record after it.
pub(crate) fn close<D: Disk>(disk: &mut D, size: u64, place: u64) -> Result<(), DiskError>
    requires size { size ≡ length (D.reads disk.old) }
    requires place { place ≡ gate_of (D.reads disk.old) }
    requires only { Only (D.reads disk.old) (D.may_leave disk.old) }
    requires room { place + 1 ≤ 2 ^ 40 }
    ensures any_moment { IsOpenable (D.reads disk.old)
        → LeavesOnly D.Disk disk.old disk.new (HasImagesOf (D.reads disk.old)) }
    ensures rests { OnOk result (D.reads disk.new ≡ take place (D.reads disk.old) ++ 0 ∷ []) }
    ensures durable { OnOk result (Only (D.reads disk.new) (D.may_leave disk.new)) }
    ensures listed { OnOk result (IsListed (D.told disk.new)) }
    ensures told { (t : Told) → D.told disk.old ≡ Some t → TellsReading 0
        (close_calls (D.reads disk.old)) (D.reads disk.old) t result (D.told disk.new) }
    ensures cause { HasDiskCause (D.faults disk.old) (D.faults disk.new) result }
    ensures calm { IsCalm (D.told disk.old)
        → (result ≢ Err DiskError.Failed) × IsCalm (D.told disk.new) }
{
    let gate = gate_at(disk, size, place)?;
    disk.cut(size.min(place + 1))?;
    disk.sync()?;
    close_gate(disk, place, gate)
}
