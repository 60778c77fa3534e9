// The work of opening a journal: what is read is synced, the list ends at a closed gate, and
// nothing follows that gate.
ghost use Rattle.std.specs.Prelude.{◌≡◌, ◌≢◌, ◌+◌, ◌^◌, ◌≤◌, ◌++◌, ◌∷◌, [], length, take, Some, Err, IfOk, OnOk};
ghost use Rattle.std.specs.Option.{option_map};
ghost use Rattle.house_journal.specs.Disks.{HasDiskCause, Only, Told};
ghost use Rattle.house_journal.specs.Tellings.{Syncs, TellsReading, open_calls};
ghost use Rattle.house_journal.specs.Journals.{IsCalm, IsListed, LeavesOnly, Settles};
ghost use Rattle.house_journal.specs.JournalRecords.{HasImagesOf, IsClean, gate_of, last_image};

use crate::close::close;
use crate::list_end::{find_end, read_image};
use crate::{Disk, DiskError};
use std::alloc::Global;

// Syncs, and answers how many octets there are. The sync is for a disk that failed in an earlier
// write: what it reads as may be gone after a crash.
fn synced_size<D: Disk>(disk: &mut D) -> Result<u64, DiskError>
    ensures size { IfOk result (λ n. n ≡ length (D.reads disk.old)) }
    ensures same { OnOk result (D.reads disk.new ≡ D.reads disk.old) }
    ensures only { OnOk result (Only (D.reads disk.old) (D.may_leave disk.new)) }
    ensures any_moment { LeavesOnly D.Disk disk.old disk.new (D.may_leave disk.old) }
    ensures told { (t : Told) → D.told disk.old ≡ Some t
        → TellsReading 1 (Syncs ∷ []) (D.reads disk.old) t result (D.told disk.new) }
    ensures cause { HasDiskCause (D.faults disk.old) (D.faults disk.new) result }
    ensures calm { IsCalm (D.told disk.old)
        → (result ≢ Err DiskError.Failed) × IsCalm (D.told disk.new) }
{
    disk.sync()?;
    let size = disk.size()?;
    Ok(size)
}

/// Puts the end of the list in order, and answers its place and the last image.
pub(crate) fn settle<D: Disk>(
    alloc: Global,
    disk: &mut D,
) -> Result<(u64, Option<Vec<u8>>), DiskError>
    requires { length (D.reads disk.old) ≤ 2 ^ 40 }
    ensures place { IfOk result (λ r. r.0 ≡ gate_of (D.reads disk.old)) }
    ensures room { IfOk result (λ r. r.0 + 1 ≤ 2 ^ 40) }
    ensures image { IfOk result (λ r. option_map (λ v. v.items) r.1
        ≡ last_image (D.reads disk.old)) }
    ensures rests { OnOk result (D.reads disk.new
        ≡ take (gate_of (D.reads disk.old)) (D.reads disk.old) ++ 0 ∷ []) }
    ensures durable { OnOk result (Only (D.reads disk.new) (D.may_leave disk.new)) }
    ensures listed { OnOk result (IsListed (D.told disk.new)) }
    ensures told { (t : Told) → D.told disk.old ≡ Some t → TellsReading 1
        (open_calls (D.reads disk.old)) (D.reads disk.old) t result (D.told disk.new) }
    ensures any_moment { IsClean (D.reads disk.old)
        → Settles D.Disk disk.old disk.new (HasImagesOf (D.reads disk.old)) result }
    ensures cause { HasDiskCause (D.faults disk.old) (D.faults disk.new) result }
    ensures calm { IsCalm (D.told disk.old)
        → (result ≢ Err DiskError.Failed) × IsCalm (D.told disk.new) }
{
    let size = synced_size(disk)?;
    let end = find_end(disk, size)?;
    let image = read_image(alloc, disk, end.image)?;
    close(disk, size, end.place)?;
    Ok((end.place, image))
}
