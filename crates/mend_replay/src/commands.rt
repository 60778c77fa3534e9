// The commands that mend a directory of a cell, computed and written as lines.
ghost use Rattle.std.specs.Prelude.{◌≡◌, ◌≤◌, ◌^◌, length, IfOk, OnOk};
ghost use Rattle.cds_stamps.specs.Members.{members_of, others_of};
ghost use Rattle.cell_model.specs.Cells as model;
ghost use Rattle.cell_model.specs.Mending.{mend_commands, skulk_commands, start_commands};
ghost use Rattle.cds_cell.specs.ConsoleLists.{IsListed};
ghost use Rattle.cds_cell.specs.ModelCells.{Stands};
ghost use Rattle.house_directory.specs.HouseMessages.{numbers_of};
ghost use Rattle.mend_replay.specs.MendLines.{mend_text, mending_text, mends};
ghost use Rattle.mend_replay.specs.PrivateLines.{IsScriptWith};

use crate::leaving::leaving_text;
use crate::lines::{push_deliveries, push_epoch, push_skulk, push_start, refusal_line};
use crate::readiness::{has_stamp, is_held_by};
use cds_cell::Cell;
use cds_stamps::{DirId, EpochNo, HouseNo, Member, Members};
use std::alloc::{AllocError, Global};

/// The lines of the commands that mend a directory of a cell without these houses, or the line of
/// the reason why none do.
pub(crate) fn mend_text(
    alloc: Global,
    cell: &Cell,
    dir: DirId,
    without: &[HouseNo],
) -> Result<Vec<u8>, AllocError>
    requires room { cell.now.bag.posted ≤ 2 ^ 62 }
    ensures { (g : model.Cell) → Stands cell.now g
        → IfOk result (λ text. text.items ≡ mend_text dir.0 (numbers_of without.now) g) }
{
    match cell.listing(dir) {
        Some((epoch, members)) => {
            if without.is_empty() {
                listed_text(alloc, cell, dir, epoch, members)
            } else {
                leaving_text(alloc, cell, dir, members, without)
            }
        }
        None => refusal_line(alloc, b"NoDirectory"),
    }
}

// Likewise of a directory with this last epoch and these members.
fn listed_text(
    alloc: Global,
    cell: &Cell,
    dir: DirId,
    epoch: EpochNo,
    members: &Members,
) -> Result<Vec<u8>, AllocError>
    requires room { cell.now.bag.posted ≤ 2 ^ 62 }
    ensures { (g : model.Cell) → Stands cell.now g
        → IsListed g dir.0 epoch.0 (members_of members.now)
        → IfOk result (λ text. text.items ≡ mending_text dir.0 g) }
{
    if !has_stamp(alloc, cell, members.master())? {
        return refusal_line(alloc, b"StampsSpent");
    }
    let mut script = Vec::new(alloc);
    push_mends(alloc, &mut script, cell, dir, epoch, members)?;
    Ok(script)
}

// The commands that mend it; a skulk is enough where its houses are ready.
fn push_mends(
    alloc: Global,
    script: &mut Vec<u8>,
    cell: &Cell,
    dir: DirId,
    epoch: EpochNo,
    members: &Members,
) -> Result<(), AllocError>
    requires room { cell.now.bag.posted ≤ 2 ^ 62 }
    ensures { (g : model.Cell) → Stands cell.now g
        → IsListed g dir.0 epoch.0 (members_of members.now)
        → OnOk result (IsScriptWith script.old.items script.new.items (mends g dir.0)) }
{
    if is_held_by(cell, dir, epoch, members.list()) {
        let others = count_others(members.master(), members.list());
        push_skulking(script, cell.posted(), dir, members.master(), others)
    } else {
        push_mending(alloc, script, cell, dir, members)
    }
}

// The houses are started, get a new epoch and take its Joins, and then a skulk completes.
fn push_mending(
    alloc: Global,
    script: &mut Vec<u8>,
    cell: &Cell,
    dir: DirId,
    members: &Members,
) -> Result<(), AllocError>
    requires room { cell.now.bag.posted ≤ 2 ^ 62 }
    ensures { (g : model.Cell) → Stands cell.now g → g.present dir.0 ≡ members_of members.now
        → OnOk result (IsScriptWith script.old.items script.new.items (mend_commands g dir.0)) }
{
    let others = count_others(members.master(), members.list());
    push_starts(script, cell, members.list())?;
    push_epoch(alloc, script, dir, members.master(), members.list())?;
    push_deliveries(script, cell.posted(), others)?;
    push_skulking(
        script,
        cell.posted() + others,
        dir,
        members.master(),
        others,
    )
}

/// A skulk of this master with so many others, and each message of its rounds after the first ones.
pub(crate) fn push_skulking(
    script: &mut Vec<u8>,
    first: u64,
    dir: DirId,
    master: HouseNo,
    others: u64,
) -> Result<(), AllocError>
    requires room { first ≤ 2 ^ 63 }
    requires few { others ≤ 2 ^ 60 }
    ensures { OnOk result
        (IsScriptWith script.old.items script.new.items
        (skulk_commands master.0 dir.0 first others)) }
{
    push_skulk(script, master, dir)?;
    push_deliveries(script, first, 4 * others)
}

/// `start` for each of these houses that is down.
pub(crate) fn push_starts(
    script: &mut Vec<u8>,
    cell: &Cell,
    members: &[Member],
) -> Result<(), AllocError>
    ensures { (g : model.Cell) → Stands cell.now g
        → OnOk result
        (IsScriptWith script.old.items script.new.items
        (start_commands g (members_of members.now))) }
{
    for member in members {
        if cell.is_down(member.house) {
            push_start(script, member.house)?;
        }
    }
    Ok(())
}

/// How many of these are other houses than the master.
pub(crate) fn count_others(master: HouseNo, members: &[Member]) -> u64
    ensures others { result ≡ length (others_of master.0 (members_of members.now)) }
    ensures few { result ≤ length members.now }
{
    let mut others = 0;
    for member in members {
        if member.house != master {
            others += 1;
        }
    }
    others
}
