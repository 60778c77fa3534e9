// The commands that leave houses out of a directory, written as lines.
ghost use Rattle.std.specs.Prelude.{◌≡◌, ◌≤◌, ◌^◌, IfOk, OnOk};
ghost use Rattle.cds_stamps.specs.Members.{member_of, members_of};
ghost use Rattle.cell_model.specs.Cells as model;
ghost use Rattle.cds_cell.specs.ConsoleLists.{IsListed};
ghost use Rattle.cds_cell.specs.ModelCells.{Stands};
ghost use Rattle.house_directory.specs.HouseMessages.{numbers_of};
ghost use Rattle.mend_model.specs.Leaving.{kept_members, leaving_commands};
ghost use Rattle.mend_replay.specs.MendLines.{leaving_text, led_text};
ghost use Rattle.mend_replay.specs.PrivateLines.{AreOrdered, IsScriptWith, commands_without, led_member};

use crate::commands::{count_others, push_skulking, push_starts};
use crate::lines::{push_deliveries, push_epoch, refusal_line};
use crate::masters::{is_among, new_master};
use crate::readiness::has_stamp;
use cds_cell::Cell;
use cds_stamps::{DirId, HouseNo, Member, MemberKind, Members};
use std::alloc::{AllocError, Global};

/// The lines that leave houses out of a directory with these members, or the line of the reason why
/// none do.
pub(crate) fn leaving_text(
    alloc: Global,
    cell: &Cell,
    dir: DirId,
    members: &Members,
    without: &[HouseNo],
) -> Result<Vec<u8>, AllocError>
    requires room { cell.now.bag.posted ≤ 2 ^ 62 }
    ensures { (g : model.Cell) → Stands cell.now g → g.present dir.0 ≡ members_of members.now
        → IfOk result (λ text. text.items ≡ leaving_text dir.0 (numbers_of without.now) g) }
{
    match new_master(alloc, cell, dir, members, without)? {
        Some(master) => led_text(alloc, cell, dir, members, without, master),
        None => refusal_line(alloc, b"NoReplica"),
    }
}

// Likewise with this house as the master.
fn led_text(
    alloc: Global,
    cell: &Cell,
    dir: DirId,
    members: &Members,
    without: &[HouseNo],
    master: HouseNo,
) -> Result<Vec<u8>, AllocError>
    requires room { cell.now.bag.posted ≤ 2 ^ 62 }
    ensures { (g : model.Cell) → Stands cell.now g → g.present dir.0 ≡ members_of members.now
        → IfOk result
        (λ text. text.items ≡ led_text dir.0 (numbers_of without.now) g master.0) }
{
    if !has_stamp(alloc, cell, master)? {
        return refusal_line(alloc, b"StampsSpent");
    }
    let kept = kept_members(alloc, members.list(), without, master)?;
    let others = count_others(master, members.list());
    let mut script = Vec::new(alloc);
    push_leaving(
        alloc,
        &mut script,
        cell,
        dir,
        master,
        kept.as_slice(),
        others,
    )?;
    Ok(script)
}

// The houses that stay are started, get an epoch without the others and take its Joins; then a
// skulk completes. The epoch posts so many messages.
fn push_leaving(
    alloc: Global,
    script: &mut Vec<u8>,
    cell: &Cell,
    dir: DirId,
    master: HouseNo,
    kept: &[Member],
    posted: u64,
) -> Result<(), AllocError>
    requires room { cell.now.bag.posted ≤ 2 ^ 62 }
    requires few { posted ≤ 2 ^ 62 }
    requires ordered { AreOrdered (members_of kept.now) }
    ensures { (g : model.Cell) → Stands cell.now g
        → OnOk result
        (IsScriptWith script.old.items script.new.items
        (commands_without g dir.0 master.0 (members_of kept.now) posted)) }
{
    let others = count_others(master, kept);
    push_starts(script, cell, kept)?;
    push_epoch(alloc, script, dir, master, kept)?;
    push_deliveries(script, cell.posted(), others)?;
    push_skulking(script, cell.posted() + posted, dir, master, others)
}

// The members that are none of these houses, with this house as their master.
fn kept_members(
    alloc: Global,
    members: &[Member],
    without: &[HouseNo],
    master: HouseNo,
) -> Result<Vec<Member>, AllocError>
    ensures { IfOk result (λ v. members_of v.items
        ≡ kept_members (numbers_of without.now) master.0 (members_of members.now)) }
{
    let mut kept = Vec::new(alloc);
    for member in members {
        if !is_among(member.house, without) {
            kept.push(led_member(master, member))?;
        }
    }
    Ok(kept)
}

// A member, as the master if it is this house.
fn led_member(master: HouseNo, member: &Member) -> Member
    ensures { member_of result ≡ led_member master.0 (member_of member.now) }
{
    let kind = if member.house == master {
        MemberKind::Master
    } else {
        member.kind
    };
    Member {
        house: member.house,
        since: member.since,
        kind,
    }
}
