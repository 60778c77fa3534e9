// The members of a replica set, as the line of an epoch lists them.
ghost use Rattle.std.specs.Prelude.{◌≡◌, IfOk};
ghost use Rattle.command_lines.specs.ListedMembers.{listed_member, listed_others};

use cds_stamps::{HouseNo, Member, MemberKind};
use cell_script::{Listed, Listeds};
use std::alloc::{AllocError, Global};

// A member.
fn listed_member(member: &Member) -> Listed
    ensures { result ≡ listed_member member.now }
{
    Listed {
        house: member.house,
        secondary: member.kind == MemberKind::Secondary,
    }
}

/// The members but this house, in their order.
pub fn listed_others(
    alloc: Global,
    master: HouseNo,
    members: &[Member],
) -> Result<Listeds, AllocError>
    ensures { IfOk result (λ others. others ≡ listed_others master members.now) }
{
    let mut others = Vec::new(alloc);
    for member in members {
        if member.house != master {
            others.push(listed_member(member))?;
        }
    }
    Listeds::of(alloc, others)
}
