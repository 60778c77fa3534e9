// Readers of member lists.
ghost use Rattle.std.specs.Prelude.{◌≡◌, ◌-◌, ◌||◌, Some, None, MatchOption, false, if◌then◌else◌};
ghost use Rattle.cds_stamps.specs.Members.{is_master, members_of, members_fault};
ghost use Rattle.record_fields.specs.FieldReaders.{Reads, ReadsSurely};
ghost use Rattle.record_fields.specs.Fields.{number_order, octet};
ghost use Rattle.cds_messages.specs.KindNumbers.{kind_in};
ghost use Rattle.cds_records.specs.Records.{kind_rule, member_kind, member, member_list, members_in};
ghost use Rattle.record_fields.specs.declared.fault.Rule.TheVariants.{OutOfOrder, BadFlag};

use crate::format::FORMER_FORMAT;
use cds_stamps::{EpochNo, HouseNo, MOST_MEMBERS, Member, MemberKind, Members};
use record_fields::{Broken, ReadError, Reader, Rule, broken};
use std::alloc::Global;

/// A house that is above the one before it.
#[tactic(auto, unfolding(record_fields::specs::Fields::octet))]
fn house_above(reader: &mut Reader<'_>, before: Option<u8>) -> Result<u8, Broken>
    ensures { ReadsSurely (λ x. x) (octet (number_order before)) reader.old reader.new result }
{
    let left = reader.left();
    let house = reader.octet()?;
    if is_unordered_house(house, before) {
        return Err(broken(Rule::OutOfOrder, left));
    }
    Ok(house)
}

/// The kind of a member, before so many members, with or without a master before it.
#[tactic(auto, unfolding(crate::specs::Records::member_kind, record_fields::specs::Fields::octet))]
fn read_member_kind(
    reader: &mut Reader<'_>,
    secondary: bool,
    following: u8,
    master: bool,
) -> Result<MemberKind, Broken>
    ensures { ReadsSurely (λ x. x)
        (member_kind secondary following master) reader.old reader.new result }
{
    let left = reader.left();
    let number = reader.octet()?;
    match kind_of(number, secondary, following, master) {
        Some(kind) => Ok(kind),
        None => Err(broken(Rule::BadFlag, left)),
    }
}

/// A member, before so many members, after a house, with or without a master before it.
#[tactic(auto, unfolding(crate::specs::Records::member))]
fn read_member(
    reader: &mut Reader<'_>,
    secondary: bool,
    following: u8,
    before: Option<u8>,
    master: bool,
) -> Result<Member, Broken>
    ensures { ReadsSurely (λ x. x)
        (member secondary following before master) reader.old reader.new result }
{
    let house = house_above(reader, before)?;
    let since = reader.u64()?;
    let kind = read_member_kind(reader, secondary, following, master)?;
    Ok(Member {
        house: HouseNo(house),
        since: EpochNo(since),
        kind,
    })
}

/// So many members.
fn read_listed(
    reader: &mut Reader<'_>,
    alloc: Global,
    secondary: bool,
    count: u8,
) -> Result<Vec<Member>, ReadError>
    ensures { Reads (λ v. v.items)
        (member_list secondary count None false) reader.old reader.new result }
{
    let mut list = Vec::new(alloc);
    let mut before = None;
    let mut master = false;
    for i in 0..count {
        let member = read_member(reader, secondary, count - i - 1, before, master)?;
        list.push(member)?;
        before = Some(member.house.0);
        master = has_master(master, member.kind);
    }
    Ok(list)
}

/// A member list of this format. Format 1 has no secondary members.
#[tactic(auto, unfolding(crate::specs::Records::members_in))]
pub(crate) fn read_members(
    reader: &mut Reader<'_>,
    alloc: Global,
    format: u8,
) -> Result<Members, ReadError>
    ensures { Reads (λ x. x) (members_in format) reader.old reader.new result }
{
    let count = reader.octet_within(Rule::BadLength, 1, MOST_MEMBERS as u8)?;
    let list = read_listed(reader, alloc, format != FORMER_FORMAT, count)?;
    let members = Members::known(alloc, list.as_slice())?;
    Ok(members)
}

/// Whether a house is not above the one before it.
fn is_unordered_house(house: u8, before: Option<u8>) -> bool
    ensures { number_order before house ≡ (if result then Some OutOfOrder else None) }
{
    match before {
        Some(before) => house <= before,
        None => false,
    }
}

/// The kind of a number, if it may stand there.
fn kind_of(number: u8, secondary: bool, following: u8, master: bool) -> Option<MemberKind>
    ensures { MatchOption result (kind_rule secondary following master number ≡ Some BadFlag)
        (λ k. (kind_rule secondary following master number ≡ None) × (k ≡ kind_in number)) }
{
    match number {
        1 if !master => Some(MemberKind::Master),
        2 if master || following > 0 => Some(MemberKind::ReadOnly),
        3 if secondary && (master || following > 0) => Some(MemberKind::Secondary),
        _ => None,
    }
}

/// Whether there is a master, here or before.
fn has_master(before: bool, kind: MemberKind) -> bool
    ensures { result ≡ (before || is_master kind) }
{
    before || kind == MemberKind::Master
}
