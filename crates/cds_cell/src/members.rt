// Member lists, as a console names them: a master, and other houses in any order.
ghost use Rattle.std.specs.Prelude.{◌≡◌, ◌∷◌, ◌≤◌, length, true, false, IfOk, MatchOption};
ghost use Rattle.cds_stamps.specs.Members as members;
ghost use Rattle.cds_stamps.specs.Members.{members_of};
ghost use Rattle.cell_model.specs.Sets.{has};
ghost use Rattle.cell_model.specs.Steps as model;
ghost use Rattle.cell_script.specs.Listings.{houses_in, secondaries_in};
ghost use Rattle.house_directory.specs.HouseMessages.{numbers_of};

use cds_stamps::{EpochNo, HouseNo, MOST_MEMBERS, Member, MemberKind, Members};
use cell_script::{Listed, Listeds};
use std::alloc::{AllocError, Global};

/// Whether a house is there twice, or there are more than 64. Takes no memory.
pub fn is_bad_list(master: HouseNo, others: &[HouseNo]) -> bool
    ensures { result ≡ model.is_bad_list (master.0 ∷ numbers_of others.now) }
{
    others.len() >= MOST_MEMBERS || others.contains(&master) || stands_twice(others)
}

// Whether a house is there twice.
fn stands_twice(houses: &[HouseNo]) -> bool
    ensures { result ≡ model.stands_twice (numbers_of houses.now) }
{
    let mut rest = houses;
    while let Some((first, behind)) = rest.split_first() {
        if behind.contains(first) {
            return true;
        }
        rest = behind;
    }
    false
}

/// The members of an epoch with this master and these other houses; none, where a house is there
/// twice or they are more than 64. Who was a member before keeps the epoch since which.
pub fn member_list(
    alloc: Global,
    before: &[Member],
    epoch: EpochNo,
    master: HouseNo,
    others: &Listeds,
) -> Result<Option<Members>, AllocError>
    ensures { IfOk result (λ o. let rs = numbers_of (houses_in others.now) in
        let ss = numbers_of (secondaries_in others.now) in
        MatchOption o (model.is_bad_list (master.0 ∷ rs) ≡ true)
        (λ ms. (model.is_bad_list (master.0 ∷ rs) ≡ false)
        × (members_of ms ≡ model.member_list_of (members_of before.now) epoch.0 master.0 rs ss))) }
{
    if is_bad_list(master, others.houses()) {
        return Ok(None);
    }
    let mut list = Vec::new(alloc);
    for house in &all_in_order(alloc, master, others.houses())? {
        list.push(Member {
            house: *house,
            since: since_in(before, *house, epoch),
            kind: kind_among(master, others.list(), *house),
        })?;
    }
    Ok(Some(Members::known(alloc, &list)?))
}

// The master and the others, in ascending order.
fn all_in_order(
    alloc: Global,
    master: HouseNo,
    others: &[HouseNo],
) -> Result<Vec<HouseNo>, AllocError>
    ensures { IfOk result
        (λ v. numbers_of v.items ≡ model.sorted_houses (master.0 ∷ numbers_of others.now)) }
{
    let mut all = Vec::new(alloc);
    all.push(master)?;
    all.extend_from_slice(others)?;
    Ok(in_order(all))
}

/// The houses in ascending order.
pub(crate) fn in_order(mut houses: Vec<HouseNo>) -> Vec<HouseNo>
    ensures { numbers_of result.items ≡ model.sorted_houses (numbers_of houses.items) }
{
    houses.sort_unstable();
    houses
}

// The epoch since which a house is a member without a break; this one, where it was none.
fn since_in(before: &[Member], house: HouseNo, epoch: EpochNo) -> EpochNo
    ensures { result.0 ≡ members.since_in (members_of before.now) house.0 epoch.0 }
{
    for member in before {
        if member.house == house {
            return member.since;
        }
    }
    epoch
}

// What a house is, by the master and the secondary houses of its list.
fn kind_among(master: HouseNo, others: &[Listed], house: HouseNo) -> MemberKind
    ensures { result ≡ model.kind_among master.0 (numbers_of (secondaries_in others.now)) house.0 }
{
    if house == master {
        MemberKind::Master
    } else if is_secondary(others, house) {
        MemberKind::Secondary
    } else {
        MemberKind::ReadOnly
    }
}

// Whether a list has the house as a secondary one.
fn is_secondary(others: &[Listed], house: HouseNo) -> bool
    ensures { result ≡ has house.0 (numbers_of (secondaries_in others.now)) }
{
    others
        .iter()
        .any(|listed| listed.secondary && listed.house == house)
}

/// The houses of a list that are members no more.
pub(crate) fn leaving(
    alloc: Global,
    before: &[Member],
    now: &Members,
) -> Result<Vec<HouseNo>, AllocError>
    ensures few { IfOk result (λ v. length v.items ≤ length before.now) }
    ensures houses { IfOk result
        (λ v. numbers_of v.items
        ≡ model.left_members (members_of before.now) (members_of now.now)) }
{
    let mut left = Vec::new(alloc);
    for member in before {
        if now.place(member.house).is_none() {
            left.push(member.house)?;
        }
    }
    Ok(left)
}
