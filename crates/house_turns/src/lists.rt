// Lists of houses, as lines name them.
ghost use Rattle.std.specs.Prelude.{◌≡◌, ◌∷◌, true, false, not, nat_le, is_none, IfOk, MatchOption};
ghost use Rattle.std.specs.List.{list_all};
ghost use Rattle.cds_stamps.specs.Members.{is_listed, members_fault, members_of};
ghost use Rattle.cell_model.specs.Steps as model;
ghost use Rattle.house_directory.specs.HouseMessages.{numbers_of};
ghost use Rattle.house_turns.specs.HouseAnswers.{ascend_from, is_given};
ghost use Rattle.cell_runs.specs.LineOrders.{listed_houses};
ghost use Rattle.house_turns.specs.PrivateTurns as turns;

use cds_cell::member_list;
use cds_stamps::{AllocOr, EpochNo, HouseNo, Member, Members};
use cell_script::Listeds;
use house_lines::EpochList;
use std::alloc::{AllocError, Global};

/// The members of a new directory with this master; none, if a house is named twice or they are
/// more than 64.
pub(crate) fn first_members(
    alloc: Global,
    master: HouseNo,
    others: &Listeds,
) -> Result<Option<Members>, AllocError>
    ensures { IfOk result (λ o.
        MatchOption o (model.is_bad_list (master.0 ∷ listed_houses others.now) ≡ true)
        (λ ms. (model.is_bad_list (master.0 ∷ listed_houses others.now) ≡ false)
        × (members_of ms ≡ turns.first_members master.0 others.now))) }
{
    member_list(alloc, &[], EpochNo(1), master, others)
}

// Whether houses ascend.
fn are_ascending(houses: &[HouseNo]) -> bool
    ensures { result ≡ ascend_from 0 (numbers_of houses.now) }
{
    let mut least = 0u16;
    for house in houses {
        if u16::from(house.0) < least {
            return false;
        }
        least = u16::from(house.0) + 1;
    }
    true
}

// Whether none of these houses is a member.
fn none_listed(members: &Members, leaving: &[HouseNo]) -> bool
    ensures { result
        ≡ list_all (λ h. not (is_listed h (members_of members.now))) (numbers_of leaving.now) }
{
    leaving.iter().all(|house| members.place(*house).is_none())
}

// Whether no member is one since a later epoch.
fn none_later(members: &[Member], epoch: EpochNo) -> bool
    ensures { result ≡ list_all (λ m. nat_le m.since epoch.0) (members_of members.now) }
{
    members.iter().all(|member| member.since.0 <= epoch.0)
}

// The members of a list, if they are a member list.
fn members_in(alloc: Global, list: &[Member]) -> Result<Option<Members>, AllocError>
    ensures { IfOk result
        (λ o. MatchOption o (is_none (members_fault (members_of list.now)) ≡ false)
        (λ ms. (is_none (members_fault (members_of list.now)) ≡ true) × (ms ≡ list.now))) }
{
    match Members::new(alloc, list) {
        Ok(members) => Ok(Some(members)),
        Err(AllocOr::Fault(_)) => Ok(None),
        Err(AllocOr::OutOfMemory) => Err(AllocError),
    }
}

/// The members of an epoch, if a console gives such a list to this house.
pub(crate) fn given_members(
    alloc: Global,
    house: HouseNo,
    epoch: EpochNo,
    given: &EpochList,
) -> Result<Option<Members>, AllocError>
    ensures { IfOk result (λ o.
        MatchOption o (is_given house.0 epoch.0 given.now ≡ false)
        (λ ms. (is_given house.0 epoch.0 given.now ≡ true) × (ms ≡ given.now.members))) }
{
    let Some(members) = members_in(alloc, given.members.list())? else {
        return Ok(None);
    };
    if members.master() == house
        && none_later(members.list(), epoch)
        && are_ascending(given.leaving.list())
        && none_listed(&members, given.leaving.list())
    {
        return Ok(Some(members));
    }
    Ok(None)
}
