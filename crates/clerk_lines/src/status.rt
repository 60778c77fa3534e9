// Where the root directory is, by what a house answers to `status`.
ghost use Rattle.std.specs.Prelude.{◌≡◌, IfOk, map};
ghost use Rattle.std.specs.Option.{option_map};
ghost use Rattle.cell_names.specs.Houses.{list_fault};
ghost use Rattle.cell_script.specs.Words.{words_of};
ghost use Rattle.clerk_lines.specs.RootLists.{front_said, houses_of, houses_unless, master_in, member_said, members_said, others_in, root_said};

use cds_stamps::{AllocOr, EpochNo, HouseNo};
use cell_names::HouseList;
use cell_script::{Words, number_up_to};
use std::alloc::{AllocError, Global};
use tower_codec::split_at_mark;

/// The houses of the root directory, by the list of this epoch.
#[derive(Drop)]
pub struct RootList {
    pub epoch: EpochNo,
    pub houses: HouseList,
}

/// A member of a directory: its house, and whether that is the master.
#[derive(Clone, Copy, Debug)]
pub(crate) struct RootMember {
    pub(crate) house: HouseNo,
    pub(crate) is_master: bool,
}

// The member of a word.
#[tactic(auto, unfolding(crate::specs::RootLists::member_said))]
fn member(word: &[u8]) -> Option<RootMember>
    ensures { result ≡ member_said word.now }
{
    let (house, later) = split_at_mark(word, b':')?;
    let (_, kind) = split_at_mark(later, b':')?;
    let number = number_up_to(house, 255)?;
    Some(RootMember {
        house: HouseNo(number as u8),
        is_master: kind == b"m".as_slice(),
    })
}

// The members of words.
#[tactic(auto, unfolding(crate::specs::RootLists::members_said))]
fn members(alloc: Global, words: &mut Words<'_>) -> Result<Option<Vec<RootMember>>, AllocError>
    ensures { IfOk result (λ ms. option_map (λ v. v.items) ms ≡ members_said words.old.rest) }
{
    let mut members = Vec::new(alloc);
    while let Some(word) = words.next() {
        match member(word) {
            Some(member) => members.push(member)?,
            None => return Ok(None),
        }
    }
    Ok(Some(members))
}

// The houses of the members beside the master.
fn others(alloc: Global, members: &[RootMember]) -> Result<Vec<HouseNo>, AllocError>
    ensures { IfOk result (λ v. map (λ h. h.0) v.items ≡ others_in members.now) }
{
    let mut others = Vec::new(alloc);
    for member in members {
        if !member.is_master {
            others.push(member.house)?;
        }
    }
    Ok(others)
}

// The house of the master.
fn master(members: &[RootMember]) -> Option<HouseNo>
    ensures { result ≡ master_in members.now }
{
    for member in members {
        if member.is_master {
            return Some(member.house);
        }
    }
    None
}

// The houses of a directory, if they are some.
fn listed(
    alloc: Global,
    master: HouseNo,
    others: &[HouseNo],
) -> Result<Option<HouseList>, AllocError>
    ensures { let numbers = map (λ h. h.0) others.now in IfOk result (λ hs. hs
        ≡ houses_unless (list_fault master.0 numbers)
        (record { master = master.0; others = numbers })) }
{
    match HouseList::new(alloc, master, others) {
        Ok(houses) => Ok(Some(houses)),
        Err(AllocOr::Fault(_)) => Ok(None),
        Err(AllocOr::OutOfMemory) => Err(AllocError),
    }
}

// The houses of members.
fn houses(alloc: Global, members: &[RootMember]) -> Result<Option<HouseList>, AllocError>
    ensures { IfOk result (λ hs. hs ≡ houses_of members.now) }
{
    let Some(master) = master(members) else {
        return Ok(None);
    };
    let others = others(alloc, members)?;
    listed(alloc, master, &others)
}

// The epoch of a status. Its members are the words that are left.
fn front(words: &mut Words<'_>) -> Option<u64>
    ensures { option_map (λ e. (e, words.new.rest)) result ≡ front_said words.old.rest }
{
    let ok = words.next()?;
    let name = words.next()?;
    let number = words.next()?;
    let _allupto = words.next()?;
    let _stamp = words.next()?;
    let _skulk = words.next()?;
    let _running = words.next()?;
    let _entries = words.next()?;
    let _count = words.next()?;
    let members = words.next()?;
    if ok == b"ok".as_slice() && name == b"epoch".as_slice() && members == b"members".as_slice() {
        number_up_to(number, u64::MAX)
    } else {
        None
    }
}

/// Where the root directory is, by the line that a house answers to `status 1`. Nothing, if it has
/// no replica, or says what no house says.
#[tactic(auto, unfolding(crate::specs::RootLists::root_said))]
pub fn read_root(alloc: Global, line: &[u8]) -> Result<Option<RootList>, AllocError>
    ensures { IfOk result (λ r. r ≡ root_said (words_of line.now)) }
{
    let mut words = Words::of(line);
    let Some(epoch) = front(&mut words) else {
        return Ok(None);
    };
    let Some(members) = members(alloc, &mut words)? else {
        return Ok(None);
    };
    match houses(alloc, &members)? {
        Some(houses) => Ok(Some(RootList {
            epoch: EpochNo(epoch),
            houses,
        })),
        None => Ok(None),
    }
}
