// The members of a directory's replica set.
ghost use Rattle.std.specs.Prelude.{◌≡◌, IfOk, IfSome, None};
ghost use Rattle.cds_stamps.specs.Members.{members_of, members_fault, master_of, place_of, first_unordered, masters_in};
ghost use Rattle.cds_stamps.specs.Outcomes.{Answers, ok_unless};
ghost use Rattle.cds_stamps.specs.declared.alloc_or.AllocOr.TheVariants.{Fault};

use crate::alloc_or::AllocOr;
use crate::numbers::{EpochNo, HouseNo};
use std::alloc::{AllocError, Global};
use std::marker::Model;
use thiserror::Error;

/// The most members of a directory.
pub const MOST_MEMBERS: usize = 64;

/// What a member of a directory's replica set is.
#[derive(Clone, Copy, Debug, PartialEq, Eq)]
pub enum MemberKind {
    /// It accepts updates, and skulks.
    Master,
    /// It takes what others post.
    ReadOnly,
    /// It accepts updates, and never skulks.
    Secondary,
}

/// A house of a directory's replica set, and the epoch that began its unbroken run of being listed.
#[derive(Clone, Copy, Debug, PartialEq, Eq)]
pub struct Member {
    pub house: HouseNo,
    pub since: EpochNo,
    pub kind: MemberKind,
}

/// Why houses are no member list. A place is counted from 1.
#[derive(Clone, Copy, Debug, PartialEq, Eq, Drop, Error)]
pub enum MembersFault {
    #[error("not 1 to 64 members")]
    BadCount,
    #[error("a member that is not above the one before, at {0}")]
    NotAscending(usize),
    #[error("not exactly one master")]
    BadMaster,
}

/// The members of a directory's replica set: 1 to 64, in ascending house number, and one of them
/// the master.
#[derive(Debug)]
pub struct Members {
    list: Vec<Member>,
}

impl Drop for Members {
    fn drop(self) {
        let Members { list: _list } = self;
    }
}

impl Model for Members {
    ghost use Rattle.std.specs.Prelude.{List, ◌≡◌, None};
    ghost use Rattle.cds_stamps.specs.Members.{members_of, members_fault};
    ghost use Rattle.cds_stamps.specs.declared.members.Member.{Member};

    ghost Value = { List Member };

    ghost view = { λ v. v.list.items };

    ghost invariant = { λ v. members_fault (members_of v.list.items) ≡ None };
}

impl Members {
    /// The member list of these, or the first rule that they break: their number, their order, one
    /// master. No memory is asked for where there is a fault.
    pub fn new(alloc: Global, list: &[Member]) -> Result<Members, AllocOr<MembersFault>>
        ensures answer { Answers result (ok_unless (members_fault (members_of list.now)) list.now) }
        ensures faulty { IfSome (members_fault (members_of list.now))
            (λ fault. result ≡ Err (Fault fault)) }
    {
        check_members(list).map_err(AllocOr::Fault)?;
        Ok(Members::known(alloc, list)?)
    }

    /// The member list of members that are known to be one: only memory can be wanting.
    pub fn known(alloc: Global, list: &[Member]) -> Result<Members, AllocError>
        requires { members_fault (members_of list.now) ≡ None }
        ensures { IfOk result (λ v. v ≡ list.now) }
    {
        Ok(Members {
            list: Vec::from_slice(alloc, list)?,
        })
    }

    /// The members in ascending house number.
    pub fn list(&self) -> &[Member]
        ensures value { result.now ≡ self.now }
        ensures lawful { members_fault (members_of result.now) ≡ None }
    {
        self.list.as_slice()
    }

    /// Where a house is in the list, counted from 0. None exactly where it is not listed.
    pub fn place(&self, house: HouseNo) -> Option<usize>
        ensures { result ≡ place_of house.0 (members_of self.now) }
    {
        self.list.iter().position(|member| member.house == house)
    }

    /// The house of the master.
    pub fn master(&self) -> HouseNo
        ensures { result.0 ≡ master_of (members_of self.now) }
    {
        for member in &self.list {
            if member.kind == MemberKind::Master {
                return member.house;
            }
        }
        HouseNo(0)
    }

    /// Another member list of the same members.
    pub fn copy(&self, alloc: Global) -> Result<Members, AllocError>
        ensures { IfOk result (λ v. v ≡ self.now) }
    {
        Ok(Members {
            list: Vec::from_slice(alloc, self.list.as_slice())?,
        })
    }
}

// Whether these are a member list, without memory.
fn check_members(list: &[Member]) -> Result<(), MembersFault>
    ensures { result ≡ ok_unless (members_fault (members_of list.now)) tt }
{
    if list.is_empty() || list.len() > MOST_MEMBERS {
        return Err(MembersFault::BadCount);
    }
    if let Some(place) = unordered_place(list) {
        return Err(MembersFault::NotAscending(place));
    }
    if count_masters(list) != 1 {
        return Err(MembersFault::BadMaster);
    }
    Ok(())
}

// The place of the first member that is not above the one before it.
fn unordered_place(list: &[Member]) -> Option<usize>
    ensures { result ≡ first_unordered 1 0 (members_of list.now) }
{
    let mut least = 0;
    for (i, member) in list.iter().enumerate() {
        if u16::from(member.house.0) < least {
            return Some(i + 1);
        }
        least = u16::from(member.house.0) + 1;
    }
    None
}

// How many of these are masters.
fn count_masters(list: &[Member]) -> usize
    ensures { result ≡ masters_in (members_of list.now) }
{
    list.iter()
        .filter(|member| member.kind == MemberKind::Master)
        .count()
}
