// What a house has of directories.
ghost use Rattle.std.specs.Prelude.{◌≡◌, ℕ, ◌<◌, ◌≤◌, ◌==◌, length, None, IfOk, OnOk, OnErr, option_copied};
ghost use Rattle.std.specs.FinMap as map;
ghost use Rattle.std.specs.List.{list_all};
ghost use Rattle.std.specs.Option.{option_copied_mut};
ghost use Rattle.cds_stamps.specs.declared.members.Member as declared;
ghost use Rattle.cds_stamps.specs.Members.{is_accepting, members_fault, members_of, most_members, since_in};
ghost use Rattle.house_directory.specs.DirectoryTakes.{held_in, held_of, place_in};

use cds_stamps::{DirId, EpochNo, HouseNo, MemberKind, Members};
use purge_rule::Replica;
use skulk_core::Skulk;
use std::alloc::{AllocError, Global};
use std::collections::BTreeMap;
use std::collections::btree_map::Iter;
use std::marker::Model;

/// What a house holds of a directory that it is a member of: the epoch, the members, its replica,
/// and what it does about a skulk of its own.
pub struct Held {
    pub epoch: EpochNo,
    pub members: Members,
    pub replica: Replica,
    pub skulk: Skulk,
}

impl Drop for Held {
    fn drop(self) {
        let Held {
            epoch: _epoch,
            members: _members,
            replica: _replica,
            skulk: _skulk,
        } = self;
    }
}

/// What a house has of a directory.
pub enum DirState {
    Held(Held),
    /// It has left the directory in this epoch.
    Gone(EpochNo),
}

impl Drop for DirState {
    fn drop(self) {
        match self {
            DirState::Held(_field_1) => (),
            DirState::Gone(_field_1) => (),
        }
    }
}

/// The directories of a house, in ascending order of their numbers.
pub struct DirStates {
    states: BTreeMap<DirId, DirState>,
}

impl Drop for DirStates {
    fn drop(self) {
        let DirStates { states: _states } = self;
    }
}

impl Model for DirStates {
    ghost use Rattle.std.specs.FinMap as map;
    ghost use Rattle.cds_messages.specs.Dirs.{dir_cmp};
    ghost use Rattle.cds_messages.specs.PrivateDirCodes.{dir_code};
    ghost use Rattle.house_directory.specs.PrivateCodes.{dir_state_code};
    ghost use Rattle.house_directory.specs.declared.states.DirState.{DirState};

    ghost Value = { map.FinMap dir_cmp DirState };

    ghost coded = { map.code dir_code dir_state_code };

    ghost view = { λ m. map.from_entries m.states.entries };
}

impl DirStates {
    ghost use Rattle.std.specs.Borrow.{sem};
    ghost use Rattle.house_directory.specs.Lending.{LendsHeldIn};

    /// No directory yet.
    pub fn new(alloc: Global) -> Self
        ensures { result ≡ map.empty }
    {
        DirStates {
            states: BTreeMap::new(alloc),
        }
    }

    /// How many directories there are.
    pub fn len(&self) -> usize
        ensures { result ≡ map.len self.now }
    {
        self.states.len()
    }

    /// The directories, ascending.
    pub fn iter(&self) -> Iter<'_, DirId, DirState>
        ensures { result ≡ map.entries self.now }
    {
        self.states.iter()
    }

    /// What the house has of a directory.
    pub fn get(&self, dir: &DirId) -> Option<&DirState>
        ensures { option_copied result ≡ map.get self.now dir.now }
    {
        self.states.get(dir)
    }

    /// What is held of a directory.
    pub fn held(&self, dir: &DirId) -> Option<&Held>
        ensures { option_copied result ≡ held_in (map.get self.now dir.now) }
    {
        match self.get(dir) {
            Some(state) => state.held(),
            None => None,
        }
    }

    /// What is held of a directory, to be changed.
    pub fn held_mut(&mut self, dir: DirId) -> Option<&mut Held>
        ensures* writes_back { sem 𝓛 (LendsHeldIn self.entry dir result) }
        ensures value { option_copied_mut result ≡ held_in (map.get self.old dir) }
    {
        match self.states.get_mut(&dir) {
            Some(state) => state.held_mut(),
            None => None,
        }
    }

    /// Has this of a directory. What it had of it.
    pub fn insert(&mut self, dir: DirId, state: DirState) -> Result<Option<DirState>, AllocError>
        ensures before { IfOk result (λ before. before ≡ map.get self.old dir) }
        ensures ok { OnOk result (self.new ≡ map.insert self.old dir state) }
        ensures err { OnErr result (self.new ≡ self.old) }
    {
        Ok(self.states.insert(dir, state)?)
    }
}

impl DirState {
    ghost use Rattle.std.specs.Borrow.{sem};
    ghost use Rattle.house_directory.specs.Lending.{LendsHeld};

    /// What is held of the directory.
    fn held(&self) -> Option<&Held>
        ensures { option_copied result ≡ held_of self.now }
    {
        match self {
            DirState::Held(held) => Some(held),
            DirState::Gone(_) => None,
        }
    }

    /// What is held of the directory, to be changed.
    fn held_mut(&mut self) -> Option<&mut Held>
        ensures* writes_back { sem 𝓛 (LendsHeld self.entry result) }
        ensures value { option_copied_mut result ≡ held_of self.old }
    {
        match self {
            DirState::Held(held) => Some(held),
            DirState::Gone(_) => None,
        }
    }
}

impl Held {
    /// Whether this house accepts updates by the member list.
    pub(crate) fn accepts_from(&self, house: HouseNo) -> bool
        ensures { result ≡ is_accepting house.0 (members_of self.now.members) }
    {
        self.members.list().iter().any(|member| member.house == house
            && member.kind != MemberKind::ReadOnly)
    }

    /// Whether no other house is a member.
    pub(crate) fn is_alone(&self, house: HouseNo) -> bool
        ensures { result ≡ list_all
            (λ (m : declared.Member). m.house.0 == house.0) self.now.members }
    {
        self.members
            .list()
            .iter()
            .all(|member| member.house == house)
    }

    /// The place of this house in the member list; 0 where it is not listed, and then it runs no
    /// skulk.
    pub(crate) fn own_place(&self, house: HouseNo) -> usize
        ensures place { result ≡ place_in house self.now.members }
        ensures within { 0 < length self.now.members → result < length self.now.members }
    {
        self.members.place(house).unwrap_or(0)
    }

    /// How many members there are.
    pub(crate) fn count(&self) -> usize
        ensures count { result ≡ length self.now.members }
        ensures some { 0 < result }
        ensures few { result ≤ most_members }
        ensures lawful { members_fault (members_of self.now.members) ≡ None }
    {
        self.members.list().len()
    }
}

/// The epoch since which a house is a member without a break; 0 where it is none.
pub fn since_in(members: &Members, house: HouseNo) -> EpochNo
    ensures { result.0 ≡ since_in (members_of members.now) house.0 0 }
{
    for member in members.list() {
        if member.house == house {
            return member.since;
        }
    }
    EpochNo(0)
}
