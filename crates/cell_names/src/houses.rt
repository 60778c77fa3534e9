// The houses of a child pointer.
ghost use Rattle.std.specs.Prelude.{◌≡◌, ◌==◌, ◌||◌, ◌++◌, nat_lt, [], map, IfOk, OnOk, IfSome};
ghost use Rattle.cds_stamps.specs.Outcomes.{Answers, ok_unless};
ghost use Rattle.cds_stamps.specs.declared.alloc_or.AllocOr.TheVariants.{Fault};
ghost use Rattle.cell_names.specs.Houses.{IsHouses, is_houses, list_fault};
ghost use Rattle.std.specs.Cmp.Rules.{comparing, hashing};
ghost use Rattle.std.specs.Hash as fed;
ghost use Rattle.std.proofs.Common.{rules};

use cds_stamps::{AllocOr, HouseNo, MOST_MEMBERS};
use std::alloc::{AllocError, Global};
use std::hash::{Hash, Hasher};
use std::marker::Model;
use thiserror::Error;

/// The most houses of a directory. Each is one of its members.
pub const MOST_HOUSES: usize = MOST_MEMBERS;

// The most houses beside the master's.
const MOST_OTHERS: usize = MOST_HOUSES - 1;

/// Why houses are none of a child pointer. A place is counted from 1.
#[derive(Clone, Copy, Debug, PartialEq, Eq, Drop, Error)]
pub enum HousesFault {
    #[error("no further house at {0}")]
    BadHouses(usize),
}

/// The houses of a directory: that of the master, and the others in ascending order, 1 to 64 in
/// all.
#[derive(Debug)]
pub struct HouseList {
    master: HouseNo,
    others: Vec<HouseNo>,
}

impl Drop for HouseList {
    fn drop(self) {
        let HouseList {
            master: _master,
            others: _others,
        } = self;
    }
}

impl Model for HouseList {
    ghost use Rattle.std.specs.Prelude.{map};
    ghost use Rattle.cell_names.specs.Houses.{Houses, IsHouses};

    ghost Value = { Houses };

    ghost view = { λ v. record { master = v.master.0; others = map (λ h. h.0) v.others.items } };

    ghost invariant = { λ v. IsHouses (record { master = v.master.0; others = map (λ h. h.0) v.others.items }) };
}

impl PartialEq for HouseList {
    ghost eq = { is_houses };

    ghost laws = { Prim.search (comparing, rules) };

    fn eq(&self, other: &HouseList) -> bool {
        self.master == other.master && self.others.as_slice() == other.others.as_slice()
    }
}

impl Eq for HouseList {
    ghost laws = { Prim.search (comparing, rules) };
}

impl Hash for HouseList {
    ghost hash_input = { λ v. fed.u8 v.master ++ fed.slice fed.u8 v.others };

    ghost respects_eq = { Prim.search (hashing, rules) };

    fn hash<H: Hasher>(&self, state: &mut H) {
        self.master.hash(state);
        self.others.as_slice().hash(state);
    }
}

impl HouseList {
    /// The houses of a directory, or the first place of the others, counted from 1, whose house is
    /// not above the one before it, is the master's, or is the 64th. No memory is asked for where
    /// there is a fault.
    pub fn new(
        alloc: Global,
        master: HouseNo,
        others: &[HouseNo],
    ) -> Result<HouseList, AllocOr<HousesFault>>
        ensures answer { let numbers = map (λ h. h.0) others.now in
            Answers result
            (ok_unless (list_fault master.0 numbers)
            (record { master = master.0; others = numbers })) }
        ensures faulty { IfSome (list_fault master.0 (map (λ h. h.0) others.now))
            (λ fault. result ≡ Err (Fault fault)) }
    {
        check_others(master, others).map_err(AllocOr::Fault)?;
        Ok(HouseList {
            master,
            others: Vec::from_slice(alloc, others)?,
        })
    }

    /// The houses of a directory that the master's has alone: only memory can be wanting.
    pub fn alone(alloc: Global, master: HouseNo) -> Result<HouseList, AllocError>
        ensures { IfOk result (λ v. v ≡ record { master = master.0; others = [] }) }
    {
        HouseList::of_numbers(alloc, master.0, &[])
    }

    /// The house of the master.
    pub fn master(&self) -> HouseNo
        ensures { result.0 ≡ self.now.master }
    {
        self.master
    }

    /// The other houses, in ascending order.
    pub fn others(&self) -> &[HouseNo]
        ensures value { map (λ h. h.0) result.now ≡ self.now.others }
        ensures lawful { IsHouses self.now }
    {
        &self.others
    }

    /// Another list of the same houses.
    pub fn copy(&self, alloc: Global) -> Result<HouseList, AllocError>
        ensures { IfOk result (λ v. v ≡ self.now) }
    {
        Ok(HouseList {
            master: self.master,
            others: Vec::from_slice(alloc, &self.others)?,
        })
    }

    // The houses of these numbers.
    pub(crate) fn of_numbers(
        alloc: Global,
        master: u8,
        others: &[u8],
    ) -> Result<HouseList, AllocError>
        requires { IsHouses (record { master = master; others = others.now }) }
        ensures { IfOk result (λ v. v ≡ record { master = master; others = others.now }) }
    {
        Ok(HouseList {
            master: HouseNo(master),
            others: houses_of(alloc, others)?,
        })
    }
}

// The houses of these numbers.
fn houses_of(alloc: Global, numbers: &[u8]) -> Result<Vec<HouseNo>, AllocError>
    ensures { IfOk result (λ v. map (λ h. h.0) v.items ≡ numbers.now) }
{
    numbers.iter().map(|number| HouseNo(*number)).collect(alloc)
}

// Whether houses ascend, leave out the master's and are not too many.
fn check_others(master: HouseNo, others: &[HouseNo]) -> Result<(), HousesFault>
    ensures lawful { OnOk result
        (IsHouses (record { master = master.0; others = map (λ h. h.0) others.now })) }
    ensures value { result ≡ ok_unless (list_fault master.0 (map (λ h. h.0) others.now)) tt }
{
    let mut least = 0;
    for (i, house) in others.iter().enumerate() {
        if i == MOST_OTHERS || is_misplaced(house.0, master.0, least) {
            return Err(HousesFault::BadHouses(i + 1));
        }
        least = u16::from(house.0) + 1;
    }
    Ok(())
}

// Whether a house can't come next: it is the master, or below the least that may come.
pub(crate) fn is_misplaced(house: u8, master: u8, least: u16) -> bool
    ensures { result ≡ (house == master || nat_lt house least) }
{
    house == master || u16::from(house) < least
}
