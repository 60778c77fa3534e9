// Child pointers.
ghost use Rattle.std.specs.Prelude.{◌≡◌, ◌<◌, ◌^◌, Some, None, IfOk, IfErr, IfSome};
ghost use Rattle.std.specs.Int.{to_be_bytes, w32};
ghost use Rattle.cds_stamps.specs.Outcomes.{ok_unless};
ghost use Rattle.cds_stamps.specs.declared.alloc_or.AllocOr.TheVariants.{Fault, OutOfMemory};
ghost use Rattle.cell_names.specs.ChildPointers.{others_fault, others_place, pointer_fault};

use crate::houses::{HouseList, MOST_HOUSES, is_misplaced};
use byteorder::{BigEndian, ByteOrder};
use cds_stamps::{AllocOr, DirId};
use std::alloc::{AllocError, Global};
use thiserror::Error;

// How many octets the number of a directory has.
const DIR_LEN: usize = 4;

// The place of the number of houses, and that of the first house after the master's; counted from
// 1.
const COUNT: usize = 5;

const OTHERS: usize = 7;

/// Why octets are no child pointer. A place is counted from 1.
#[derive(Clone, Copy, Debug, PartialEq, Eq, Drop, Error)]
pub enum ChildFault {
    #[error("no child pointer at {0}")]
    BadChild(usize),
}

/// A pointer to the directory of a child: its number, and the houses that have it.
#[derive(Debug, PartialEq, Eq, Hash)]
pub struct ChildPointer {
    pub dir: DirId,
    pub houses: HouseList,
}

impl Drop for ChildPointer {
    fn drop(self) {
        let ChildPointer {
            dir: _dir,
            houses: _houses,
        } = self;
    }
}

impl ChildPointer {
    ghost use Rattle.cell_names.specs.ChildPointers.{pointer_in, pointer_octets, pointer_of};

    /// Whether octets are a child pointer: the directory (4 octets, the highest first), the number
    /// of houses (1), the master's house (1) and the other houses (1 each), and nothing after them.
    /// Else the place of the first field that breaks this, of the first octet that is missing, or
    /// of the first too many. Takes no memory.
    pub fn check(octets: &[u8]) -> Result<(), ChildFault>
        ensures { result ≡ ok_unless (pointer_fault octets.now) tt }
    {
        match octets {
            [_, _, _, _, count, ..] if *count == 0 || usize::from(*count) > MOST_HOUSES => {
                Err(ChildFault::BadChild(COUNT))
            }
            [_, _, _, _, count, master, others @ ..] => check_others(others, *master, *count - 1),
            _ => Err(ChildFault::BadChild(octets.len() + 1)),
        }
    }

    /// The child pointer of these octets, or their fault, which is that of `check`. No memory is
    /// asked for where there is a fault.
    pub fn read(alloc: Global, octets: &[u8]) -> Result<ChildPointer, AllocOr<ChildFault>>
        ensures read { IfOk result (λ p. pointer_of octets.now ≡ Some (pointer_in p)) }
        ensures faulty { IfSome (pointer_fault octets.now) (λ fault. result ≡ Err (Fault fault)) }
        ensures lacking { pointer_fault octets.now ≡ None → IfErr result (λ e. e ≡ OutOfMemory) }
    {
        ChildPointer::check(octets).map_err(AllocOr::Fault)?;
        Ok(ChildPointer::known(alloc, octets)?)
    }

    /// The child pointer of octets that are known to be one: only memory can be wanting.
    pub fn known(alloc: Global, octets: &[u8]) -> Result<ChildPointer, AllocError>
        requires { pointer_fault octets.now ≡ None }
        ensures { IfOk result (λ p. pointer_of octets.now ≡ Some (pointer_in p)) }
    {
        match octets {
            [a, b, c, d, _, master, others @ ..] => Ok(ChildPointer {
                dir: DirId(u32::from_be_bytes([*a, *b, *c, *d])),
                houses: HouseList::of_numbers(alloc, *master, others)?,
            }),
            _ => unreachable!(),
        }
    }

    /// The octets of the child pointer, as `check` has them.
    pub fn write(&self, alloc: Global) -> Result<Vec<u8>, AllocError>
        ensures written { IfOk result (λ v. v.items ≡ pointer_octets (pointer_in self.now)) }
        ensures readable { IfOk result (λ v. pointer_of v.items ≡ Some (pointer_in self.now)) }
    {
        let others = self.houses.others();
        let mut octets = Vec::with_capacity(alloc, OTHERS - 1 + others.len())?;
        octets.extend_from_slice(&dir_octets(self.dir))?;
        octets.push(others.len() as u8 + 1)?;
        octets.push(self.houses.master().0)?;
        for house in others {
            octets.push(house.0)?;
        }
        Ok(octets)
    }

    /// Another pointer to the same directory at the same houses.
    pub fn copy(&self, alloc: Global) -> Result<ChildPointer, AllocError>
        ensures { IfOk result (λ v. v ≡ self.now) }
    {
        Ok(ChildPointer {
            dir: self.dir,
            houses: self.houses.copy(alloc)?,
        })
    }
}

// The octets of the number of a directory, the highest first.
fn dir_octets(dir: DirId) -> [u8; DIR_LEN]
    ensures octets { result ≡ to_be_bytes w32 dir.0 }
    ensures range { dir.0 < 2 ^ 32 }
{
    let mut octets = [0; DIR_LEN];
    BigEndian::write_u32(&mut octets, dir.0);
    octets
}

// Whether the houses beside this master are as many, ascend and leave it out.
fn check_others(others: &[u8], master: u8, count: u8) -> Result<(), ChildFault>
    ensures { result ≡ ok_unless (others_fault master others_place count others.now) tt }
{
    let mut least = 0;
    for (i, house) in others.iter().enumerate() {
        if i == usize::from(count) || is_misplaced(*house, master, least) {
            return Err(ChildFault::BadChild(OTHERS + i));
        }
        least = u16::from(*house) + 1;
    }
    if others.len() < usize::from(count) {
        return Err(ChildFault::BadChild(OTHERS + others.len()));
    }
    Ok(())
}
