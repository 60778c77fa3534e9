// The members of a group, as its values spell them.
ghost use Rattle.std.specs.Prelude.{◌≡◌, ◌++◌, ◌∷◌, [], map, filter, IfOk, OnOk, IfSome, if◌then◌else◌};
ghost use Rattle.cds_stamps.specs.Outcomes.{Answers, ok_unless};
ghost use Rattle.cds_stamps.specs.declared.alloc_or.AllocOr.TheVariants.{Fault};
ghost use Rattle.cell_names.specs.FullNames.{components_of, is_full_name};
ghost use Rattle.ns_groups.specs.Groups.{member_fault, members_of};

use attr_sets::{Value, all_in_order};
use cds_stamps::AllocOr;
use cell_names::{FullName, LentName};
use std::alloc::{AllocError, Global};
use thiserror::Error;

/// Why a value spells no member, or a member is not deleted.
#[derive(Clone, Copy, Debug, PartialEq, Eq, Drop, Error)]
pub enum GroupFault {
    #[error("the value is no full name")]
    BadMemberValue,
    #[error("the group has no such member")]
    NoSuchMember,
}

/// The member that a value spells: BadMemberValue where its octets are no full name, and then no
/// memory is asked for.
pub fn member_of(alloc: Global, value: &Value) -> Result<FullName, AllocOr<GroupFault>>
    ensures answer { Answers result (ok_unless (member_fault value.now) (components_of value.now)) }
    ensures faulty { IfSome (member_fault value.now) (λ fault. result ≡ Err (Fault fault)) }
{
    match FullName::parse(alloc, value.octets()) {
        Ok(member) => Ok(member),
        Err(AllocOr::Fault(_)) => Err(AllocOr::Fault(GroupFault::BadMemberValue)),
        Err(AllocOr::OutOfMemory) => Err(AllocOr::OutOfMemory),
    }
}

/// The members that values in any order spell, in ascending order of their octets. A value that is
/// no full name is passed over, and one that is there twice counts once.
pub fn members(alloc: Global, values: &[Value]) -> Result<Vec<FullName>, AllocError>
    ensures { IfOk result (λ v. v.items ≡ members_of values.now) }
{
    let sorted = all_in_order(alloc, values)?;
    let names = members_in_order(alloc, &sorted)?;
    LentName::copies(alloc, &names)
}

/// The members that these values spell, in the order of the values: where they ascend, as those
/// that show of an entry do, the order of `members`. Their octets stay in the values.
pub fn members_in_order<'a>(
    alloc: Global,
    values: &[&'a Value],
) -> Result<Vec<LentName<'a>>, AllocError>
    ensures { IfOk result
        (λ v. v.items
        ≡ map components_of (filter is_full_name (map (λ value. value.now) values.now))) }
{
    let mut names = Vec::with_capacity(alloc, values.len())?;
    for value in values {
        push_if_readable(&mut names, value.octets())?;
    }
    Ok(names)
}

// Puts the full name of these octets after others, if they are one.
fn push_if_readable<'a>(names: &mut Vec<LentName<'a>>, octets: &'a [u8]) -> Result<(), AllocError>
    ensures { OnOk result
        (names.new.items
        ≡ names.old.items ++ map components_of (filter is_full_name (octets.now ∷ []))) }
{
    match LentName::of(octets) {
        Ok(name) => Ok(names.push(name)?),
        Err(_) => Ok(()),
    }
}
