// The updates that change the members of a group.
ghost use Rattle.std.specs.Prelude.{◌≡◌, ◌∷◌, [], true, false, IfOk, IfSome, MatchOption};
ghost use Rattle.std.specs.List.{list_any};
ghost use Rattle.std.specs.Result.{result_map_both};
ghost use Rattle.cds_stamps.specs.Octets.{is_octets};
ghost use Rattle.cds_stamps.specs.Outcomes.{Answers, ok_unless};
ghost use Rattle.cds_stamps.specs.declared.alloc_or.AllocOr.TheVariants.{Fault};
ghost use Rattle.cell_names.specs.FullNames.{full_name_octets};
ghost use Rattle.directory.specs.Updates.{Add, Remove, change_of};
ghost use Rattle.directory.specs.EntryChanges.{changes};
ghost use Rattle.ns_groups.specs.Groups.{group, member_addition, delete_fault, member_deletion};

use crate::member::GroupFault;
use attr_sets::Value;
use cds_stamps::{AllocOr, AttrName, SimpleName};
use cell_names::FullName;
use directory::{Update, creation};
use std::alloc::{AllocError, Global};

/// The attribute with the members of a group.
pub const GROUP: &[u8] = b"RPC_Group";

/// The updates that add a member to an entry: one that creates the entry, where it is absent, and
/// one that adds the member.
pub fn add(
    alloc: Global,
    name: &SimpleName,
    absent: bool,
    member: &FullName,
) -> Result<Vec<Update>, AllocError>
    ensures { IfOk result (λ v. changes v.items ≡ member_addition name.now absent member.now) }
{
    let mut updates = creation(alloc, name, absent)?;
    updates.push(addition(alloc, name, member)?)?;
    Ok(updates)
}

/// The update that deletes a member of an entry with these values of the group attribute:
/// NoSuchMember where none of them is the octets of the member, and then no memory is asked for.
pub fn delete(
    alloc: Global,
    name: &SimpleName,
    values: &[Value],
    member: &FullName,
) -> Result<Vec<Update>, AllocOr<GroupFault>>
    ensures answer { Answers (result_map_both (λ v. changes v.items) (λ e. e) result)
        (ok_unless (delete_fault values.now member.now) (member_deletion name.now member.now)) }
    ensures faulty { IfSome (delete_fault values.now member.now)
        (λ fault. result ≡ Err (Fault fault)) }
{
    match value_of(values, member) {
        Some(value) => Ok(removal(alloc, name, value)?),
        None => Err(AllocOr::Fault(GroupFault::NoSuchMember)),
    }
}

// The update that adds a member.
fn addition(alloc: Global, name: &SimpleName, member: &FullName) -> Result<Update, AllocError>
    ensures { IfOk result (λ u. change_of u ≡ Add name.now group (full_name_octets member.now)) }
{
    let value = spelled(alloc, member)?;
    Ok(Update::Add(name.copy(alloc)?, AttrName::known(alloc, GROUP)?, value))
}

// The update that removes a value of the group attribute, alone in a list.
fn removal(alloc: Global, name: &SimpleName, value: &Value) -> Result<Vec<Update>, AllocError>
    ensures { IfOk result (λ v. changes v.items ≡ Remove name.now group value.now ∷ []) }
{
    let mut updates = Vec::new(alloc);
    let value = value.copy(alloc)?;
    updates.push(Update::Remove(name.copy(alloc)?, AttrName::known(alloc, GROUP)?, value))?;
    Ok(updates)
}

// The value that spells a full name: only memory can be wanting.
fn spelled(alloc: Global, name: &FullName) -> Result<Value, AllocError>
    ensures { IfOk result (λ v. v ≡ full_name_octets name.now) }
{
    let octets = name.print(alloc)?;
    Value::known(alloc, &octets)
}

// The first of these values that spells a full name.
fn value_of<'a>(values: &'a [Value], name: &FullName) -> Option<&'a Value>
    ensures { MatchOption result
        (list_any (is_octets (full_name_octets name.now)) values.now ≡ false)
        (λ value. (list_any (is_octets (full_name_octets name.now)) values.now ≡ true)
        × (value.now ≡ full_name_octets name.now)) }
{
    for value in values {
        if name.is_spelled(value.octets()) {
            return Some(value);
        }
    }
    None
}
