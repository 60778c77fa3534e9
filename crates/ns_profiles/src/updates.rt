// The updates that change the elements of a profile.
ghost use Rattle.std.specs.Prelude.{◌≡◌, ◌≢◌, ◌+◌, ◌≤◌, ◌++◌, ◌∷◌, [], Some, None, map, length, option_copied, IsTrue, MatchResult, IfOk, OnOk};
ghost use Rattle.std.specs.Prelude.{IfSome, true, if◌then◌else◌};
ghost use Rattle.std.specs.Int.{to_be_bytes, w16};
ghost use Rattle.std.specs.List.{list_all};
ghost use Rattle.std.specs.Result.{result_map_both};
ghost use Rattle.cds_stamps.specs.Outcomes.{Answers, ok_unless};
ghost use Rattle.cds_stamps.specs.declared.alloc_or.AllocOr.TheVariants.{Fault};
ghost use Rattle.attr_sets.specs.Values.{value_fault};
ghost use Rattle.cell_names.specs.FullNames.{full_name_octets, IsComponentList};
ghost use Rattle.tower_codec.specs.Rpc.{IsInterface};
ghost use Rattle.directory.specs.Updates.{Add, Remove, change_of};
ghost use Rattle.directory.specs.EntryChanges.{changes, creation};
ghost use Rattle.ns_profiles.specs.Elements.{is_annotation_octet, element_octets, element_of};
ghost use Rattle.ns_profiles.specs.Profiles.{profile, most_text, is_priority, written_interface, new_element, add_fault, element_addition, is_element, delete_fault, element_deletion};

use crate::element::{DEFAULT, NAME};
use crate::fault::ProfileFault;
use crate::search::elements_of;
use attr_sets::{Value, in_order};
use byteorder::{BigEndian, ByteOrder};
use cds_stamps::{AllocOr, AttrName, SimpleName};
use cell_names::FullName;
use directory::{Update, creation};
use std::alloc::{AllocError, Global};
use tower_codec::Interface;
use uuid::Uuid;

/// The attribute with the elements of a profile.
pub const PROFILE: &[u8] = b"RPC_Profile";

// The most octets of a member's name and an annotation together: with the octets in front of them
// they make a value.
const MOST_TEXT: usize = 1001;

/// The updates that add an element to an entry: one that creates the entry, where it is absent, and
/// one that adds the element, which is a default element where no interface is given. BadPriority
/// where a default element's priority is not 8, or another's is above 7; then ElementTooLong where
/// the member's name and the annotation have more than 1,001 octets together. No memory is asked
/// for where there is a fault. The annotation's octets are 0x20 to 0x7E.
pub fn add(
    alloc: Global,
    name: &SimpleName,
    absent: bool,
    interface: Option<&Interface>,
    member: &FullName,
    priority: u8,
    annotation: &[u8],
) -> Result<Vec<Update>, AllocOr<ProfileFault>>
    requires { IsTrue (list_all is_annotation_octet annotation.now) }
    ensures answer { Answers (result_map_both (λ v. changes v.items) (λ e. e) result)
        (ok_unless (add_fault (option_copied interface.entry) member.now priority annotation.now)
        (element_addition name.now absent
        (new_element (option_copied interface.entry) member.now priority annotation.now))) }
    ensures faulty { IfSome (add_fault
        (option_copied interface.entry) member.now priority annotation.now)
        (λ fault. result ≡ Err (Fault fault)) }
    ensures readable { let element = new_element (option_copied interface.entry) member.now priority annotation.now in
        OnOk result (element_of (element_octets element) ≡ Some element) }
{
    match check_new(interface, member, priority, annotation) {
        Ok(()) => {
            let written = interface_or_none(interface);
            let octets = element(alloc, &written, member, priority, annotation)?;
            Ok(additions(alloc, name, absent, &octets)?)
        }
        Err(fault) => Err(AllocOr::Fault(fault)),
    }
}

/// The updates that delete the elements for an interface, or the default elements where none is
/// given, that have this member: one for each of the values that is such an element, in ascending
/// order of their octets, whatever order the values have and however often they stand there.
/// NoSuchElement where none of them is, and then no memory is asked for.
pub fn delete(
    alloc: Global,
    name: &SimpleName,
    values: &[Value],
    interface: Option<&Interface>,
    member: &FullName,
) -> Result<Vec<Update>, AllocOr<ProfileFault>>
    ensures answer { Answers (result_map_both (λ v. changes v.items) (λ e. e) result)
        (ok_unless (delete_fault (option_copied interface.entry) member.now values.now)
        (element_deletion name.now (option_copied interface.entry) member.now values.now)) }
    ensures faulty { IfSome (delete_fault (option_copied interface.entry) member.now values.now)
        (λ fault. result ≡ Err (Fault fault)) }
{
    let found = elements_of(alloc, values, interface, member)?;
    if found.is_empty() {
        return Err(AllocOr::Fault(ProfileFault::NoSuchElement));
    }
    let sorted = in_order(found);
    Ok(removals(alloc, name, &sorted)?)
}

/// Whether an element may be added: BadPriority where a default element's priority is not 8, or
/// another's is above 7; then ElementTooLong where the member's name and the annotation have more
/// than 1,001 octets together.
pub fn check_new(
    interface: Option<&Interface>,
    member: &FullName,
    priority: u8,
    annotation: &[u8],
) -> Result<(), ProfileFault>
    ensures found { MatchResult result
        (λ _. add_fault (option_copied interface.entry) member.now priority annotation.now ≡ None)
        (λ fault. add_fault (option_copied interface.entry) member.now priority annotation.now
        ≡ Some fault) }
    ensures named { OnOk result (IsComponentList member.now) }
{
    if !is_priority(interface, priority) {
        return Err(ProfileFault::BadPriority);
    }
    if annotation.len() > MOST_TEXT || member.spelled_len() + annotation.len() > MOST_TEXT {
        return Err(ProfileFault::ElementTooLong);
    }
    Ok(())
}

// Whether a default element, or one for an interface, may have this priority.
fn is_priority(interface: Option<&Interface>, priority: u8) -> bool
    ensures { result ≡ is_priority (option_copied interface.entry) priority }
{
    match interface {
        None => priority == DEFAULT,
        Some(_) => priority < DEFAULT,
    }
}

// The interface that is written: the nil UUID and version 0.0 where there is none.
fn interface_or_none(interface: Option<&Interface>) -> Interface
    ensures { result ≡ written_interface (option_copied interface.entry) }
{
    match interface {
        None => Interface {
            uuid: Uuid::nil(),
            major: 0,
            minor: 0,
        },
        Some(interface) => *interface,
    }
}

// The octets of an element that may be added.
fn element(
    alloc: Global,
    interface: &Interface,
    member: &FullName,
    priority: u8,
    annotation: &[u8],
) -> Result<Vec<u8>, AllocError>
    requires { length (full_name_octets member.now) + length annotation.now ≤ most_text }
    ensures spelled { IfOk result (λ v. v.items ≡ element_octets (record {
      priority = priority;
      interface = interface.now;
      member = member.now;
      annotation = annotation.now;
    })) }
    ensures lawful { IfOk result (λ v. value_fault v.items ≡ None) }
    ensures fits { OnOk result (IsInterface interface.now) }
{
    let name_len = member.spelled_len();
    let mut octets = Vec::with_capacity(alloc, NAME + name_len + annotation.len())?;
    octets.push(priority)?;
    octets.extend_from_slice(interface.uuid.as_bytes())?;
    push_number(&mut octets, interface.major)?;
    push_number(&mut octets, interface.minor)?;
    push_number(&mut octets, name_len as u16)?;
    member.append_spelling(&mut octets)?;
    octets.extend_from_slice(annotation)?;
    Ok(octets)
}

// Puts a number after octets, the higher octet first.
fn push_number(octets: &mut Vec<u8>, number: u16) -> Result<(), AllocError>
    ensures { OnOk result (octets.new.items ≡ octets.old.items ++ to_be_bytes w16 number) }
{
    let mut written = [0; 2];
    BigEndian::write_u16(&mut written, number);
    octets.extend_from_slice(&written)?;
    Ok(())
}

// The updates that add a value of these octets.
fn additions(
    alloc: Global,
    name: &SimpleName,
    absent: bool,
    octets: &[u8],
) -> Result<Vec<Update>, AllocError>
    requires { value_fault octets.now ≡ None }
    ensures { IfOk result
        (λ v. changes v.items ≡ creation name.now absent ++ Add name.now profile octets.now ∷ []) }
{
    let mut updates = creation(alloc, name, absent)?;
    updates.push(addition(alloc, name, octets)?)?;
    Ok(updates)
}

// The update that adds a value of these octets.
fn addition(alloc: Global, name: &SimpleName, octets: &[u8]) -> Result<Update, AllocError>
    requires { value_fault octets.now ≡ None }
    ensures { IfOk result (λ u. change_of u ≡ Add name.now profile octets.now) }
{
    let value = Value::known(alloc, octets)?;
    Ok(Update::Add(name.copy(alloc)?, AttrName::known(alloc, PROFILE)?, value))
}

// The updates that remove values, in their order.
fn removals(alloc: Global, name: &SimpleName, values: &[&Value]) -> Result<Vec<Update>, AllocError>
    ensures { IfOk result
        (λ v. changes v.items ≡ map (λ value. Remove name.now profile value.now) values.now) }
{
    let mut updates = Vec::with_capacity(alloc, values.len())?;
    for value in values {
        updates.push(removal(alloc, name, value)?)?;
    }
    Ok(updates)
}

// The update that removes a value.
fn removal(alloc: Global, name: &SimpleName, value: &Value) -> Result<Update, AllocError>
    ensures { IfOk result (λ u. change_of u ≡ Remove name.now profile value.now) }
{
    let value = value.copy(alloc)?;
    Ok(Update::Remove(name.copy(alloc)?, AttrName::known(alloc, PROFILE)?, value))
}
