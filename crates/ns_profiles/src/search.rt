// The elements among the values of a profile, and the order in which a search takes them.
ghost use Rattle.std.specs.Prelude.{◌≡◌, ◌∷◌, [], None, map, filter, not, true, false, ◌==◌, option_copied, IfOk, OnErr, vec_len};
ghost use Rattle.std.specs.List.{All, list_any};
ghost use Rattle.ns_profiles.specs.Elements.{element_fault, element_of_octets};
ghost use Rattle.ns_profiles.specs.Profiles.{is_for, is_meant, is_element, is_taken, is_sought, search_order};

use crate::element::{DEFAULT, check, interface_of, is_member, member_of, priority_of};
use attr_sets::{Value, all_in_order};
use cell_names::{FullName, LentName};
use std::alloc::{AllocError, Global};
use tower_codec::Interface;

/// The members at which a search for an interface goes on: those of the elements that serve it, by
/// priority and then by their octets, and then those of the default elements, by their octets. The
/// values may stand in any order; one that is no element is passed over, and one that is there
/// twice counts once.
pub fn elements_for(
    alloc: Global,
    values: &[Value],
    interface: &Interface,
) -> Result<Vec<FullName>, AllocError>
    ensures { IfOk result (λ v. v.items ≡ search_order interface.now values.now) }
{
    let sorted = all_in_order(alloc, values)?;
    let names = elements_in_order(alloc, &sorted, interface)?;
    LentName::copies(alloc, &names)
}

/// The members of the elements among these values that a search for the interface takes, in the
/// order of the values: where they ascend, as those that show of an entry do, the order of
/// `elements_for`. Their octets stay in the values.
pub fn elements_in_order<'a>(
    alloc: Global,
    values: &[&'a Value],
    interface: &Interface,
) -> Result<Vec<LentName<'a>>, AllocError>
    ensures { IfOk result
        (λ v. v.items
        ≡ map (λ octets. (element_of_octets octets).member)
        (filter (is_sought interface.now) (map (λ value. value.now) values.now))) }
{
    let found = sought(alloc, values, interface)?;
    members_of(alloc, &found)
}

// The values that are elements for this interface and have this member. No memory is asked for
// where there are none.
pub(crate) fn elements_of<'a>(
    alloc: Global,
    values: &'a [Value],
    interface: Option<&Interface>,
    member: &FullName,
) -> Result<Vec<&'a Value>, AllocError>
    ensures found { IfOk result
        (λ v. map (λ value. value.now) v.items
        ≡ filter (is_element (option_copied interface.entry) member.now) values.now) }
    ensures some { IfOk result
        (λ v. (vec_len v == 0)
        ≡ not (list_any (is_element (option_copied interface.entry) member.now) values.now)) }
    ensures lacking { OnErr result
        (list_any (is_element (option_copied interface.entry) member.now) values.now ≡ true) }
{
    let mut found = Vec::new(alloc);
    for value in values {
        if is_element(value.octets(), interface, member) {
            found.push(value)?;
        }
    }
    Ok(found)
}

// The values that are elements which a search for the interface takes.
fn sought<'a>(
    alloc: Global,
    values: &[&'a Value],
    interface: &Interface,
) -> Result<Vec<&'a Value>, AllocError>
    ensures { IfOk result
        (λ v. map (λ value. value.now) v.items
        ≡ filter (is_sought interface.now) (map (λ value. value.now) values.now)) }
{
    let mut found = Vec::new(alloc);
    for value in values {
        if is_sought(value.octets(), interface) {
            found.push(*value)?;
        }
    }
    Ok(found)
}

// The members of values that are elements, in their order.
fn members_of<'a>(alloc: Global, values: &[&'a Value]) -> Result<Vec<LentName<'a>>, AllocError>
    requires { All (λ value. element_fault value.now ≡ None) values.now }
    ensures { IfOk result
        (λ v. v.items ≡ map (λ value. (element_of_octets value.now).member) values.now) }
{
    let mut members = Vec::with_capacity(alloc, values.len())?;
    for value in values {
        members.push(known_member(value))?;
    }
    Ok(members)
}

// The member of a value that is an element.
fn known_member(value: &Value) -> LentName<'_>
    requires { element_fault value.now ≡ None }
    ensures { result ≡ (element_of_octets value.now).member }
{
    LentName::known(member_of(value.octets()))
}

// Whether octets are an element that a search for the interface takes.
fn is_sought(octets: &[u8], interface: &Interface) -> bool
    ensures { result ≡ is_sought interface.now octets.now }
{
    match check(octets) {
        Ok(()) => is_taken(octets, interface),
        Err(_) => false,
    }
}

// Whether a search for the interface takes the element of these octets.
fn is_taken(octets: &[u8], interface: &Interface) -> bool
    requires { element_fault octets.now ≡ None }
    ensures { result ≡ is_taken interface.now (element_of_octets octets.now) }
{
    priority_of(octets) == DEFAULT || interface_of(octets).serves(interface)
}

// Whether octets are an element for this interface, with this member.
fn is_element(octets: &[u8], interface: Option<&Interface>, member: &FullName) -> bool
    ensures { result ≡ is_element (option_copied interface.entry) member.now octets.now }
{
    match check(octets) {
        Ok(()) => is_meant(octets, interface, member),
        Err(_) => false,
    }
}

// Whether the element of these octets is for this interface, and has this member.
fn is_meant(octets: &[u8], interface: Option<&Interface>, member: &FullName) -> bool
    requires { element_fault octets.now ≡ None }
    ensures { result ≡ is_meant (option_copied interface.entry) member.now
        (element_of_octets octets.now) }
{
    is_for(octets, interface) && is_member(octets, member)
}

// Whether the octets of an element are for this interface, or of a default element where there is
// none.
fn is_for(octets: &[u8], interface: Option<&Interface>) -> bool
    requires { element_fault octets.now ≡ None }
    ensures { result ≡ is_for (option_copied interface.entry) (element_of_octets octets.now) }
{
    match interface {
        None => priority_of(octets) == DEFAULT,
        Some(interface) => priority_of(octets) != DEFAULT && interface_of(octets) == *interface,
    }
}
