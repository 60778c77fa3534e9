//! The elements of a profile that an inquiry asks for.
ghost use Rattle.std.specs.Prelude.{◌≡◌, ◌++◌, map, Ok, None, IfOk, IfSome, OnOk};
ghost use Rattle.std.specs.Option.{option_to_list};
ghost use Rattle.std.specs.List.{filter_map};
ghost use Rattle.attr_sets.specs.AttributeCells.{cell_values};
ghost use Rattle.resolver.specs.Readers.{values_by};
ghost use Rattle.ns_profiles.specs.Elements.{element_fault};
ghost use Rattle.ns_profiles.specs.Profiles.{profile};
ghost use Rattle.ns_inquire.specs.Inquiries.{elements_of, is_offered, is_picked, picked_in};

use crate::version::Version;
use attr_sets::{AttrCell, Value, all_in_order};
use cds_stamps::AttrName;
use cell_names::FullName;
use directory::AttrMap;
use ns_profiles::{Element, LentElement, PROFILE};
use std::alloc::{AllocError, Global};
use tower_codec::Interface;

/// Which elements of a profile are asked for.
#[derive(Debug, PartialEq, Eq)]
pub enum Inquiry {
    AllElements,
    /// The default elements.
    Default,
    /// Those for an interface, in a version that is meant; no default elements.
    ByInterface(Interface, Version),
    /// Those that lead to a member, default elements among them.
    ByMember(FullName),
    /// Those for an interface, in a version that is meant, that lead to a member; no default
    /// elements.
    ByBoth(Interface, Version, FullName),
}

impl Drop for Inquiry {
    fn drop(self) {
        match self {
            Inquiry::AllElements => (),
            Inquiry::Default => (),
            Inquiry::ByInterface(_field_1, _field_2) => (),
            Inquiry::ByMember(_field_1) => (),
            Inquiry::ByBoth(_field_1, _field_2, _field_3) => (),
        }
    }
}

impl Inquiry {
    /// Whether it asks for an element.
    pub fn picks(&self, element: &LentElement<'_>) -> bool
        ensures { result ≡ is_picked self.now element.now }
    {
        match self {
            Inquiry::AllElements => true,
            Inquiry::Default => element.is_default(),
            Inquiry::ByInterface(asked, version) => is_offered(asked, *version, element),
            Inquiry::ByMember(member) => element.is_for_member(member),
            Inquiry::ByBoth(asked, version, member) => {
                is_offered(asked, *version, element) && element.is_for_member(member)
            }
        }
    }
}

// Whether it is an element for this interface, in a version that is meant.
fn is_offered(asked: &Interface, version: Version, element: &LentElement<'_>) -> bool
    ensures { result ≡ is_offered asked.now version element.now }
{
    !element.is_default() && version.allows(asked, &element.interface())
}

/// The elements among values that an inquiry asks for: by priority, and those of one priority by
/// their octets, so default elements come last. The values may stand in any order; one that is no
/// element is passed over, and one that is there twice counts once.
pub fn elements(
    alloc: Global,
    values: &[Value],
    inquiry: &Inquiry,
) -> Result<Vec<Element>, AllocError>
    ensures { IfOk result (λ v. v.items ≡ elements_of inquiry.now values.now) }
{
    let sorted = all_in_order(alloc, values)?;
    picked_of(alloc, &sorted, inquiry)
}

/// The same of the values of the profile that show by these cells of attributes, which are read in
/// place.
pub fn elements_by(
    alloc: Global,
    cells: &AttrMap,
    inquiry: &Inquiry,
) -> Result<Vec<Element>, AllocError>
    ensures { IfOk result (λ v. v.items ≡ elements_of inquiry.now (values_by cells.now profile)) }
{
    match cells.get(&AttrName::known(alloc, PROFILE)?) {
        Some(cell) => elements_shown(alloc, cell, inquiry),
        None => elements(alloc, &[], inquiry),
    }
}

// The elements among the values that show of an attribute that an inquiry asks for.
fn elements_shown(
    alloc: Global,
    cell: &AttrCell,
    inquiry: &Inquiry,
) -> Result<Vec<Element>, AllocError>
    ensures { IfOk result (λ v. v.items ≡ elements_of inquiry.now (cell_values cell.now)) }
{
    let mut found = Vec::with_capacity(alloc, cell.values.len())?;
    for (value, mark) in cell.values.iter() {
        if mark.present {
            push_some(&mut found, picked(alloc, value, inquiry)?)?;
        }
    }
    Ok(found)
}

// The elements among these values that an inquiry asks for, in the order of the values.
fn picked_of(
    alloc: Global,
    values: &[&Value],
    inquiry: &Inquiry,
) -> Result<Vec<Element>, AllocError>
    ensures { IfOk result (λ v. v.items
        ≡ filter_map (picked_in inquiry.now) (map (λ value. value.now) values.now)) }
{
    let mut found = Vec::new(alloc);
    for value in values {
        push_some(&mut found, picked(alloc, value, inquiry)?)?;
    }
    Ok(found)
}

// Puts an element after the others, if there is one.
fn push_some(list: &mut Vec<Element>, element: Option<Element>) -> Result<(), AllocError>
    ensures { OnOk result (list.new.items ≡ list.old.items ++ option_to_list element) }
{
    match element {
        Some(element) => Ok(list.push(element)?),
        None => Ok(()),
    }
}

// The element that a value is, if the inquiry asks for it. No memory is asked for where it is none.
fn picked(alloc: Global, value: &Value, inquiry: &Inquiry) -> Result<Option<Element>, AllocError>
    ensures picked { IfOk result (λ e. e ≡ picked_in inquiry.now value.now) }
    ensures faulty { IfSome (element_fault value.now) (λ _. result ≡ Ok None) }
{
    match LentElement::of(value) {
        Some(element) if inquiry.picks(&element) => Ok(Some(element.copy(alloc)?)),
        _ => Ok(None),
    }
}
