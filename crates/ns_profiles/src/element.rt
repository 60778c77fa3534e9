// Elements of profiles, and their octets.
ghost use Rattle.std.specs.Prelude.{◌≡◌, ◌==◌, ◌+◌, ◌-◌, [], ◌∷◌, ◌≤◌, ◌<◌, Some, None, length, slice_index, MatchResult, IfOk, OnOk, IfErr, IfSome};
ghost use Rattle.std.specs.List.{slice_range, list_all};
ghost use Rattle.cds_stamps.specs.Outcomes.{ok_unless};
ghost use Rattle.cds_stamps.specs.declared.alloc_or.AllocOr.TheVariants.{Fault, OutOfMemory};
ghost use Rattle.std.specs.Int.{from_be_bytes, w16};
ghost use Rattle.cell_names.specs.FullNames.{name_fault, components_of, is_name};
ghost use Rattle.ns_profiles.specs.Elements.{default_priority, is_annotation_octet, first_fault, field_fault, priority_field, interface_field};
ghost use Rattle.ns_profiles.specs.Elements.{length_field, member_field, annotation_field, is_default, name_length, interface_in, member_octets};
ghost use Rattle.ns_profiles.specs.Elements.{annotation_octets, element_fault, element_of_octets, element_of, IsElementOf};
ghost use Rattle.ns_profiles.specs.declared.fault.ProfileFault.TheVariants.{BadElement};

use crate::fault::ProfileFault;
use attr_sets::Value;
use cds_stamps::{AllocOr, Octets};
use cell_names::FullName;
use std::alloc::{AllocError, Global};
use std::marker::Model;
use tower_codec::Interface;
use uuid::Uuid;

// The priority of a default element; those of the others are below it.
pub(crate) const DEFAULT: u8 = 8;

// How many octets stand before each field of the octets of an element.
const UUID: usize = 1;

const MAJOR: usize = 17;

const MINOR: usize = 19;

const NAME_LENGTH: usize = 21;

pub(crate) const NAME: usize = 23;

/// What an element says beside its interface and its member: octets 0x20 to 0x7E.
#[derive(Debug, PartialEq, Eq)]
pub struct Annotation {
    octets: Octets,
}

impl Drop for Annotation {
    fn drop(self) {
        let Annotation { octets: _octets } = self;
    }
}

impl Model for Annotation {
    ghost use Rattle.std.specs.Prelude.{ℕ, List};

    ghost Value = { List ℕ };

    ghost view = { λ v. v.octets };

    ghost inverse = { λ xs. record { octets = xs } };
}

impl Annotation {
    /// The octets of the annotation, 0x20 to 0x7E each.
    pub fn octets(&self) -> &[u8]
        ensures { result.now ≡ self.now }
    {
        self.octets.list()
    }
}

/// An element of a profile: where a search for the interface may go on, or for any where the
/// priority is 8.
#[derive(Debug, PartialEq, Eq)]
pub struct Element {
    /// 0 to 7, searched in this order; or 8, a default element.
    pub priority: u8,
    /// The interface; the nil UUID and version 0.0 in a default element.
    pub interface: Interface,
    /// The entry to go on at.
    pub member: FullName,
    pub annotation: Annotation,
}

impl Drop for Element {
    fn drop(self) {
        let Element {
            priority: _priority,
            interface: _interface,
            member: _member,
            annotation: _annotation,
        } = self;
    }
}

impl Element {
    /// The element of a value, or the place of the first field that breaks the layout, or of the
    /// first octet that is missing. The layout is: the priority (1 octet), the UUID (16), the major
    /// and the minor version (2 each), the length of the member's name (2), the name, and the
    /// annotation up to the end. No memory is asked for where there is a fault.
    pub fn read(alloc: Global, value: &Value) -> Result<Element, AllocOr<ProfileFault>>
        ensures read { IfOk result (IsElementOf value.now) }
        ensures known { IfOk result (λ e. element_of value.now ≡ Some e) }
        ensures faulty { IfSome (element_fault value.now) (λ fault. result ≡ Err (Fault fault)) }
        ensures lacking { element_fault value.now ≡ None → IfErr result (λ e. e ≡ OutOfMemory) }
    {
        let octets = value.octets();
        match check(octets) {
            Ok(()) => Ok(Element::of_octets(alloc, octets)?),
            Err(fault) => Err(AllocOr::Fault(fault)),
        }
    }

    /// Whether it is a default element, which is for no interface.
    pub fn is_default(&self) -> bool
        ensures { result ≡ (self.now.priority == default_priority) }
    {
        self.priority == DEFAULT
    }

    // The element of octets that are one.
    fn of_octets(alloc: Global, octets: &[u8]) -> Result<Element, AllocError>
        requires { element_fault octets.now ≡ None }
        ensures { IfOk result (λ e. e ≡ element_of_octets octets.now) }
    {
        Ok(Element {
            priority: priority_of(octets),
            interface: interface_of(octets),
            member: FullName::known(alloc, member_of(octets))?,
            annotation: Annotation {
                octets: Octets::of(alloc, annotation_of(octets))?,
            },
        })
    }
}

/// An element whose octets are kept elsewhere: it takes no memory of its own.
#[derive(Debug, Drop)]
pub struct LentElement<'a> {
    octets: &'a [u8],
}

impl<'a> Model for LentElement<'a> {
    ghost use Rattle.std.specs.Prelude.{◌≡◌, None};
    ghost use Rattle.ns_profiles.specs.declared.element.Element.{Element};
    ghost use Rattle.ns_profiles.specs.Elements.{element_fault, element_of_octets};

    ghost Value = { Element };

    ghost view = { λ e. element_of_octets e.octets.now };

    ghost invariant = { λ e. element_fault e.octets.now ≡ None };
}

impl<'a> LentElement<'a> {
    /// The element of a value, if it is one. Takes no memory.
    pub fn of(value: &'a Value) -> Option<LentElement<'a>>
        ensures { result ≡ element_of value.now }
    {
        let octets = value.octets();
        match check(octets) {
            Ok(()) => Some(LentElement { octets }),
            Err(_) => None,
        }
    }

    /// Whether it is a default element, which is for no interface.
    pub fn is_default(&self) -> bool
        ensures { result ≡ (self.now.priority == default_priority) }
    {
        priority_of(self.octets) == DEFAULT
    }

    /// The interface; the nil UUID and version 0.0 in a default element.
    pub fn interface(&self) -> Interface
        ensures { result ≡ self.now.interface }
    {
        interface_of(self.octets)
    }

    /// Whether it leads to this member.
    pub fn is_for_member(&self, member: &FullName) -> bool
        ensures { result ≡ is_name self.now.member member.now }
    {
        is_member(self.octets, member)
    }

    /// The same element, with memory of its own.
    pub fn copy(&self, alloc: Global) -> Result<Element, AllocError>
        ensures { IfOk result (λ e. e ≡ self.now) }
    {
        Element::of_octets(alloc, self.octets)
    }
}

// The priority of the octets of an element.
pub(crate) fn priority_of(octets: &[u8]) -> u8
    requires { element_fault octets.now ≡ None }
    ensures { result ≡ slice_index octets.now 0 }
{
    octets[0]
}

// The interface of the octets of an element.
pub(crate) fn interface_of(octets: &[u8]) -> Interface
    requires { element_fault octets.now ≡ None }
    ensures { result ≡ interface_in octets.now }
{
    Interface {
        uuid: uuid_of(&octets[UUID..MAJOR]),
        major: number_of(&octets[MAJOR..MINOR]),
        minor: number_of(&octets[MINOR..NAME_LENGTH]),
    }
}

// How many octets stand before the annotation of an element.
fn name_end(octets: &[u8]) -> usize
    requires { element_fault octets.now ≡ None }
    ensures value { result ≡ 23 + name_length octets.now }
    ensures within { result ≤ length octets.now }
{
    NAME + usize::from(number_of(&octets[NAME_LENGTH..NAME]))
}

// The octets of the member's name of an element.
pub(crate) fn member_of(octets: &[u8]) -> &[u8]
    requires { element_fault octets.now ≡ None }
    ensures value { result.now ≡ member_octets octets.now }
    ensures lawful { name_fault result.now ≡ None }
{
    &octets[NAME..name_end(octets)]
}

// Whether the element of these octets has this member.
pub(crate) fn is_member(octets: &[u8], member: &FullName) -> bool
    requires { element_fault octets.now ≡ None }
    ensures { result ≡ is_name (element_of_octets octets.now).member member.now }
{
    member.is_spelled(member_of(octets))
}

// The octets of the annotation of an element.
fn annotation_of(octets: &[u8]) -> &[u8]
    requires { element_fault octets.now ≡ None }
    ensures { result.now ≡ annotation_octets octets.now }
{
    &octets[name_end(octets)..]
}

// The number of two octets, the higher one first.
fn number_of(octets: &[u8]) -> u16
    requires { length octets.now ≡ 2 }
    ensures { result ≡ from_be_bytes w16 octets.now }
{
    u16::from_be_bytes([octets[0], octets[1]])
}

// The UUID of sixteen octets.
fn uuid_of(octets: &[u8]) -> Uuid
    requires { length octets.now ≡ 16 }
    ensures { result ≡ octets.now }
{
    match Uuid::from_slice(octets) {
        Ok(uuid) => uuid,
        Err(_) => unreachable!(),
    }
}

/// Whether octets are an element, and else the place of the first field that breaks the layout, or
/// of the first octet that is missing. Takes no memory.
pub(crate) fn check(octets: &[u8]) -> Result<(), ProfileFault>
    ensures found { MatchResult result (λ _. element_fault octets.now ≡ None)
        (λ fault. element_fault octets.now ≡ Some fault) }
    ensures known { OnOk result (element_of octets.now ≡ Some (element_of_octets octets.now)) }
    ensures lawful { OnOk result (IsElementOf octets.now (element_of_octets octets.now)) }
{
    check_fields(octets)
}

// The same, field by field.
#[tactic(auto, unfolding(crate::specs::Elements::element_fault))]
fn check_fields(octets: &[u8]) -> Result<(), ProfileFault>
    ensures { result ≡ ok_unless (element_fault octets.now) tt }
{
    check_priority(octets)?;
    check_interface(octets, UUID, MAJOR)?;
    check_interface(octets, MAJOR, MINOR)?;
    check_interface(octets, MINOR, NAME_LENGTH)?;
    check_texts(octets)
}

// The octets of a field, or the place after the last octet where they end too early.
fn field(octets: &[u8], from: usize, to: usize) -> Result<&[u8], ProfileFault>
    requires { from ≤ to }
    ensures value { IfOk result (λ x. x.now ≡ slice_range octets.now from to) }
    ensures whole { OnOk result (to ≤ length octets.now) }
    ensures wide { IfOk result (λ x. length x.now + from ≡ to) }
    ensures short { IfErr result (λ f. (length octets.now < to)
        × (f ≡ BadElement (length octets.now + 1))) }
{
    if octets.len() < to {
        return Err(ProfileFault::BadElement(octets.len() + 1));
    }
    Ok(&octets[from..to])
}

// Whether there is a priority.
fn check_priority(octets: &[u8]) -> Result<(), ProfileFault>
    ensures { result ≡ ok_unless (field_fault octets.now priority_field) tt }
{
    let priority = field(octets, 0, 1)?;
    if priority[0] > DEFAULT {
        return Err(ProfileFault::BadElement(1));
    }
    Ok(())
}

// Whether a field of the interface is there, and zeros in a default element.
fn check_interface(octets: &[u8], from: usize, to: usize) -> Result<(), ProfileFault>
    requires order { from ≤ to }
    requires some { 0 < length octets.now }
    requires small { from < 100 }
    ensures { result ≡ ok_unless
        (field_fault octets.now (interface_field (is_default octets.now) from (to - from))) tt }
{
    let own = field(octets, from, to)?;
    if octets[0] == DEFAULT && !are_zeros(own) {
        return Err(ProfileFault::BadElement(from + 1));
    }
    Ok(())
}

// Whether all octets are zeros.
fn are_zeros(octets: &[u8]) -> bool
    ensures { result ≡ list_all (λ b. b == 0) octets.now }
{
    octets.iter().all(|octet| *octet == 0)
}

// Whether the length of the member's name, the name and the annotation are there.
fn check_texts(octets: &[u8]) -> Result<(), ProfileFault>
    ensures { result ≡ ok_unless
        (first_fault octets.now (length_field ∷ member_field (name_length octets.now)
        ∷ annotation_field (name_length octets.now) (length octets.now) ∷ [])) tt }
{
    let own_length = field(octets, NAME_LENGTH, NAME)?;
    let end = NAME + usize::from(number_of(own_length));
    let member = field(octets, NAME, end)?;
    if FullName::check(member).is_err() {
        return Err(ProfileFault::BadElement(NAME + 1));
    }
    if !is_annotation(&octets[end..]) {
        return Err(ProfileFault::BadElement(end + 1));
    }
    Ok(())
}

// Whether octets are an annotation: each 0x20 to 0x7E.
pub(crate) fn is_annotation(octets: &[u8]) -> bool
    ensures { result ≡ list_all is_annotation_octet octets.now }
{
    octets.iter().all(|octet| (0x20..=0x7E).contains(octet))
}
