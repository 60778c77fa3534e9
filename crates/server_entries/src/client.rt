// What a client wants, and which bindings an entry has for it.
ghost use Rattle.std.specs.Prelude.{◌≡◌, ◌==◌, ◌++◌, length, map, IfOk, OnOk, Some, if◌then◌else◌};
ghost use Rattle.std.specs.Option.{option_to_list};
ghost use Rattle.std.specs.List.{filter_map, list_any};
ghost use Rattle.std.specs.Str.{bytes_eq};
ghost use Rattle.server_entries.specs.Clients.{ndr_syntax, wants, is_ndr, is_compatible, binding_in, least_object, lesser, object_to_carry};
ghost use Rattle.server_entries.specs.Clients.{bindings_of, entry_bindings};

use crate::tower::tower_of_value;
use attr_sets::{Value, all_in_order};
use std::alloc::{AllocError, Global};
use std::cmp::Ordering;
use tower_codec::{Interface, Protseq, RpcTower, StringBinding};
use uuid::Uuid;

/// What a client wants to call.
#[derive(Clone, Copy, Debug, PartialEq, Eq)]
pub struct Wanted {
    /// The interface, with the least minor version that serves.
    pub interface: Interface,
    /// The object, or the nil UUID for any.
    pub object: Uuid,
    /// Whether `ncacn_ip_tcp` serves.
    pub tcp: bool,
    /// Whether `ncadg_ip_udp` serves.
    pub udp: bool,
}

/// The transfer syntax NDR.
pub fn ndr() -> Interface
    ensures { result ≡ ndr_syntax }
{
    Interface {
        uuid: Uuid::from_bytes([
            0x8a, 0x88, 0x5d, 0x04, 0x1c, 0xeb, 0x11, 0xc9, 0x9f, 0xe8, 0x08, 0x00, 0x2b, 0x10,
            0x48, 0x60,
        ]),
        major: 2,
        minor: 0,
    }
}

// Whether data are represented by NDR of major version 2.
fn is_ndr(syntax: &Interface) -> bool
    ensures { result ≡ is_ndr syntax.now }
{
    syntax.uuid == ndr().uuid && syntax.major == 2
}

// Puts a binding after the others, if there is one.
fn push_some(
    list: &mut Vec<StringBinding>,
    binding: Option<StringBinding>,
) -> Result<(), AllocError>
    ensures { OnOk result (list.new.items ≡ list.old.items ++ option_to_list binding) }
{
    match binding {
        Some(binding) => Ok(list.push(binding)?),
        None => Ok(()),
    }
}

impl Wanted {
    // Whether the protocol sequence is wanted.
    fn wants(&self, protseq: Protseq) -> bool
        ensures { result ≡ wants self.now protseq }
    {
        match protseq {
            Protseq::Tcp => self.tcp,
            Protseq::Udp => self.udp,
        }
    }

    // Whether the client can call the server of the tower.
    fn is_compatible(&self, tower: &RpcTower) -> bool
        ensures { result ≡ is_compatible self.now tower.now }
    {
        tower.interface.serves(&self.interface)
            && is_ndr(&tower.transfer)
            && self.wants(tower.protseq)
    }

    // The binding that there is for the client in a value.
    fn binding_in(&self, object: Uuid, value: &Value) -> Option<StringBinding>
        ensures { result ≡ binding_in self.now object value.now }
    {
        match tower_of_value(value) {
            Ok(tower) if self.is_compatible(&tower) => Some(StringBinding {
                object,
                protseq: tower.protseq,
                address: tower.address,
                port: tower.port,
            }),
            _ => None,
        }
    }

    // The bindings that there are for the client in these values, in their order, which carry the
    // object.
    fn bindings_in(
        &self,
        alloc: Global,
        object: Uuid,
        towers: &[&Value],
    ) -> Result<Vec<StringBinding>, AllocError>
        ensures { IfOk result
            (λ list. list.items
            ≡ filter_map (binding_in self.now object) (map (λ v. v.now) towers.now)) }
    {
        let mut list = Vec::new(alloc);
        for value in towers {
            push_some(&mut list, self.binding_in(object, value))?;
        }
        Ok(list)
    }
}

// The lesser of an object and of another that there may be.
fn lesser(object: Uuid, least: Option<Uuid>) -> Uuid
    ensures { result ≡ lesser object least }
{
    match least {
        None => object,
        Some(other) => match object.cmp(&other) {
            Ordering::Less => object,
            Ordering::Equal => other,
            Ordering::Greater => other,
        },
    }
}

// The least of an object that there may be and of a value that may be one.
fn least_with(value: &Value, least: Option<Uuid>) -> Option<Uuid>
    ensures { result ≡ (if length value.now == 16 then Some (lesser value.now least) else least) }
{
    match Uuid::from_slice(value.octets()) {
        Ok(object) => Some(lesser(object, least)),
        Err(_) => least,
    }
}

// The least of the values that are objects.
fn least_object(held: &[&Value]) -> Option<Uuid>
    ensures { result ≡ least_object (map (λ v. v.now) held.now) }
{
    let mut least = None;
    for value in held {
        least = least_with(value, least);
    }
    least
}

// Whether the object is one of the values.
fn has_object(held: &[&Value], object: &Uuid) -> bool
    ensures { result ≡ list_any (λ v. bytes_eq v object.now) (map (λ v. v.now) held.now) }
{
    for value in held {
        if value.octets() == object.as_bytes().as_slice() {
            return true;
        }
    }
    false
}

// The object that bindings carry for one that is wanted, where there are bindings.
fn carried_object(wanted: Uuid, held: &[&Value]) -> Option<Uuid>
    ensures { result ≡ object_to_carry wanted (map (λ v. v.now) held.now) }
{
    if wanted.is_nil() {
        return Some(least_object(held).unwrap_or(Uuid::nil()));
    }
    if has_object(held, &wanted) {
        return Some(wanted);
    }
    None
}

/// The bindings that an entry with these values of `CDS_Towers` and `RPC_ObjectUUIDs` has for a
/// client, in ascending order of the octets of the towers, each tower once.
pub fn bindings(
    alloc: Global,
    towers: &[Value],
    objects: &[Value],
    wanted: &Wanted,
) -> Result<Vec<StringBinding>, AllocError>
    ensures { IfOk result
        (λ list. list.items ≡ entry_bindings wanted.now towers.now objects.now) }
{
    let towers = all_in_order(alloc, towers)?;
    let objects = all_of(alloc, objects)?;
    bindings_in_order(alloc, &towers, &objects, wanted)
}

// All of these values, in their order.
fn all_of(alloc: Global, values: &[Value]) -> Result<Vec<&Value>, AllocError>
    ensures { IfOk result (λ v. map (λ v. v.now) v.items ≡ values.now) }
{
    let mut all = Vec::with_capacity(alloc, values.len())?;
    for value in values {
        all.push(value)?;
    }
    Ok(all)
}

/// The bindings of an entry with these values, in the order of the towers: where they ascend, as
/// those that show of an entry do, the order of `bindings`.
pub fn bindings_in_order(
    alloc: Global,
    towers: &[&Value],
    objects: &[&Value],
    wanted: &Wanted,
) -> Result<Vec<StringBinding>, AllocError>
    ensures { IfOk result
        (λ list. list.items
        ≡ bindings_of wanted.now (map (λ v. v.now) towers.now) (map (λ v. v.now) objects.now)) }
{
    match carried_object(wanted.object, objects) {
        Some(object) => wanted.bindings_in(alloc, object, towers),
        None => Ok(Vec::new(alloc)),
    }
}
