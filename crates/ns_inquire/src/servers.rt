//! The interfaces and the objects of a server.
ghost use Rattle.std.specs.Prelude.{◌≡◌, ◌++◌, [], ◌∷◌, map, IfOk, OnOk};
ghost use Rattle.std.specs.List.{filter_map};
ghost use Rattle.std.specs.Option.{option_map_or};
ghost use Rattle.cds_stamps.specs.Firsts.{firsts, if_new};
ghost use Rattle.tower_codec.specs.Serving.{same_interface};
ghost use Rattle.server_entries.specs.Clients.{objects_in};
ghost use Rattle.ns_inquire.specs.Inquiries.{interface_in, interfaces_of, objects_of};

use attr_sets::{Value, all_in_order};
use indexmap::IndexSet;
use server_entries::tower_of_value;
use std::alloc::{AllocError, Global};
use tower_codec::Interface;
use uuid::Uuid;

/// The interfaces of the towers among values, in ascending order of the octets of the towers, each
/// at its first tower. The values may stand in any order; one that is not the tower of an RPC
/// server is passed over.
pub fn interfaces(alloc: Global, towers: &[Value]) -> Result<Vec<Interface>, AllocError>
    ensures { IfOk result (λ v. v.items ≡ interfaces_of towers.now) }
{
    let sorted = all_in_order(alloc, towers)?;
    let found = interfaces_of(alloc, &sorted)?;
    let mut list = Vec::with_capacity(alloc, found.len())?;
    list.extend_from_slice(found.as_slice())?;
    Ok(list)
}

// The interfaces of the towers among these values, each at its first tower.
fn interfaces_of(alloc: Global, towers: &[&Value]) -> Result<IndexSet<Interface>, AllocError>
    ensures { IfOk result (λ found. found.keys ≡ firsts same_interface []
        (filter_map interface_in (map (λ value. value.now) towers.now))) }
{
    let mut found = IndexSet::new(alloc);
    for value in towers {
        insert_some(&mut found, interface_in(value))?;
    }
    Ok(found)
}

// Puts an interface after the others, if there is one and it isn't among them.
fn insert_some(
    found: &mut IndexSet<Interface>,
    interface: Option<Interface>,
) -> Result<(), AllocError>
    ensures { OnOk result (found.new.keys
        ≡ found.old.keys ++ option_map_or (if_new same_interface found.old.keys) interface []) }
{
    match interface {
        Some(interface) => {
            found.insert(interface)?;
            Ok(())
        }
        None => Ok(()),
    }
}

// The interface of a value, if it is the tower of an RPC server.
fn interface_in(value: &Value) -> Option<Interface>
    ensures { result ≡ interface_in value.now }
{
    match tower_of_value(value) {
        Ok(tower) => Some(tower.interface),
        Err(_) => None,
    }
}

/// The objects among values, those of 16 octets, ascending. The values may stand in any order; one
/// that is there twice counts once.
pub fn objects(alloc: Global, values: &[Value]) -> Result<Vec<Uuid>, AllocError>
    ensures { IfOk result (λ v. v.items ≡ objects_of values.now) }
{
    let sorted = all_in_order(alloc, values)?;
    objects_of(alloc, &sorted)
}

// The objects among these values, in the order of the values.
fn objects_of(alloc: Global, values: &[&Value]) -> Result<Vec<Uuid>, AllocError>
    ensures { IfOk result (λ v. v.items ≡ objects_in (map (λ value. value.now) values.now)) }
{
    let mut found = Vec::new(alloc);
    for value in values {
        push_object(&mut found, value)?;
    }
    Ok(found)
}

// Puts the object that a value is after the others, if it is one.
fn push_object(list: &mut Vec<Uuid>, value: &Value) -> Result<(), AllocError>
    ensures { OnOk result (list.new.items ≡ list.old.items ++ objects_in (value.now ∷ [])) }
{
    match Uuid::from_slice(value.octets()) {
        Ok(object) => Ok(list.push(object)?),
        Err(_) => Ok(()),
    }
}
