// Exports of servers, and their end.
ghost use Rattle.std.specs.Prelude.{◌≡◌, ◌++◌, [], ◌∷◌, map, filter, length, IfOk, IfErr, IfSome, OnOk, IsOk, None};
ghost use Rattle.std.specs.Option.{option_copied};
ghost use Rattle.std.specs.Result.{result_err};
ghost use Rattle.cds_stamps.specs.Ascending.{in_ascending_order};
ghost use Rattle.cds_stamps.specs.Names.{attr_fault};
ghost use Rattle.cds_stamps.specs.declared.alloc_or.AllocOr.TheVariants.{Fault, OutOfMemory};
ghost use Rattle.tower_codec.specs.Rpc.{rpc_octets};
ghost use Rattle.directory.specs.Updates.{Remove};
ghost use Rattle.directory.specs.EntryChanges.{changes};
ghost use Rattle.server_entries.specs.Clients.{ndr_syntax};
ghost use Rattle.server_entries.specs.Exports.{tower_attribute, object_attribute, exported_tower, tower_added, object_added, export_changes, export_fault};
ghost use Rattle.server_entries.specs.Exports.{tower_goes, object_goes, unexport_changes, unexport_fault};

use crate::client::ndr;
use crate::tower::tower_of_value;
use attr_sets::{Value, in_order};
use cds_stamps::{AllocOr, AttrName, SimpleName};
use directory::{Update, creation};
use std::alloc::{AllocError, Global};
use thiserror::Error;
use tower_codec::{Interface, Protseq, RpcTower, StringBinding};
use uuid::Uuid;

/// The attribute of a server's towers.
pub const TOWERS: &[u8] = b"CDS_Towers";

/// The attribute of a server's objects.
pub const OBJECTS: &[u8] = b"RPC_ObjectUUIDs";

/// Why there is no update.
#[derive(Clone, Copy, Debug, PartialEq, Eq, Drop, Error)]
pub enum ExportFault {
    #[error("no binding and no object to export")]
    NothingToExport,
    #[error("the entry has none of the values to unexport")]
    NothingToUnexport,
}

// The tower of a server of the interface at an address, in the transfer syntax NDR.
fn tower_at(interface: &Interface, protseq: Protseq, port: u16, address: [u8; 4]) -> RpcTower
    ensures tower { result ≡ record {
      interface = interface.now;
      transfer = ndr_syntax;
      protseq = protseq;
      port = port;
      address = address;
    } }
    ensures four { length result.address ≡ 4 }
{
    RpcTower {
        interface: *interface,
        transfer: ndr(),
        protseq,
        port,
        address,
    }
}

// The value that says of the tower of a server of the interface at a binding.
fn tower_value(
    alloc: Global,
    interface: &Interface,
    binding: &StringBinding,
) -> Result<Value, AllocError>
    ensures { IfOk result (λ v. v ≡ rpc_octets (exported_tower interface.now binding.now)) }
{
    let tower = tower_at(interface, binding.protseq, binding.port, binding.address);
    let octets = tower.octets(alloc)?;
    Value::known(alloc, &octets)
}

// The value that says of an object.
fn object_value(alloc: Global, object: &Uuid) -> Result<Value, AllocError>
    ensures { IfOk result (λ v. v ≡ object.now) }
{
    let octets = object.into_bytes();
    Value::known(alloc, octets.as_slice())
}

// Adds the towers of a server at its bindings.
fn push_towers(
    alloc: Global,
    updates: &mut Vec<Update>,
    name: &SimpleName,
    interface: &Interface,
    bindings: &[StringBinding],
) -> Result<(), AllocError>
    ensures { OnOk result (changes updates.new.items
        ≡ changes updates.old.items ++ map (tower_added name.now interface.now) bindings.now) }
{
    for binding in bindings {
        let value = tower_value(alloc, interface, binding)?;
        updates.push(Update::Add(name.copy(alloc)?, AttrName::known(alloc, TOWERS)?, value))?;
    }
    Ok(())
}

// Adds the objects of a server.
fn push_objects(
    alloc: Global,
    updates: &mut Vec<Update>,
    name: &SimpleName,
    objects: &[Uuid],
) -> Result<(), AllocError>
    ensures { OnOk result (changes updates.new.items
        ≡ changes updates.old.items ++ map (object_added name.now) objects.now) }
{
    for object in objects {
        let value = object_value(alloc, object)?;
        updates.push(Update::Add(name.copy(alloc)?, AttrName::known(alloc, OBJECTS)?, value))?;
    }
    Ok(())
}

// The updates of an export.
fn exported_updates(
    alloc: Global,
    name: &SimpleName,
    absent: bool,
    interface: &Interface,
    bindings: &[StringBinding],
    objects: &[Uuid],
) -> Result<Vec<Update>, AllocError>
    ensures { IfOk result (λ list. changes list.items
        ≡ export_changes name.now absent interface.now bindings.now objects.now) }
{
    let mut updates = creation(alloc, name, absent)?;
    push_towers(alloc, &mut updates, name, interface, bindings)?;
    push_objects(alloc, &mut updates, name, objects)?;
    Ok(updates)
}

/// Whether there is something to export: NothingToExport where there is no binding and no object.
pub fn check_export(bindings: &[StringBinding], objects: &[Uuid]) -> Result<(), ExportFault>
    ensures { result_err result ≡ export_fault bindings.now objects.now }
{
    if bindings.is_empty() && objects.is_empty() {
        return Err(ExportFault::NothingToExport);
    }
    Ok(())
}

/// The updates that export a server: the entry is made where it is absent, and gets the towers of
/// the interface at the bindings and then the objects, each in the order given. No memory is asked
/// for where there is a fault.
pub fn export(
    alloc: Global,
    name: &SimpleName,
    absent: bool,
    interface: &Interface,
    bindings: &[StringBinding],
    objects: &[Uuid],
) -> Result<Vec<Update>, AllocOr<ExportFault>>
    ensures updates { IfOk result (λ list. changes list.items
        ≡ export_changes name.now absent interface.now bindings.now objects.now) }

    // The fault, and that no other comes.
    ensures faulty { IfSome (export_fault bindings.now objects.now)
        (λ fault. result ≡ Err (Fault fault)) }
    ensures lacking { export_fault bindings.now objects.now ≡ None
        → IfErr result (λ e. e ≡ OutOfMemory) }
{
    check_export(bindings, objects).map_err(AllocOr::Fault)?;
    Ok(exported_updates(alloc, name, absent, interface, bindings, objects)?)
}

// Whether a value is a tower of the interface.
fn tower_goes(value: &Value, interface: Option<&Interface>) -> bool
    ensures { result ≡ tower_goes (option_copied interface.entry) value.now }
{
    match (interface, tower_of_value(value)) {
        (Some(interface), Ok(tower)) => tower.interface == *interface,
        _ => false,
    }
}

// Whether a value is one of the objects.
fn object_goes(value: &Value, objects: &[Uuid]) -> bool
    ensures { result ≡ object_goes objects.now value.now }
{
    for object in objects {
        if object.as_bytes().as_slice() == value.octets() {
            return true;
        }
    }
    false
}

// The towers of the interface, in ascending order and each once.
fn towers_to_go<'a>(
    alloc: Global,
    towers: &'a [Value],
    interface: Option<&Interface>,
) -> Result<Vec<&'a Value>, AllocError>
    ensures values { IfOk result (λ list. map (λ v. v.now) list.items
        ≡ in_ascending_order (filter (tower_goes (option_copied interface.entry)) towers.now)) }
    ensures none { filter (tower_goes (option_copied interface.entry)) towers.now ≡ []
        → IsOk result }
{
    let mut list = Vec::new(alloc);
    for value in towers {
        if tower_goes(value, interface) {
            list.push(value)?;
        }
    }
    Ok(in_order(list))
}

// The values that are one of the objects, in ascending order and each once.
fn objects_to_go<'a>(
    alloc: Global,
    held: &'a [Value],
    objects: &[Uuid],
) -> Result<Vec<&'a Value>, AllocError>
    ensures values { IfOk result (λ list. map (λ v. v.now) list.items
        ≡ in_ascending_order (filter (object_goes objects.now) held.now)) }
    ensures none { filter (object_goes objects.now) held.now ≡ [] → IsOk result }
{
    let mut list = Vec::new(alloc);
    for value in held {
        if object_goes(value, objects) {
            list.push(value)?;
        }
    }
    Ok(in_order(list))
}

// Removes values of an attribute.
fn push_removals(
    alloc: Global,
    updates: &mut Vec<Update>,
    name: &SimpleName,
    attr: &[u8],
    values: &[&Value],
) -> Result<(), AllocError>
    requires { attr_fault attr.now ≡ None }
    ensures updates { OnOk result (changes updates.new.items ≡ changes updates.old.items
        ++ map (Remove name.now attr.now) (map (λ v. v.now) values.now)) }
    ensures none { values.now ≡ [] → IsOk result }
{
    for value in values {
        let value = value.copy(alloc)?;
        updates.push(Update::Remove(name.copy(alloc)?, AttrName::known(alloc, attr)?, value))?;
    }
    Ok(())
}

// The updates that remove these towers and objects.
fn removals(
    alloc: Global,
    name: &SimpleName,
    towers: &[&Value],
    objects: &[&Value],
) -> Result<Vec<Update>, AllocError>
    ensures updates { IfOk result (λ list. changes list.items
        ≡ map (Remove name.now tower_attribute) (map (λ v. v.now) towers.now)
        ++ map (Remove name.now object_attribute) (map (λ v. v.now) objects.now)) }
    ensures none { towers.now ≡ [] → objects.now ≡ [] → IsOk result }
{
    let mut updates = Vec::new(alloc);
    push_removals(alloc, &mut updates, name, TOWERS, towers)?;
    push_removals(alloc, &mut updates, name, OBJECTS, objects)?;
    Ok(updates)
}

// The updates of an unexport. Where there is none no memory is asked for.
fn unexported_updates(
    alloc: Global,
    name: &SimpleName,
    towers: &[Value],
    held: &[Value],
    interface: Option<&Interface>,
    objects: &[Uuid],
) -> Result<Vec<Update>, AllocError>
    ensures updates { IfOk result (λ list. changes list.items
        ≡ unexport_changes name.now towers.now held.now
        (option_copied interface.entry) objects.now) }
    ensures none { unexport_changes name.now towers.now held.now
        (option_copied interface.entry) objects.now
        ≡ [] → IsOk result }
{
    let towers = towers_to_go(alloc, towers, interface)?;
    let objects = objects_to_go(alloc, held, objects)?;
    removals(alloc, name, &towers, &objects)
}

/// The updates that unexport a server from an entry with these values of `CDS_Towers` and
/// `RPC_ObjectUUIDs`: the towers of the interface, whatever their transfer syntax, and then the
/// values that are one of the objects are removed, each in ascending order of their octets and
/// once. No memory is asked for where there is a fault.
pub fn unexport(
    alloc: Global,
    name: &SimpleName,
    towers: &[Value],
    held: &[Value],
    interface: Option<&Interface>,
    objects: &[Uuid],
) -> Result<Vec<Update>, AllocOr<ExportFault>>
    ensures updates { IfOk result (λ list. changes list.items
        ≡ unexport_changes name.now towers.now held.now
        (option_copied interface.entry) objects.now) }

    // The fault, and that no other comes.
    ensures faulty { IfSome (unexport_fault
        (unexport_changes name.now towers.now held.now (option_copied interface.entry) objects.now))
        (λ fault. result ≡ Err (Fault fault)) }
    ensures lacking { unexport_fault
        (unexport_changes name.now towers.now held.now (option_copied interface.entry) objects.now)
        ≡ None
        → IfErr result (λ e. e ≡ OutOfMemory) }
{
    let updates = unexported_updates(alloc, name, towers, held, interface, objects)?;
    if updates.is_empty() {
        return Err(AllocOr::Fault(ExportFault::NothingToUnexport));
    }
    Ok(updates)
}
