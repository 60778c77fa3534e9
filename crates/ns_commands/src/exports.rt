// Commands about servers.
ghost use Rattle.std.specs.Prelude.{◌≡◌, IfSome, option_copied};
ghost use Rattle.cds_stamps.specs.declared.alloc_or.AllocOr.TheVariants.{Fault};
ghost use Rattle.server_entries.specs.Exports.{export_fault, unexport_changes};
ghost use Rattle.ns_commands.specs.Asks.{AnswersAsk, export, refusal_of_export as refusal, unexport, unless_none};

use crate::entries::{object, place_to_fill, values_of};
use crate::refusals::refusal_of_export;
use crate::updates::Updates;
use attr_sets::Value;
use cds_stamps::AllocOr;
use cell_names::FullName;
use resolver::{EntryReader, Found};
use script_answers::ScriptRefusal;
use server_entries::{OBJECTS, TOWERS, check_export};
use std::alloc::Global;
use tower_codec::{Interface, StringBinding};
use uuid::Uuid;

/// The updates that export a server of an interface at these bindings, with these objects, to the
/// entry of a name, which is made where it is absent. Where there is nothing to export no memory is
/// asked for.
pub fn export<R: EntryReader>(
    alloc: Global,
    reader: &R,
    name: &FullName,
    interface: &Interface,
    bindings: &[StringBinding],
    objects: &[Uuid],
) -> Result<Updates, AllocOr<ScriptRefusal>>
    ensures answer { AnswersAsk result
        (export (R.tells reader.now) name.now interface.now bindings.now objects.now) }
    ensures faulty { IfSome (export_fault bindings.now objects.now)
        (λ fault. result ≡ Err (Fault (refusal fault))) }
{
    check_export(bindings, objects).map_err(|fault| AllocOr::Fault(refusal_of_export(fault)))?;
    let place = place_to_fill(alloc, reader, name)?;
    let absent = place.kind.is_none();
    match server_entries::export(alloc, &place.name, absent, interface, bindings, objects) {
        Ok(list) => Ok(Updates::of_place(&place, list)),
        Err(AllocOr::Fault(fault)) => Err(AllocOr::Fault(refusal_of_export(fault))),
        Err(AllocOr::OutOfMemory) => Err(AllocOr::OutOfMemory),
    }
}

/// The updates that unexport a server: the entry of a name loses the towers of the interface, if
/// one is given, and these objects.
pub fn unexport<R: EntryReader>(
    alloc: Global,
    reader: &R,
    name: &FullName,
    interface: Option<&Interface>,
    objects: &[Uuid],
) -> Result<Updates, AllocOr<ScriptRefusal>>
    ensures { AnswersAsk result
        (unexport (R.tells reader.now) name.now (option_copied interface.entry) objects.now) }
{
    let entry = object(alloc, reader, name)?;
    let towers = values_of(alloc, reader, &entry, TOWERS)?;
    let held = values_of(alloc, reader, &entry, OBJECTS)?;
    losses(alloc, &entry, &towers, &held, interface, objects)
}

// The updates that unexport a server from an entry with these values.
fn losses(
    alloc: Global,
    entry: &Found,
    towers: &[Value],
    held: &[Value],
    interface: Option<&Interface>,
    objects: &[Uuid],
) -> Result<Updates, AllocOr<ScriptRefusal>>
    ensures { AnswersAsk result (unless_none entry.now
        (unexport_changes entry.now.name towers.now held.now
        (option_copied interface.entry) objects.now)) }
{
    match server_entries::unexport(alloc, &entry.name, towers, held, interface, objects) {
        Ok(list) => Ok(Updates::of_found(entry, list)),
        Err(AllocOr::Fault(fault)) => Err(AllocOr::Fault(refusal_of_export(fault))),
        Err(AllocOr::OutOfMemory) => Err(AllocOr::OutOfMemory),
    }
}
