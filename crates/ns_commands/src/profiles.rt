// Commands about profiles.
ghost use Rattle.std.specs.Prelude.{◌≡◌, IfSome, IsTrue, option_copied};
ghost use Rattle.std.specs.List.{list_all};
ghost use Rattle.cds_stamps.specs.declared.alloc_or.AllocOr.TheVariants.{Fault};
ghost use Rattle.ns_profiles.specs.Elements.{is_annotation_octet};
ghost use Rattle.ns_profiles.specs.Profiles.{add_fault};
ghost use Rattle.ns_commands.specs.Asks.{AnswersAsk, add_element, delete_element, deleted_from, refusal_of_profile as refusal};

use crate::entries::{object, place_to_fill, values_of};
use crate::refusals::refusal_of_profile;
use crate::updates::Updates;
use attr_sets::Value;
use cds_stamps::AllocOr;
use cell_names::FullName;
use ns_profiles::{PROFILE, add, check_new, delete};
use resolver::{EntryReader, Found};
use script_answers::ScriptRefusal;
use std::alloc::Global;
use tower_codec::Interface;

/// The updates that add an element to the profile of a name, which is made where it is absent: a
/// default element where no interface is given. The annotation's octets are 0x20 to 0x7E. Where
/// there is a fault of the element no memory is asked for.
pub fn add_element<R: EntryReader>(
    alloc: Global,
    reader: &R,
    name: &FullName,
    interface: Option<&Interface>,
    member: &FullName,
    priority: u8,
    annotation: &[u8],
) -> Result<Updates, AllocOr<ScriptRefusal>>
    requires { IsTrue (list_all is_annotation_octet annotation.now) }
    ensures answer { AnswersAsk result
        (add_element (R.tells reader.now) name.now
        (option_copied interface.entry) member.now priority annotation.now) }
    ensures faulty { IfSome (add_fault
        (option_copied interface.entry) member.now priority annotation.now)
        (λ fault. result ≡ Err (Fault (refusal fault))) }
{
    check_new(interface, member, priority, annotation).map_err(|fault| AllocOr::Fault(
        refusal_of_profile(fault),
    ))?;
    let place = place_to_fill(alloc, reader, name)?;
    match add(
        alloc,
        &place.name,
        place.kind.is_none(),
        interface,
        member,
        priority,
        annotation,
    ) {
        Ok(list) => Ok(Updates::of_place(&place, list)),
        Err(AllocOr::Fault(fault)) => Err(AllocOr::Fault(refusal_of_profile(fault))),
        Err(AllocOr::OutOfMemory) => Err(AllocOr::OutOfMemory),
    }
}

/// The updates that delete the elements for an interface, or the default elements where none is
/// given, that have this member from the profile of a name.
pub fn delete_element<R: EntryReader>(
    alloc: Global,
    reader: &R,
    name: &FullName,
    interface: Option<&Interface>,
    member: &FullName,
) -> Result<Updates, AllocOr<ScriptRefusal>>
    ensures { AnswersAsk result
        (delete_element (R.tells reader.now) name.now (option_copied interface.entry) member.now) }
{
    let entry = object(alloc, reader, name)?;
    let values = values_of(alloc, reader, &entry, PROFILE)?;
    deletions(alloc, &entry, &values, interface, member)
}

// The updates that delete such elements, of these values, from an entry.
fn deletions(
    alloc: Global,
    entry: &Found,
    values: &[Value],
    interface: Option<&Interface>,
    member: &FullName,
) -> Result<Updates, AllocOr<ScriptRefusal>>
    ensures { AnswersAsk result
        (deleted_from (option_copied interface.entry) member.now entry.now values.now) }
{
    match delete(alloc, &entry.name, values, interface, member) {
        Ok(list) => Ok(Updates::of_found(entry, list)),
        Err(AllocOr::Fault(fault)) => Err(AllocOr::Fault(refusal_of_profile(fault))),
        Err(AllocOr::OutOfMemory) => Err(AllocOr::OutOfMemory),
    }
}
