// Commands about groups.
ghost use Rattle.ns_commands.specs.Asks.{AnswersAsk, add_member, delete_member};

use crate::entries::{object, place_to_fill, values_of};
use crate::refusals::refusal_of_group;
use crate::updates::Updates;
use cds_stamps::AllocOr;
use cell_names::FullName;
use ns_groups::{GROUP, add, delete};
use resolver::EntryReader;
use script_answers::ScriptRefusal;
use std::alloc::Global;

/// The updates that add a member to the group of a name, which is made where it is absent.
pub fn add_member<R: EntryReader>(
    alloc: Global,
    reader: &R,
    name: &FullName,
    member: &FullName,
) -> Result<Updates, AllocOr<ScriptRefusal>>
    ensures { AnswersAsk result (add_member (R.tells reader.now) name.now member.now) }
{
    let place = place_to_fill(alloc, reader, name)?;
    let list = add(alloc, &place.name, place.kind.is_none(), member)?;
    Ok(Updates::of_place(&place, list))
}

/// The update that deletes a member from the group of a name.
pub fn delete_member<R: EntryReader>(
    alloc: Global,
    reader: &R,
    name: &FullName,
    member: &FullName,
) -> Result<Updates, AllocOr<ScriptRefusal>>
    ensures { AnswersAsk result (delete_member (R.tells reader.now) name.now member.now) }
{
    let entry = object(alloc, reader, name)?;
    let values = values_of(alloc, reader, &entry, GROUP)?;
    match delete(alloc, &entry.name, &values, member) {
        Ok(list) => Ok(Updates::of_found(&entry, list)),
        Err(AllocOr::Fault(fault)) => Err(AllocOr::Fault(refusal_of_group(fault))),
        Err(AllocOr::OutOfMemory) => Err(AllocOr::OutOfMemory),
    }
}
