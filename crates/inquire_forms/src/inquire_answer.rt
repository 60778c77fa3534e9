// What inquiries are answered, over any reader of entries.
ghost use Rattle.std.specs.Prelude.{◌≡◌, ◌≤◌, List, Some, map, IfOk};
ghost use Rattle.tower_codec.specs.declared.binding.StringBinding.{StringBinding};
ghost use Rattle.resolver.specs.declared.seen.Found.{Found};
ghost use Rattle.resolver.specs.Readers.{ShowsOnly};
ghost use Rattle.ns_profiles.specs.Profiles.{profile};
ghost use Rattle.ns_inquire.specs.Batches.{batches};
ghost use Rattle.ns_inquire.specs.Inquiries.{elements_of};
ghost use Rattle.inquire_forms.specs.Inquired.{batches_listed, elements_in, elements_listed, entry_in, entry_listed, inquired_answer, members_in, members_listed, inquired_refusal};

use cds_stamps::AllocOr;
use cell_names::FullName;
use ns_commands::{object, refusal_of_walk, values_of};
use ns_groups::{GROUP, members};
use ns_import::ImportFault;
use ns_inquire::laws::batches_cut_a_list;
use ns_inquire::{Inquiry, Lookup, elements, elements_by, interfaces, objects};
use ns_profiles::{Element, PROFILE};
use resolver::{EntryReader, Found};
use script_answers::{Answer, ScriptRefusal};
use server_entries::{OBJECTS, TOWERS, Wanted};
use std::alloc::{AllocError, Global};
use tower_codec::{Interface, StringBinding};
use uuid::Uuid;

/// What the form `inquire` answers to a line.
pub enum InquireAnswer {
    /// The answer to a line of a script, or why an inquiry is refused.
    Plain(Answer),
    /// The members of a group, ascending.
    Members(Vec<FullName>),
    /// The interfaces of a server, each at its first tower, and its objects, ascending.
    Entries(Vec<Interface>, Vec<Uuid>),
    /// Elements of a profile, by priority.
    Elements(Vec<Element>),
    /// The bindings of an import in batches: full ones, but for the last; none is empty.
    Batches(Vec<Vec<StringBinding>>),
}

impl Drop for InquireAnswer {
    fn drop(self) {
        match self {
            InquireAnswer::Plain(_field_1) => (),
            InquireAnswer::Members(_field_1) => (),
            InquireAnswer::Entries(_field_1, _field_2) => (),
            InquireAnswer::Elements(_field_1) => (),
            InquireAnswer::Batches(_field_1) => (),
        }
    }
}

// An inquiry that is refused.
fn refused(refusal: ScriptRefusal) -> InquireAnswer
    ensures { inquired_answer result ≡ inquired_refusal refusal }
{
    InquireAnswer::Plain(Answer::Refused(refusal))
}

/// The members of the group of a name, or why there are none: the refusal of its walk, links
/// followed to the last, or that it leads to no object.
pub fn list_members<R: EntryReader>(
    alloc: Global,
    reader: &R,
    name: &FullName,
) -> Result<InquireAnswer, AllocError>
    ensures { IfOk result (λ a. inquired_answer a ≡ members_listed (R.tells reader.now) name.now) }
{
    match object(alloc, reader, name) {
        Ok(entry) => members_in(alloc, reader, &entry),
        Err(AllocOr::Fault(refusal)) => Ok(refused(refusal)),
        Err(AllocOr::OutOfMemory) => Err(AllocError),
    }
}

// The members of a group.
fn members_in<R: EntryReader>(
    alloc: Global,
    reader: &R,
    entry: &Found,
) -> Result<InquireAnswer, AllocError>
    ensures { IfOk result (λ a. inquired_answer a ≡ members_in (R.tells reader.now) entry.now) }
{
    let values = values_of(alloc, reader, entry, GROUP)?;
    Ok(InquireAnswer::Members(members(alloc, &values)?))
}

/// The interfaces and the objects of the server of a name, or why there are none: the refusal of
/// its walk, links followed to the last, or that it leads to no object.
pub fn list_entry<R: EntryReader>(
    alloc: Global,
    reader: &R,
    name: &FullName,
) -> Result<InquireAnswer, AllocError>
    ensures { IfOk result (λ a. inquired_answer a ≡ entry_listed (R.tells reader.now) name.now) }
{
    match object(alloc, reader, name) {
        Ok(entry) => entry_in(alloc, reader, &entry),
        Err(AllocOr::Fault(refusal)) => Ok(refused(refusal)),
        Err(AllocOr::OutOfMemory) => Err(AllocError),
    }
}

// The interfaces and the objects of a server.
fn entry_in<R: EntryReader>(
    alloc: Global,
    reader: &R,
    entry: &Found,
) -> Result<InquireAnswer, AllocError>
    ensures { IfOk result (λ a. inquired_answer a ≡ entry_in (R.tells reader.now) entry.now) }
{
    let towers = values_of(alloc, reader, entry, TOWERS)?;
    let held = values_of(alloc, reader, entry, OBJECTS)?;
    Ok(InquireAnswer::Entries(interfaces(alloc, &towers)?, objects(alloc, &held)?))
}

/// The elements of the profile of a name that an inquiry asks for, or why there are none: the
/// refusal of its walk, links followed to the last, or that it leads to no object.
pub fn list_elements<R: EntryReader>(
    alloc: Global,
    reader: &R,
    name: &FullName,
    inquiry: &Inquiry,
) -> Result<InquireAnswer, AllocError>
    ensures { IfOk result
        (λ a. inquired_answer a ≡ elements_listed (R.tells reader.now) inquiry.now name.now) }
{
    match object(alloc, reader, name) {
        Ok(entry) => elements_in(alloc, reader, &entry, inquiry),
        Err(AllocOr::Fault(refusal)) => Ok(refused(refusal)),
        Err(AllocOr::OutOfMemory) => Err(AllocError),
    }
}

// The elements of a profile that an inquiry asks for.
fn elements_in<R: EntryReader>(
    alloc: Global,
    reader: &R,
    entry: &Found,
    inquiry: &Inquiry,
) -> Result<InquireAnswer, AllocError>
    ensures { IfOk result
        (λ a. inquired_answer a ≡ elements_in (R.tells reader.now) inquiry.now entry.now) }
{
    Ok(InquireAnswer::Elements(elements_read(alloc, reader, entry, inquiry)?))
}

// The same as a list. The values are read in place, where the reader keeps them.
fn elements_read<R: EntryReader>(
    alloc: Global,
    reader: &R,
    entry: &Found,
    inquiry: &Inquiry,
) -> Result<Vec<Element>, AllocError>
    ensures { IfOk result (λ v. v.items
        ≡ elements_of inquiry.now ((R.tells reader.now).values entry.now profile)) }
{
    match reader.attributes(entry) {
        Some(cells) => elements_by(alloc, cells, inquiry),
        None => {
            let values = values_of(alloc, reader, entry, PROFILE)?;
            elements(alloc, &values, inquiry)
        }
    }
}

/// The bindings for a client, in the order of the search that begins at the entry of a name, in
/// batches of at most so many; or why the search does not begin: the refusal of its walk, links
/// followed to the last, or that it leads to no object.
pub fn look_up<R: EntryReader>(
    alloc: Global,
    reader: &R,
    name: &FullName,
    wanted: Wanted,
    most: u16,
) -> Result<InquireAnswer, AllocError>
    requires { 1 ≤ most }
    ensures { (objects : List Found) → ShowsOnly (R.tells reader.now) objects
        → IfOk result
        (λ a. inquired_answer a
        ≡ batches_listed (R.tells reader.now) objects wanted most name.now) }
{
    match Lookup::begin(alloc, reader, name, wanted, usize::from(most)) {
        Ok(mut lookup) => Ok(InquireAnswer::Batches(all_batches(alloc, &mut lookup)?)),
        Err(AllocOr::Fault(ImportFault::Walk(refusal))) => Ok(refused(refusal_of_walk(refusal))),
        Err(AllocOr::Fault(ImportFault::NotObject)) => Ok(refused(ScriptRefusal::NotObject)),
        Err(AllocOr::OutOfMemory) => Err(AllocError),
    }
}

// All batches that are still to come.
fn all_batches<R: EntryReader>(
    alloc: Global,
    lookup: &mut Lookup<'_, R>,
) -> Result<Vec<Vec<StringBinding>>, AllocError>
    requires { 1 ≤ lookup.old.most }
    ensures { (left : List StringBinding) → lookup.old.left ≡ Some left
        → IfOk result (λ v. map (λ batch. batch.items) v.items ≡ batches lookup.old.most left) }
{
    batches_cut_a_list();
    let mut list = Vec::new(alloc);
    'batches: while let Some(batch) = lookup.next(alloc)? {
        list.push(batch)?;
    }
    Ok(list)
}
