// Plans: the updates that a command asks for by what was heard.
ghost use Rattle.std.specs.Prelude.{◌≡◌, true, false, Some, None, IfOk};
ghost use Rattle.std.specs.Result.{result_map_both};
ghost use Rattle.cds_stamps.specs.Outcomes.{Answers};
ghost use Rattle.cell_names.specs.ChildPointers.{Pointer};
ghost use Rattle.directory.specs.Updates.{change_of};
ghost use Rattle.resolver.specs.PassWords.{first_walker};
ghost use Rattle.resolver.specs.Readers.{Reader};
ghost use Rattle.resolver.specs.Walks.{Ends};
ghost use Rattle.resolver.specs.WalkEnds.{end_of};
ghost use Rattle.ns_commands.specs.Asks.{Asks, changes_in};
ghost use Rattle.cds_clerk.specs.Agreements.{Agrees, IsNeeded};
ghost use Rattle.cds_clerk.specs.Heards.{IsUnheard, heard_root};
ghost use Rattle.cds_clerk.specs.Inquirings.{IsAtName};
ghost use Rattle.cds_clerk.specs.Readings.{IfFound, IsShown};
ghost use Rattle.cds_clerk.specs.Plans.{IfMisses, IfPlanned, IfRootless, IsKnown, asks_of, change_named, is_creation, name_of, update_at, update_of};

use crate::heard::{Heard, Lack};
use crate::importing::HeardReader;
use crate::walking::{Walked, walk};
use attr_sets::Value;
use cds_stamps::{AllocOr, AttrName, DirId, HouseNo, SimpleName};
use cell_names::FullName;
use cell_script::{Note, StringBindings, Uuids};
use directory::Update;
use ns_commands::{
    Updates, add_element, add_member, delete_element, delete_member, export, refusal_of_walk,
    unexport,
};
use resolver::laws::ends_are_seen;
use resolver::{End, EntryReader};
use script_answers::ScriptRefusal;
use std::alloc::{AllocError, Global};
use tower_codec::Interface;

/// A command of the name service that changes the entry of a name, links followed. Its fields are
/// in the order of its words.
#[derive(Drop)]
pub enum Plan {
    Export(FullName, Interface, StringBindings, Uuids),
    Unexport(FullName, Option<Interface>, Uuids),
    Groupadd(FullName, FullName),
    Groupdel(FullName, FullName),
    Profadd(FullName, Option<Interface>, FullName, u8, Note),
    Profdel(FullName, Option<Interface>, FullName),
}

/// An update of the entry of a full name, of which the last link is not followed.
#[derive(Drop)]
pub enum NamedUpdate {
    Create,
    Link(FullName),
    Delete,
    Add(AttrName, Value),
    Remove(AttrName, Value),
    Put(AttrName, Value),
    Clear(AttrName),
}

/// What a plan comes to by what was heard: updates, or why there are none, or what was not heard
/// yet.
#[derive(Drop)]
pub enum Planned {
    Made(Updates),
    Refused(ScriptRefusal),
    /// Where the root directory is.
    LacksRoot,
    Lacks(Lack),
}

impl Plan {
    // The name of the entry.
    fn name(&self) -> &FullName
        ensures { result.now ≡ name_of self.now }
    {
        match self {
            Plan::Export(name, _, _, _) => name,
            Plan::Unexport(name, _, _) => name,
            Plan::Groupadd(name, _) => name,
            Plan::Groupdel(name, _) => name,
            Plan::Profadd(name, _, _, _, _) => name,
            Plan::Profdel(name, _, _) => name,
        }
    }

    // What it asks for over a reader.
    fn asks<R: EntryReader>(
        &self,
        alloc: Global,
        reader: &R,
    ) -> Result<Updates, AllocOr<ScriptRefusal>>
        ensures { Answers (result_map_both changes_in (λ e. e) result)
            (asks_of (R.tells reader.now) self.now) }
    {
        match self {
            Plan::Export(name, interface, bindings, objects) => {
                export(
                    alloc,
                    reader,
                    name,
                    interface,
                    bindings.list(),
                    objects.list(),
                )
            }
            Plan::Unexport(name, interface, objects) => {
                unexport(alloc, reader, name, interface.as_ref(), objects.list())
            }
            Plan::Groupadd(name, member) => add_member(alloc, reader, name, member),
            Plan::Groupdel(name, member) => delete_member(alloc, reader, name, member),
            Plan::Profadd(name, interface, member, priority, note) => add_element(
                alloc,
                reader,
                name,
                interface.as_ref(),
                member,
                *priority,
                note.octets(),
            ),
            Plan::Profdel(name, interface, member) => {
                delete_element(alloc, reader, name, interface.as_ref(), member)
            }
        }
    }
}

// What was asked for, as what a plan comes to.
fn told(asked: Result<Updates, AllocOr<ScriptRefusal>>) -> Result<Planned, AllocError>
    ensures asked { (asks : Asks) → Answers (result_map_both changes_in (λ e. e) asked) asks
        → IfOk result (λ x. IfPlanned x (λ a. a ≡ asks)) }
    ensures known { IfOk result IsKnown }
{
    match asked {
        Ok(updates) => Ok(Planned::Made(updates)),
        Err(AllocOr::Fault(refusal)) => Ok(Planned::Refused(refusal)),
        Err(AllocOr::OutOfMemory) => Err(AllocError),
    }
}

// What a plan asks for whose walk came to this end.
fn plan_at(alloc: Global, heard: &Heard, plan: &Plan, end: &End) -> Result<Planned, AllocError>
    requires walked { (r : Reader) → Agrees r heard.now
        → Ends r true (name_of plan.now) end.now }
    requires shown { IfFound end.now (IsShown heard.now) }
    ensures asked { IfOk result (λ x. IfPlanned x (λ asks. (r : Reader) → Agrees r heard.now
        → asks ≡ asks_of r plan.now)) }
    ensures known { IfOk result IsKnown }
{
    told(plan.asks(alloc, &HeardReader { heard }))
}

/// The updates that a command asks for by what was heard. Each reader that agrees with what was
/// heard has those, or the same refusal, whatever else it tells. What lacks was not heard, and the
/// walk comes to a look-up of it.
pub fn plan_of(alloc: Global, heard: &Heard, plan: &Plan) -> Result<Planned, AllocError>
    ensures done { IfOk result (λ x. IfPlanned x (λ asks. (r : Reader) → Agrees r heard.now
        → asks ≡ asks_of r plan.now)) }
    ensures asks { IfOk result (λ x. IfMisses x (IsUnheard heard.now)) }
    ensures needs { IfOk result (λ x. IfMisses x (IsAtName heard.now (name_of plan.now))) }
    ensures root { IfOk result (λ x. IfRootless x (heard_root heard.now.root ≡ None)) }
{
    ends_are_seen();
    match walk(alloc, heard, plan.name(), true)? {
        Walked::Ended(end) => plan_at(alloc, heard, plan, &end),
        Walked::LacksRoot => Ok(Planned::LacksRoot),
        Walked::Lacks(lack) => Ok(Planned::Lacks(lack)),
    }
}

// ---- updates by a full name

impl NamedUpdate {
    // Whether it makes an entry.
    fn is_creation(&self) -> bool
        ensures { result ≡ is_creation self.now }
    {
        matches!(self, NamedUpdate::Create | NamedUpdate::Link(_))
    }

    // It, of the entry of this simple name.
    fn of(&self, alloc: Global, name: &SimpleName) -> Result<Update, AllocError>
        ensures { IfOk result (λ u. change_of u ≡ change_named self.now name.now) }
    {
        let name = name.copy(alloc)?;
        match self {
            NamedUpdate::Create => Ok(Update::Create(name)),
            NamedUpdate::Link(target) => Ok(Update::MakeLink(name, target.copy(alloc)?)),
            NamedUpdate::Delete => Ok(Update::Delete(name)),
            NamedUpdate::Add(attr, value) => {
                Ok(Update::Add(name, attr.copy(alloc)?, value.copy(alloc)?))
            }
            NamedUpdate::Remove(attr, value) => {
                Ok(Update::Remove(name, attr.copy(alloc)?, value.copy(alloc)?))
            }
            NamedUpdate::Put(attr, value) => {
                Ok(Update::Put(name, attr.copy(alloc)?, value.copy(alloc)?))
            }
            NamedUpdate::Clear(attr) => Ok(Update::Clear(name, attr.copy(alloc)?)),
        }
    }
}

// One update of a directory at a house.
fn single(
    alloc: Global,
    house: HouseNo,
    dir: DirId,
    name: &SimpleName,
    update: &NamedUpdate,
) -> Result<Updates, AllocError>
    ensures { IfOk result (λ u. changes_in u ≡ update_of house.0 dir.0 name.now update.now) }
{
    let mut list = Vec::new(alloc);
    list.push(update.of(alloc, name)?)?;
    Ok(Updates { house, dir, list })
}

// What an update asks for by the end of a walk.
fn update_at(alloc: Global, end: &End, update: &NamedUpdate) -> Result<Planned, AllocError>
    ensures asked { IfOk result
        (λ x. IfPlanned x (λ asks. asks ≡ update_at update.now end.now)) }
    ensures known { IfOk result IsKnown }
{
    match end {
        End::Found(found) => Ok(Planned::Made(single(
            alloc,
            found.house,
            found.dir,
            &found.name,
            update,
        )?)),
        End::Missing(place, done) => {
            if update.is_creation() {
                Ok(Planned::Made(single(alloc, place.house, place.dir, &place.name, update)?))
            } else {
                Ok(Planned::Refused(ScriptRefusal::NoSuchName(*done)))
            }
        }
        End::Refused(refusal) => Ok(Planned::Refused(refusal_of_walk(*refusal))),
    }
}

/// The update of the entry of a full name, the last component not followed, by what was heard. Each
/// reader that agrees with what was heard has it, or the same refusal, whatever else it tells. What
/// lacks was not heard, and the walk comes to a look-up of it.
pub fn plan_update(
    alloc: Global,
    heard: &Heard,
    name: &FullName,
    update: &NamedUpdate,
) -> Result<Planned, AllocError>
    ensures done { IfOk result (λ x. IfPlanned x (λ asks. (r : Reader) → Agrees r heard.now
        → asks ≡ update_at update.now (end_of r false name.now))) }
    ensures asks { IfOk result (λ x. IfMisses x (IsUnheard heard.now)) }
    ensures needs { IfOk result (λ x. IfMisses x (λ q. (root : Pointer)
        → heard_root heard.now.root ≡ Some (Some root)
        → IsNeeded heard.now false (first_walker root name.now) q)) }
    ensures root { IfOk result (λ x. IfRootless x (heard_root heard.now.root ≡ None)) }
{
    match walk(alloc, heard, name, false)? {
        Walked::Ended(end) => update_at(alloc, &end, update),
        Walked::LacksRoot => Ok(Planned::LacksRoot),
        Walked::Lacks(lack) => Ok(Planned::Lacks(lack)),
    }
}
