// An import by what was heard.
ghost use Rattle.std.specs.Prelude.{◌≡◌, [], List, IfOk};
ghost use Rattle.std.specs.List.Sorted.{IsStrictlySortedBy};
ghost use Rattle.cds_stamps.specs.Octets.{octets_cmp};
ghost use Rattle.resolver.specs.declared.seen.Found.{Found};
ghost use Rattle.resolver.specs.Readers.{Reader, ShowsOnly};
ghost use Rattle.ns_commands.specs.Imported.{import_answer};
ghost use Rattle.clerk_lines.specs.ShownEntries.{attr_values};
ghost use Rattle.cds_clerk.specs.Agreements.{Agrees};
ghost use Rattle.cds_clerk.specs.HeardProofs.{least_shows_only, told_objects};
ghost use Rattle.cds_clerk.specs.Searches.{IsClosed, IsSearched};
ghost use Rattle.cds_clerk.specs.Unreached.{AreMissed};
ghost use Rattle.cds_clerk.specs.Readings.{least_reader};

use crate::heard::{Heard, Looked, Root};
use crate::reaching::{Reached, closed_unreached};
use crate::searching::{Searched, search};
use attr_sets::Value;
use cds_stamps::{AttrName, SimpleName};
use cell_names::{ChildPointer, FullName};
use clerk_lines::{ShownEntry, Told};
use resolver::{EntryReader, Found, Seen};
use script_answers::Answer;
use server_entries::Wanted;
use std::alloc::{AllocError, Global};

// What was heard, as a reader of a cell: what was not heard is not reached.
#[derive(Clone, Copy)]
pub(crate) struct HeardReader<'a> {
    pub(crate) heard: &'a Heard,
}

// The values of an attribute that an entry shows.
fn shown_values(
    alloc: Global,
    entry: &ShownEntry,
    attr: &AttrName,
) -> Result<Vec<Value>, AllocError>
    ensures told { IfOk result (λ v. v.items ≡ attr_values attr.now entry.now.attrs) }
    ensures ascending { IfOk result (λ v. IsStrictlySortedBy octets_cmp v.items) }
{
    match entry.attrs.values(attr) {
        Some(values) => copies_of(alloc, values.list()),
        None => no_values(alloc),
    }
}

// No values.
#[tactic(auto, using(crate::proofs::ClosedLaws::none_ascend))]
fn no_values(alloc: Global) -> Result<Vec<Value>, AllocError>
    ensures told { IfOk result (λ v. v.items ≡ []) }
    ensures ascending { IfOk result (λ v. IsStrictlySortedBy octets_cmp v.items) }
{
    Ok(Vec::new(alloc))
}

// Copies of values.
fn copies_of(alloc: Global, values: &[Value]) -> Result<Vec<Value>, AllocError>
    ensures { IfOk result (λ v. v.items ≡ values.now) }
{
    let mut copies = Vec::with_capacity(alloc, values.len())?;
    for value in values {
        copies.push(value.copy(alloc)?)?;
    }
    Ok(copies)
}

impl EntryReader for HeardReader<'_> {
    ghost tells = { λ r. least_reader r.heard.now };

    ghost objects = { λ r. told_objects r.heard.now.answers };

    ghost shows_only = { λ r. least_shows_only r.heard.now };

    fn root(&self, alloc: Global) -> Result<Option<ChildPointer>, AllocError> {
        match &self.heard.root {
            Root::At(root) => Ok(Some(root.copy(alloc)?)),
            Root::Unheard | Root::Nowhere => Ok(None),
        }
    }

    fn lookup(
        &self,
        alloc: Global,
        at: &ChildPointer,
        name: &SimpleName,
    ) -> Result<Seen, AllocError> {
        match self.heard.look(alloc, at, name)? {
            Looked::Seen(seen) => Ok(seen),
            Looked::Lacks(_) => Ok(Seen::Unreachable),
        }
    }

    fn values(&self, alloc: Global, at: &Found, attr: &AttrName) -> Result<Vec<Value>, AllocError> {
        match self.heard.answers.told(at.dir, at.house, &at.name) {
            Some(Told::Shows(entry)) => shown_values(alloc, entry, attr),
            _ => no_values(alloc),
        }
    }
}

// The answer to an import whose search is closed.
fn closed_import(
    alloc: Global,
    heard: &Heard,
    name: &FullName,
    wanted: Wanted,
) -> Result<Answer, AllocError>
    requires { (entries : List Found)
        × IsClosed heard.now wanted.interface name.now entries }
    ensures { IfOk result (λ a. (r : Reader) (objects : List Found)
        → Agrees r heard.now → ShowsOnly r objects → a ≡ import_answer r objects wanted name.now) }
{
    ns_commands::import(alloc, &HeardReader { heard }, name, wanted)
}

/// The answer to an import by what was heard, and the directories that its search did not reach.
/// Each reader that agrees with what was heard, and shows finitely many objects, has that answer
/// and these directories, whatever else it tells. What lacks was not heard,
/// and the search comes to a name of which the walk needs it; nothing else lacks that can be known
/// so far.
pub fn import(
    alloc: Global,
    heard: &Heard,
    name: &FullName,
    wanted: Wanted,
) -> Result<Searched<Reached<Answer>>, AllocError>
    ensures { IfOk result (IsSearched heard.now wanted.interface name.now
        (λ x. ((r : Reader) (objects : List Found) → Agrees r heard.now → ShowsOnly r objects
        → x.answer ≡ import_answer r objects wanted name.now)
        × AreMissed heard.now wanted.interface name.now x.unreached.items)) }
{
    let searched = search(alloc, heard, name, &wanted.interface)?;
    match searched {
        Searched::Closed(entries) => {
            let unreached = closed_unreached(alloc, heard, name, &wanted.interface, &entries)?;
            let answer = closed_import(alloc, heard, name, wanted)?;
            Ok(Searched::Closed(Reached { answer, unreached }))
        }
        Searched::LacksRoot => Ok(Searched::LacksRoot),
        Searched::Lacks(lacks) => Ok(Searched::Lacks(lacks)),
    }
}
