// How far a search has come.
ghost use Rattle.std.specs.Prelude.{◌≡◌, ◌∷◌, ◌++◌, [], None, false, drop, reverse, slice_get, IfOk, IfNone, IfSome, OnOk};
ghost use Rattle.std.specs.Option.{option_to_list};
ghost use Rattle.cds_stamps.specs.Firsts.{has};
ghost use Rattle.resolver.specs.LentEntries.{HasItsCells};
ghost use Rattle.resolver.specs.Nears.{Knows};
ghost use Rattle.ns_import.specs.Imports.{same_entry, names_of, bindings_at};
ghost use Rattle.ns_import.specs.DepthFirst.{behind_seen};
ghost use Rattle.ns_import.specs.Coming.{bindings_to_come, next_at, objects_of_names};

use crate::client::{Client, Said};
use crate::waiting::Waiting;
use cds_stamps::AllocOr;
use indexmap::IndexSet;
use resolver::{EntryReader, Found, LentEntry, Near};
use std::alloc::{AllocError, Global};
use tower_codec::StringBinding;

/// How far a search has come: the entries that were searched, the names that wait, the bindings of
/// the last entry that were not given yet, and the directory where the search was last, if one is
/// kept. Of names and of bindings the next one is last.
#[derive(Drop)]
pub(crate) struct Progress<'a> {
    searched: IndexSet<Found>,
    names: Vec<Waiting<'a>>,
    ready: Vec<StringBinding>,
    near: Option<Near>,
}

impl<'a> Progress<'a> {
    /// A search of nothing.
    pub(crate) fn new(alloc: Global) -> Progress<'a>
        ensures searched { result.searched.keys ≡ [] }
        ensures names { result.names.items ≡ [] }
        ensures ready { result.ready.items ≡ [] }
        ensures near { result.near ≡ None }
    {
        Progress {
            searched: IndexSet::new(alloc),
            names: Vec::new(alloc),
            ready: Vec::new(alloc),
            near: None,
        }
    }

    /// Takes the next binding, and searches just as far as that.
    pub(crate) fn advance<R: EntryReader>(
        &mut self,
        alloc: Global,
        reader: &'a R,
        client: &Client,
    ) -> Result<Option<StringBinding>, AllocError>
        requires { Knows (R.tells reader.now) self.old.near }
        ensures near { Knows (R.tells reader.now) self.new.near }
        ensures next { let left = bindings_to_come (R.tells reader.now) (R.objects reader.now) client.now in
            IfOk result (λ next. (next ≡ slice_get (left self.old) 0)
            × (left self.new ≡ drop 1 (left self.old))) }
    {
        'entries: loop {
            if let Some(binding) = self.ready.pop() {
                return Ok(Some(binding));
            }
            match next_object(
                alloc,
                reader,
                &self.searched,
                &mut self.names,
                &mut self.near,
            )? {
                Some(entry) => self.enter(alloc, reader, client, entry)?,
                None => return Ok(None),
            }
        }
    }

    /// Searches an entry: its names come before those that wait, and its bindings are the next.
    pub(crate) fn enter<R: EntryReader>(
        &mut self,
        alloc: Global,
        reader: &'a R,
        client: &Client,
        lent: LentEntry<'a>,
    ) -> Result<(), AllocError>
        requires lent { HasItsCells (R.tells reader.now) lent }
        requires new { has same_entry lent.at self.old.searched.keys ≡ false }
        ensures near { self.new.near ≡ self.old.near }
        ensures searched { OnOk result
            (self.new.searched.keys ≡ self.old.searched.keys ++ lent.entry.at ∷ []) }
        ensures names { OnOk result (reverse self.new.names.items
            ≡ names_of (R.tells reader.now) client.now.interface lent.entry.at
            ++ reverse self.old.names.items) }
        ensures ready { OnOk result
            (reverse self.new.ready.items
            ≡ bindings_at (R.tells reader.now) client.now lent.entry.at) }
    {
        let Said {
            mut names,
            bindings,
        } = client.read(alloc, reader, &lent)?;
        self.ready = bindings;
        self.names.append(&mut names)?;
        self.searched.insert(lent.at)?;
        Ok(())
    }
}

// Takes names off the stack up to the first that leads to an object which was not searched.
fn next_object<'r, R: EntryReader>(
    alloc: Global,
    reader: &'r R,
    searched: &IndexSet<Found>,
    names: &mut Vec<Waiting<'_>>,
    near: &mut Option<Near>,
) -> Result<Option<LentEntry<'r>>, AllocError>
    requires { Knows (R.tells reader.now) near.old }
    ensures near { Knows (R.tells reader.now) near.new }
    ensures lent { IfOk result (λ next. IfSome next (HasItsCells (R.tells reader.now))) }
    ensures next { IfOk result
        (λ next. option_to_list (next_at next)
        ++ objects_of_names (R.tells reader.now) (reverse names.new.items)
        ≡ behind_seen same_entry searched.now.keys
        (objects_of_names (R.tells reader.now) (reverse names.old.items))) }
    ensures end { IfOk result (λ next. IfNone (next_at next) (names.new.items ≡ [])) }
{
    'names: while let Some(name) = names.pop() {
        match name.object(alloc, reader, near) {
            Ok(entry) => {
                if !searched.contains(&entry.at) {
                    return Ok(Some(entry));
                }
            }
            Err(AllocOr::Fault(_)) => {}
            Err(AllocOr::OutOfMemory) => return Err(AllocError),
        }
    }
    Ok(None)
}
