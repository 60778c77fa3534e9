// An import.
ghost use Rattle.std.specs.Prelude.{◌≡◌, List, Some, is_none, drop, slice_get, IfOk};
ghost use Rattle.cds_stamps.specs.Outcomes.{Answers};
ghost use Rattle.tower_codec.specs.declared.binding.StringBinding.{StringBinding};
ghost use Rattle.resolver.specs.declared.seen.Found.{Found};
ghost use Rattle.resolver.specs.Readers.{ShowsOnly};
ghost use Rattle.ns_import.specs.Imports.{import_list, begin_import, IsCall};

use crate::client::Client;
use crate::fault::ImportFault;
use crate::progress::Progress;
use crate::waiting::object;
use cds_stamps::AllocOr;
use cell_names::FullName;
use resolver::{EntryReader, LentEntry};
use server_entries::Wanted;
use std::alloc::{AllocError, Global};
use std::marker::Model;
use tower_codec::StringBinding;

/// An import, which gives the bindings of a search one by one. Contracts see the bindings that are
/// still to come, or nothing once it is spent.
#[derive(Drop)]
pub struct Importer<'a, R: EntryReader> {
    reader: &'a R,
    client: Client,
    progress: Progress<'a>,
    spent: bool,
}

impl<'a, R: EntryReader> Model for Importer<'a, R> {
    ghost use Rattle.std.specs.Prelude.{List, Option, Some, None, if◌then◌else◌};
    ghost use Rattle.tower_codec.specs.declared.binding.StringBinding.{StringBinding};
    ghost use Rattle.resolver.specs.Nears.{Knows};
    ghost use Rattle.ns_import.specs.Coming.{bindings_to_come};

    ghost Value = { Option (List StringBinding) };

    ghost view = { λ i. if i.spent then None else Some (bindings_to_come (R.tells i.reader.now) (R.objects i.reader.now) i.client i.progress) };

    ghost invariant = { λ i. Knows (R.tells i.reader.now) i.progress.near };
}

impl<'a, R: EntryReader> Importer<'a, R> {
    /// Begins a search at the entry that a name leads to, links followed to the last. That entry is
    /// read, and no other.
    pub fn begin(
        alloc: Global,
        reader: &'a R,
        name: &FullName,
        wanted: Wanted,
    ) -> Result<Importer<'a, R>, AllocOr<ImportFault>>
        ensures { (objects : List Found) → ShowsOnly (R.tells reader.now) objects
            → Answers result
            (begin_import (import_list (R.tells reader.now) objects wanted name.now)) }
    {
        let at = object(alloc, reader, name)?;
        let client = Client::new(alloc, wanted)?;
        let mut progress = Progress::new(alloc);
        progress.enter(alloc, reader, &client, LentEntry { at, cells: None })?;
        Ok(Importer {
            reader,
            client,
            progress,
            spent: false,
        })
    }

    /// The next binding, or none at the end. The search goes just as far as that binding. After it
    /// ran out of memory the importer is spent: each further call answers out of memory.
    pub fn next(&mut self, alloc: Global) -> Result<Option<StringBinding>, AllocError>
        ensures call { IsCall self.old self.new result }
        ensures next { (left : List StringBinding) → self.old ≡ Some left
            → IfOk result (λ next. (next ≡ slice_get left 0) × (self.new ≡ Some (drop 1 left))) }
    {
        if self.spent {
            return Err(AllocError);
        }
        let next = self.progress.advance(alloc, self.reader, &self.client);
        self.spent = next.is_err();
        next
    }

    /// Whether memory ran out in a call: then the importer is used no more.
    pub fn is_spent(&self) -> bool
        ensures { result ≡ is_none self.now }
    {
        self.spent
    }
}
