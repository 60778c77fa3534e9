//! An import in batches.
ghost use Rattle.std.specs.Prelude.{◌≡◌, ◌≤◌, ℕ, List, Some, take, drop, IfOk};
ghost use Rattle.std.specs.Option.{option_map};
ghost use Rattle.cds_stamps.specs.Outcomes.{Answers};
ghost use Rattle.tower_codec.specs.declared.binding.StringBinding.{StringBinding};
ghost use Rattle.resolver.specs.declared.seen.Found.{Found};
ghost use Rattle.resolver.specs.Readers.{ShowsOnly};
ghost use Rattle.ns_import.specs.Imports.{IsCall, import_list};
ghost use Rattle.ns_inquire.specs.Batches.{begin_lookup, first_batch};

use cds_stamps::AllocOr;
use cell_names::FullName;
use ns_import::{ImportFault, Importer};
use resolver::EntryReader;
use server_entries::Wanted;
use std::alloc::{AllocError, Global};
use std::marker::Model;
use tower_codec::StringBinding;

/// An import that gives its bindings in batches. Contracts see how many bindings a batch has at
/// most, and the bindings that are still to come, or none once it is spent.
///
/// It is spent by itself, and not only as its importer is: a binding that the importer gave may
/// find no room in the batch, and would be missing from the next one.
#[derive(Drop)]
pub struct Lookup<'a, R: EntryReader> {
    importer: Importer<'a, R>,
    most: usize,
    spent: bool,
}

impl<'a, R: EntryReader> Model for Lookup<'a, R> {
    ghost use Rattle.std.specs.Prelude.{◌≡◌, ◌≤◌, None, false, is_none, if◌then◌else◌};
    ghost use Rattle.ns_inquire.specs.Batches.{Batching};

    ghost Value = { Batching };

    ghost view = { λ l. record { most = l.most; left = if l.spent then None else l.importer } };

    ghost invariant = { λ l. (1 ≤ l.most) × (l.spent ≡ false → is_none l.importer ≡ false) };
}

impl<'a, R: EntryReader> Lookup<'a, R> {
    /// Begins an import at the entry that a name leads to, links followed to the last, in batches
    /// of at most so many bindings. That entry is read, and no other.
    pub fn begin(
        alloc: Global,
        reader: &'a R,
        name: &FullName,
        wanted: Wanted,
        most: usize,
    ) -> Result<Lookup<'a, R>, AllocOr<ImportFault>>
        requires { 1 ≤ most }
        ensures { (objects : List Found) → ShowsOnly (R.tells reader.now) objects
            → Answers result
            (begin_lookup most (import_list (R.tells reader.now) objects wanted name.now)) }
    {
        let importer = Importer::begin(alloc, reader, name, wanted)?;
        Ok(Lookup {
            importer,
            most,
            spent: false,
        })
    }

    /// The next batch, or none at the end: full, or all that is left. The search goes just as far
    /// as the last binding of the batch. After it ran out of memory the look-up is spent: each
    /// further call answers out of memory.
    pub fn next(&mut self, alloc: Global) -> Result<Option<Vec<StringBinding>>, AllocError>
        ensures call { IsCall self.old.left self.new.left result }
        ensures most { self.new.most ≡ self.old.most }
        ensures next { (left : List StringBinding) → self.old.left ≡ Some left
            → IfOk result (λ batch.
            (option_map (λ v. v.items) batch ≡ first_batch self.old.most left)
            × (self.new.left ≡ Some (drop self.old.most left))) }
    {
        if self.spent {
            return Err(AllocError);
        }
        match gather(alloc, &mut self.importer, self.most) {
            Ok(batch) => Ok(unless_empty(batch)),
            Err(AllocError) => {
                self.spent = true;
                Err(AllocError)
            }
        }
    }
}

// A batch, unless it is empty.
fn unless_empty(batch: Vec<StringBinding>) -> Option<Vec<StringBinding>>
    ensures { (most : ℕ) (left : List StringBinding) → 1 ≤ most → batch.items ≡ take most left
        → option_map (λ v. v.items) result ≡ first_batch most left }
{
    if batch.is_empty() { None } else { Some(batch) }
}

// The next bindings, at most so many.
fn gather<R: EntryReader>(
    alloc: Global,
    importer: &mut Importer<'_, R>,
    most: usize,
) -> Result<Vec<StringBinding>, AllocError>
    ensures { (left : List StringBinding) → importer.old ≡ Some left
        → IfOk result
        (λ batch. (batch.items ≡ take most left) × (importer.new ≡ Some (drop most left))) }
{
    let mut batch = Vec::new(alloc);
    'bindings: while batch.len() < most {
        match importer.next(alloc)? {
            Some(binding) => batch.push(binding)?,
            None => return Ok(batch),
        }
    }
    Ok(batch)
}
