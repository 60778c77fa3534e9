// Names that wait in a search.
ghost use Rattle.std.specs.Prelude.{◌≡◌, Result, Ok, Err, IfOk};
ghost use Rattle.cds_stamps.specs.Outcomes.{Answers};
ghost use Rattle.cds_stamps.specs.declared.alloc_or.AllocOr.TheVariants.{OutOfMemory};
ghost use Rattle.resolver.specs.declared.seen.Found.{Found};
ghost use Rattle.resolver.specs.declared.refusal.Refusal.{Refusal};
ghost use Rattle.resolver.specs.LentEntries.{HasItsCells, found_at};
ghost use Rattle.resolver.specs.Nears.{Knows};
ghost use Rattle.resolver.specs.Readers.{Reader};
ghost use Rattle.ns_import.specs.Imports.{object_at, object_walked};

use crate::fault::ImportFault;
use cds_stamps::AllocOr;
use cell_names::{FullName, LentName};
use directory::Kind;
use resolver::{EntryReader, Found, LentEntry, Near, Refusal, resolve, resolve_near};
use std::alloc::{AllocError, Global};
use std::marker::Model;

/// A full name at which a search goes on: its octets are where the reader keeps them, or it has
/// memory of its own.
#[derive(Drop)]
pub(crate) struct Waiting<'a> {
    name: Name<'a>,
}

#[derive(Drop)]
enum Name<'a> {
    Lent(LentName<'a>),
    Own(FullName),
}

impl<'a> Model for Waiting<'a> {
    ghost use Rattle.std.specs.Prelude.{ℕ, List};

    ghost Value = { List (List ℕ) };

    ghost use Rattle.ns_import.specs.Waitings.{name_said};

    ghost view = { λ w. name_said w.name };
}

impl<'a> Waiting<'a> {
    /// A name whose octets the reader keeps.
    pub(crate) fn lent(name: LentName<'a>) -> Waiting<'a>
        ensures { result ≡ name.entry }
    {
        Waiting {
            name: Name::Lent(name),
        }
    }

    /// A name with memory of its own.
    pub(crate) fn own(name: FullName) -> Waiting<'a>
        ensures { result ≡ name }
    {
        Waiting {
            name: Name::Own(name),
        }
    }

    /// Names whose octets the reader keeps.
    pub(crate) fn all_lent(
        alloc: Global,
        names: Vec<LentName<'a>>,
    ) -> Result<Vec<Waiting<'a>>, AllocError>
        ensures { IfOk result (λ v. v.items ≡ names.entry.items) }
    {
        let mut all = Vec::with_capacity(alloc, names.len())?;
        for name in names {
            all.push(Waiting::lent(name))?;
        }
        Ok(all)
    }

    /// Names with memory of their own.
    pub(crate) fn all_own(
        alloc: Global,
        names: Vec<FullName>,
    ) -> Result<Vec<Waiting<'a>>, AllocError>
        ensures { IfOk result (λ v. v.items ≡ names.items) }
    {
        let mut all = Vec::with_capacity(alloc, names.len())?;
        for name in names {
            all.push(Waiting::own(name))?;
        }
        Ok(all)
    }

    /// The object that the name leads to, links followed to the last. A name whose octets the
    /// reader keeps is looked up at once in the directory that is near, if it is of that.
    pub(crate) fn object<'r, R: EntryReader>(
        self,
        alloc: Global,
        reader: &'r R,
        near: &mut Option<Near>,
    ) -> Result<LentEntry<'r>, AllocOr<ImportFault>>
        requires { Knows (R.tells reader.now) near.old }
        ensures near { Knows (R.tells reader.now) near.new }
        ensures answer { Answers (found_at result) (object_at (R.tells reader.now) self.entry) }
        ensures lent { IfOk result (HasItsCells (R.tells reader.now)) }
    {
        match self.name {
            Name::Lent(name) => lent_object(resolve_near(alloc, reader, near, &name)),
            Name::Own(name) => Ok(LentEntry {
                at: object(alloc, reader, &name)?,
                cells: None,
            }),
        }
    }
}

/// The object that a name leads to, links followed to the last.
pub(crate) fn object<R: EntryReader>(
    alloc: Global,
    reader: &R,
    name: &FullName,
) -> Result<Found, AllocOr<ImportFault>>
    ensures { Answers result (object_at (R.tells reader.now) name.now) }
{
    object_found(resolve(alloc, reader, name, true))
}

// Likewise, with the cells that are lent of it.
fn lent_object(
    found: Result<LentEntry<'_>, AllocOr<Refusal>>,
) -> Result<LentEntry<'_>, AllocOr<ImportFault>>
    ensures answer { (walked : Result Found Refusal) → Answers (found_at found.entry) walked
        → Answers (found_at result) (object_walked walked) }
    ensures lent { (reader : Reader) → IfOk found.entry (HasItsCells reader)
        → IfOk result (HasItsCells reader) }
{
    let (at, cells) = match found {
        Ok(entry) => (Ok(entry.at), entry.cells),
        Err(why) => (Err(why), None),
    };
    Ok(LentEntry {
        at: object_found(at)?,
        cells,
    })
}

// What a walk found, if it is an object.
fn object_found(found: Result<Found, AllocOr<Refusal>>) -> Result<Found, AllocOr<ImportFault>>
    ensures answer { (walked : Result Found Refusal) → Answers found walked
        → Answers result (object_walked walked) }
    ensures memory { result ≡ Err OutOfMemory → found ≡ Err OutOfMemory }
    ensures same { IfOk result (λ entry. found ≡ Ok entry) }
{
    match found {
        Ok(entry) => {
            if entry.kind == Kind::Object {
                Ok(entry)
            } else {
                Err(AllocOr::Fault(ImportFault::NotObject))
            }
        }
        Err(AllocOr::Fault(refusal)) => Err(AllocOr::Fault(ImportFault::Walk(refusal))),
        Err(AllocOr::OutOfMemory) => Err(AllocOr::OutOfMemory),
    }
}
