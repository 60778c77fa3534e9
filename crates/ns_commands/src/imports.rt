// The import of bindings.
ghost use Rattle.std.specs.Prelude.{◌≡◌, List, Some, IfOk};
ghost use Rattle.tower_codec.specs.declared.binding.StringBinding.{StringBinding};
ghost use Rattle.resolver.specs.declared.seen.Found.{Found};
ghost use Rattle.resolver.specs.Readers.{ShowsOnly};
ghost use Rattle.ns_commands.specs.Imported.{import_answer};

use crate::refusals::refusal_of_walk;
use cds_stamps::AllocOr;
use cell_names::FullName;
use cell_script::StringBindings;
use ns_import::{ImportFault, Importer};
use resolver::EntryReader;
use script_answers::{Answer, ScriptRefusal};
use server_entries::Wanted;
use std::alloc::{AllocError, Global};

/// The answer to an import: the bindings for a client, in the order of the search that begins at
/// the entry of a name.
pub fn import<R: EntryReader>(
    alloc: Global,
    reader: &R,
    name: &FullName,
    wanted: Wanted,
) -> Result<Answer, AllocError>
    ensures { (objects : List Found) → ShowsOnly (R.tells reader.now) objects
        → IfOk result (λ a. a ≡ import_answer (R.tells reader.now) objects wanted name.now) }
{
    match Importer::begin(alloc, reader, name, wanted) {
        Ok(mut importer) => Ok(Answer::Bindings(all_of(alloc, &mut importer)?)),
        Err(AllocOr::Fault(ImportFault::Walk(refusal))) => Ok(Answer::Refused(refusal_of_walk(
            refusal,
        ))),
        Err(AllocOr::Fault(ImportFault::NotObject)) => Ok(Answer::Refused(
            ScriptRefusal::NotObject,
        )),
        Err(AllocOr::OutOfMemory) => Err(AllocError),
    }
}

// All bindings that are still to come.
fn all_of<R: EntryReader>(
    alloc: Global,
    importer: &mut Importer<'_, R>,
) -> Result<StringBindings, AllocError>
    ensures { (left : List StringBinding) → importer.old ≡ Some left
        → IfOk result (λ list. list ≡ left) }
{
    let mut bindings = StringBindings::new(alloc);
    while let Some(binding) = importer.next(alloc)? {
        bindings.push(binding)?;
    }
    Ok(bindings)
}
