// The entry that a command means.
ghost use Rattle.std.specs.Prelude.{◌≡◌, true, None, IfOk};
ghost use Rattle.cds_stamps.specs.Names.{attr_fault};
ghost use Rattle.cds_stamps.specs.Outcomes.{Answers};
ghost use Rattle.resolver.specs.WalkEnds.{place_of_walk, walk_end};
ghost use Rattle.ns_commands.specs.Asks.{object_in, place_to_fill};

use crate::refusals::refusal_of_walk;
use attr_sets::Value;
use cds_stamps::{AllocOr, AttrName};
use cell_names::FullName;
use directory::Kind;
use resolver::{EntryReader, Found, Place, place, resolve};
use script_answers::ScriptRefusal;
use std::alloc::{AllocError, Global};

/// The place of an entry that is absent or an object, and so can be given values.
pub(crate) fn place_to_fill<R: EntryReader>(
    alloc: Global,
    reader: &R,
    name: &FullName,
) -> Result<Place, AllocOr<ScriptRefusal>>
    ensures { Answers result (place_to_fill (place_of_walk (R.tells reader.now) name.now)) }
{
    match place(alloc, reader, name) {
        Ok(place) => match place.kind {
            None | Some(Kind::Object) => Ok(place),
            Some(Kind::Link) | Some(Kind::Child) => Err(AllocOr::Fault(ScriptRefusal::NotObject)),
        },
        Err(AllocOr::Fault(refusal)) => Err(AllocOr::Fault(refusal_of_walk(refusal))),
        Err(AllocOr::OutOfMemory) => Err(AllocOr::OutOfMemory),
    }
}

/// The object that a name leads to, the links of the name followed. A name that leads to no entry
/// is refused as its walk is, and an entry that is a link or a child pointer is `NotObject`.
pub fn object<R: EntryReader>(
    alloc: Global,
    reader: &R,
    name: &FullName,
) -> Result<Found, AllocOr<ScriptRefusal>>
    ensures { Answers result (object_in (walk_end (R.tells reader.now) true name.now)) }
{
    match resolve(alloc, reader, name, true) {
        Ok(entry) => match entry.kind {
            Kind::Object => Ok(entry),
            Kind::Link | Kind::Child => Err(AllocOr::Fault(ScriptRefusal::NotObject)),
        },
        Err(AllocOr::Fault(refusal)) => Err(AllocOr::Fault(refusal_of_walk(refusal))),
        Err(AllocOr::OutOfMemory) => Err(AllocOr::OutOfMemory),
    }
}

/// The values that show of an entry in the attribute of this name, 1 to 31 octets that a name of an
/// attribute may have.
pub fn values_of<R: EntryReader>(
    alloc: Global,
    reader: &R,
    entry: &Found,
    attr: &[u8],
) -> Result<Vec<Value>, AllocError>
    requires { attr_fault attr.now ≡ None }
    ensures { IfOk result (λ found. found.items ≡ (R.tells reader.now).values entry.now attr.now) }
{
    let attr = AttrName::known(alloc, attr)?;
    reader.values(alloc, entry, &attr)
}
