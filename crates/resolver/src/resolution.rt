// Where a full name leads.
ghost use Rattle.std.specs.Prelude.{◌≡◌, [], Err, true};
ghost use Rattle.cds_stamps.specs.Outcomes.{Answers};
ghost use Rattle.cds_stamps.specs.declared.alloc_or.AllocOr.TheVariants.{Fault};
ghost use Rattle.resolver.specs.declared.refusal.Refusal.TheVariants.{RootName};
ghost use Rattle.resolver.specs.Walks.{SomeEnd, found_of, place_of};
ghost use Rattle.resolver.specs.WalkEnds.{walk_end, place_of_walk};

use crate::reader::EntryReader;
use crate::refusal::Refusal;
use crate::seen::Found;
use crate::walk::{End, walk_name};
use cds_stamps::AllocOr;
use cell_names::FullName;
use std::alloc::Global;

/// The entry that a full name leads to, over the entries that the reader tells. Links are followed,
/// 64 at most; one that is the last component is followed where `follow_last` says so, and else it
/// is what is found.
pub fn resolve<R: EntryReader>(
    alloc: Global,
    reader: &R,
    name: &FullName,
    follow_last: bool,
) -> Result<Found, AllocOr<Refusal>>
    ensures ends { SomeEnd (R.tells reader.now) follow_last name.now
        (λ end. Answers result (found_of end)) }
    ensures walked { Answers result (walk_end (R.tells reader.now) follow_last name.now) }
    ensures root { name.now ≡ [] → result ≡ Err (Fault RootName) }
{
    match walk_name(alloc, reader, name, follow_last)? {
        End::Found(found) => Ok(found),
        End::Missing(_, done) => Err(AllocOr::Fault(Refusal::NoSuchName(done))),
        End::Refused(refusal) => Err(AllocOr::Fault(refusal)),
    }
}

/// The place of the entry that a full name leads to, following links. The entry need not be there:
/// where the last component has none, the place is that of the house which was asked, without a
/// kind.
pub fn place<R: EntryReader>(
    alloc: Global,
    reader: &R,
    name: &FullName,
) -> Result<crate::seen::Place, AllocOr<Refusal>>
    ensures ends { SomeEnd (R.tells reader.now) true name.now
        (λ end. Answers result (place_of end)) }
    ensures placed { Answers result (place_of_walk (R.tells reader.now) name.now) }
    ensures root { name.now ≡ [] → result ≡ Err (Fault RootName) }
{
    match walk_name(alloc, reader, name, true)? {
        End::Found(found) => Ok(crate::seen::Place {
            dir: found.dir,
            house: found.house,
            name: found.name,
            kind: Some(found.kind),
        }),
        End::Missing(place, _) => Ok(place),
        End::Refused(refusal) => Err(AllocOr::Fault(refusal)),
    }
}
