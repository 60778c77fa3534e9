// Where a link leads by what was heard.
ghost use Rattle.std.specs.Prelude.{◌≡◌, false, Some, None, IfOk};
ghost use Rattle.cell_names.specs.ChildPointers.{Pointer};
ghost use Rattle.resolver.specs.Readers.{Reader};
ghost use Rattle.resolver.specs.Walks.{found_of};
ghost use Rattle.resolver.specs.WalkEnds.{walk_end};
ghost use Rattle.resolver.specs.PassWords.{first_walker};
ghost use Rattle.cds_clerk.specs.Agreements.{Agrees, IsNeeded};
ghost use Rattle.cds_clerk.specs.Heards.{IsUnheard, heard_root};
ghost use Rattle.cds_clerk.specs.Links.{IsLed, IsTargetOf, IsTargetRead, lead_read};
ghost use Rattle.cds_clerk.specs.Readings.{IfFound, IfSaid, IfUnknown, IfUnrooted};

use crate::heard::Heard;
use crate::reading::{Outcome, entry_of};
use crate::walking::{Walked, walk};
use cell_names::FullName;
use clerk_lines::Lead;
use ns_commands::refusal_of_walk;
use resolver::laws::ends_are_seen;
use resolver::{End, Found};
use script_answers::{Answer, ScriptRefusal};
use std::alloc::{AllocError, Global};

// The answer of where an entry leads: refused, if it is no link.
fn target(alloc: Global, lead: &Lead) -> Result<Answer, AllocError>
    ensures { IfOk result (λ a. a ≡ lead_read lead.now) }
{
    match lead {
        Lead::Link(target) => Ok(Answer::Target(target.copy(alloc)?)),
        Lead::Object | Lead::Child(_) => Ok(Answer::Refused(ScriptRefusal::NotLink)),
    }
}

// The answer of an entry that a walk found.
fn target_of(alloc: Global, heard: &Heard, found: &Found) -> Result<Answer, AllocError>
    requires { IsLed heard.now found.now }
    ensures { IfOk result (λ a. (r : Reader) → Agrees r heard.now → IsTargetOf r found.now a) }
{
    target(alloc, &entry_of(heard, found).lead)
}

// The answer by the end of a walk.
fn link_at(alloc: Global, heard: &Heard, end: End) -> Result<Answer, AllocError>
    requires { IfFound end (IsLed heard.now) }
    ensures { IfOk result (λ a. (r : Reader) → Agrees r heard.now
        → IsTargetRead r (found_of end) a) }
{
    match end {
        End::Found(found) => target_of(alloc, heard, &found),
        End::Missing(_, done) => Ok(Answer::Refused(ScriptRefusal::NoSuchName(done))),
        End::Refused(refusal) => Ok(Answer::Refused(refusal_of_walk(refusal))),
    }
}

/// Where the link of a name leads, the last component not followed, by what was heard. Each reader
/// that agrees with what was heard has that answer, whatever else it tells. What lacks was not
/// heard, and the walk comes to a look-up of it.
pub fn read_link(alloc: Global, heard: &Heard, name: &FullName) -> Result<Outcome, AllocError>
    ensures done { IfOk result (λ x. IfSaid x (λ a. (r : Reader) → Agrees r heard.now
        → IsTargetRead r (walk_end r false name.now) a)) }
    ensures asks { IfOk result (λ x. IfUnknown x (IsUnheard heard.now)) }
    ensures needs { IfOk result (λ x. IfUnknown x (λ q. (root : Pointer)
        → heard_root heard.now.root ≡ Some (Some root)
        → IsNeeded heard.now false (first_walker root name.now) q)) }
    ensures root { IfOk result (λ x. IfUnrooted x (heard_root heard.now.root ≡ None)) }
{
    ends_are_seen();
    match walk(alloc, heard, name, false)? {
        Walked::Ended(end) => Ok(Outcome::Said(link_at(alloc, heard, end)?)),
        Walked::LacksRoot => Ok(Outcome::LacksRoot),
        Walked::Lacks(lack) => Ok(Outcome::Lacks(lack)),
    }
}
