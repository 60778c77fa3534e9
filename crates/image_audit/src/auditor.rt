// The audit of two images.
ghost use Rattle.std.specs.Prelude.{◌≡◌, false, IsOk, IfOk, option_copied};
ghost use Rattle.std.specs.Option.{option_map};
ghost use Rattle.image_audit.specs.PrivateOpen.{fact_of};
ghost use Rattle.image_audit.specs.Verdicts.{smaller, open_of, first_of, replica_in, tell_verdict, verdict, is_differ};
ghost use Rattle.image_audit.specs.declared.verdict.Verdict.TheVariants.{Differ};

use crate::fact::OpenFact;
use crate::open_facts::first_open;
use crate::verdict::Verdict;
use cds_messages::{Image, ImageDir};
use cds_stamps::{DirId, Stamp};
use purge_rule::Replica;
use std::alloc::{AllocError, Global};

// The smaller of two AllUpTo: none is the smallest.
fn smaller(a: Option<Stamp>, b: Option<Stamp>) -> Option<Stamp>
    ensures { result ≡ smaller a b }
{
    match (a, b) {
        (Some(a), Some(b)) => Some(if b < a { b } else { a }),
        _ => None,
    }
}

// The replica that an image has of a directory.
fn replica_in(image: &Image, dir: DirId) -> Option<&Replica>
    ensures { option_copied result ≡ replica_in image.now dir }
{
    match image.dirs.get(&dir)? {
        ImageDir::Held(_, _, replica) => Some(replica),
        ImageDir::Gone(_) => None,
    }
}

// The first fact of a replica up to t for which the other does not answer. It is asked where its
// AllUpTo is t.
fn open_of<'a>(t: Option<Stamp>, own: &'a Replica, other: &Replica) -> Option<OpenFact<'a>>
    ensures { option_map fact_of result ≡ open_of t own.now other.now }
{
    let t = &t?;
    if other.all_up_to == Some(*t) {
        first_open(*t, &own.table, &other.table)
    } else {
        None
    }
}

// What is reported of the first open fact of each replica, if any.
fn tell(
    alloc: Global,
    t: Option<Stamp>,
    one: &Option<OpenFact<'_>>,
    two: &Option<OpenFact<'_>>,
) -> Result<Verdict, AllocError>
    ensures verdict { IfOk result
        (λ v. v ≡ tell_verdict t
        (first_of (option_map fact_of one.now) (option_map fact_of two.now))) }
    ensures no_memory { is_differ (tell_verdict t
        (first_of (option_map fact_of one.now) (option_map fact_of two.now))) ≡ false
        → IsOk result }
{
    match (one, two) {
        (Some(one), Some(two)) if two.is_before(one) => differ(alloc, 2, two),
        (Some(one), _) => differ(alloc, 1, one),
        (None, Some(two)) => differ(alloc, 2, two),
        (None, None) => Ok(Verdict::Agree(t)),
    }
}

// An image has a fact for which the other does not answer.
fn differ(alloc: Global, image: u8, fact: &OpenFact<'_>) -> Result<Verdict, AllocError>
    ensures { IfOk result (λ v. v ≡ Differ image (fact_of fact.now)) }
{
    Ok(Verdict::Differ(image, fact.copy(alloc)?))
}

/// Audits a directory in two images: whether the houses that they come from can be replicas of it
/// that agree up to the smaller AllUpTo. An answer other than Differ takes no memory.
pub fn audit<'a>(
    alloc: Global,
    first: &'a Image,
    second: &'a Image,
    dir: DirId,
) -> Result<Verdict, AllocError>
    ensures verdict { IfOk result (λ v. v ≡ verdict first.now second.now dir) }
    ensures no_memory { is_differ (verdict first.now second.now dir) ≡ false → IsOk result }
{
    let Some(one) = replica_in(first, dir) else {
        return Ok(Verdict::NoReplica(1));
    };
    let Some(two) = replica_in(second, dir) else {
        return Ok(Verdict::NoReplica(2));
    };
    let t = &smaller(one.all_up_to, two.all_up_to);
    tell(alloc, *t, &open_of(*t, one, two), &open_of(*t, two, one))
}
