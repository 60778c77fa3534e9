// The last record of a segment that an earlier process left, whose chain is compared from its head
// on.
ghost use Rattle.std.specs.Prelude.{◌≡◌, ◌≢◌, ◌<◌, ◌∷◌, ◌++◌, [], ℕ, List, length, IfSome, IfNone, IsTrue, IsFalse};
ghost use Rattle.house_journal.specs.JournalRecords.{images};
ghost use Rattle.house_segments.specs.Chains.{digest_after, sealed};
ghost use Rattle.house_segments.specs.Reading.{EndedLater, IsLast, IsSegment, end_of};

use crate::chain::{DIGEST, digest_of};

/// The last record of a segment: its body, and its digest.
#[derive(Clone, Copy)]
pub struct LastRecord<'a> {
    pub body: &'a [u8],
    pub digest: [u8; 32],
}

// The record of which octets begin with the length, and what follows it.
#[tactic(auto, using(crate::proofs::ReadLemmas::sized_open, crate::proofs::ReadLemmas::sized_end, crate::proofs::ReadLemmas::few_none, crate::proofs::ReadLemmas::few_end, crate::proofs::ReadLemmas::long_none, crate::proofs::ReadLemmas::long_end))]
fn sized_record(octets: &[u8]) -> Option<(&[u8], &[u8])>
    ensures some { IfSome result (λ r. images (1 ∷ octets.now) ≡ r.0.now ∷ images r.1.now) }
    ensures end { IfSome result (λ r. end_of (1 ∷ octets.now) ≡ end_of r.1.now) }
    ensures shorter { IfSome result (λ r. length r.1.now < length octets.now) }
    ensures none { IfNone result (images (1 ∷ octets.now) ≡ []) }
    ensures at_end { IfNone result (end_of (1 ∷ octets.now) ≡ 1 ∷ octets.now) }
{
    if octets.len() < 9 {
        return None;
    }
    let mut head = [0; 8];
    head.copy_from_slice(&octets[..8]);
    let len = u64::from_be_bytes(head);
    let (_, rest) = octets.split_at(8);
    if len >= rest.len() as u64 {
        return None;
    }
    Some(rest.split_at(len as usize))
}

/// The record at the front of octets and what follows it, if the gate there is open.
#[tactic(auto, using(crate::proofs::ReadLemmas::other_none, crate::proofs::ReadLemmas::other_end, crate::proofs::ReadLemmas::few_end))]
pub fn first_record(octets: &[u8]) -> Option<(&[u8], &[u8])>
    ensures some { IfSome result (λ r. images octets.now ≡ r.0.now ∷ images r.1.now) }
    ensures end { IfSome result (λ r. end_of octets.now ≡ end_of r.1.now) }
    ensures shorter { IfSome result (λ r. length r.1.now < length octets.now) }
    ensures none { IfNone result (images octets.now ≡ []) }
    ensures at_end { IfNone result (end_of octets.now ≡ octets.now) }
{
    match octets.split_first() {
        None => None,
        Some((gate, rest)) => {
            if *gate != 1 {
                return None;
            }
            sized_record(rest)
        }
    }
}

/// The body and the digest of a record, if it comes after a record with this digest.
#[tactic(auto, using(crate::proofs::ReadLemmas::few_unsealed))]
pub fn unsealed<'a>(before: &[u8], octets: &'a [u8]) -> Option<LastRecord<'a>>
    ensures is { IfSome result (λ r. octets.now ≡ sealed before.now r.body.now) }
    ensures digest { IfSome result (λ r. r.digest ≡ digest_after before.now r.body.now) }
    ensures none { IfNone result ((body : List ℕ) → octets.now ≢ sealed before.now body) }
{
    if octets.len() < DIGEST {
        return None;
    }
    let (body, last) = octets.split_at(octets.len() - DIGEST);
    let digest = digest_of(before, body);
    if last != digest.as_slice() {
        return None;
    }
    Some(LastRecord { body, digest })
}

// The head of a segment, if it is this text and a digest.
#[tactic(auto, using(crate::proofs::ReadLemmas::few_head, crate::proofs::ReadLemmas::short_head))]
fn head_of<'a>(title: &[u8], octets: &'a [u8]) -> Option<LastRecord<'a>>
    ensures some { IfSome result (λ r. IsLast title.now (octets.now ∷ []) r.body.now r.digest) }
    ensures none { IfNone result ((before : List ℕ) → length before ≡ 32
        → octets.now ≢ sealed before (title.now ++ before)) }
{
    if octets.len() < DIGEST {
        return None;
    }
    let (body, ends) = octets.split_at(octets.len() - DIGEST);
    if body.len() < title.len() {
        return None;
    }
    let (text, before) = body.split_at(title.len());
    if text != title {
        return None;
    }
    if before.len() != DIGEST {
        return None;
    }
    let digest = digest_of(before, body);
    if ends != digest.as_slice() {
        return None;
    }
    Some(LastRecord { body, digest })
}

// Whether the list ended later once, which no crash undoes: the gate that ends it is 1; or a record
// follows that comes after a record with this digest, and another whole one follows that.
#[tactic(auto, using(crate::proofs::ReadLemmas::none_ended, crate::proofs::ReadLemmas::had_more))]
fn went_on(before: &[u8], octets: &[u8]) -> bool
    requires { images octets.now ≡ [] }
    ensures yes { IsTrue result → EndedLater before.now octets.now }
    ensures no { IsFalse result → EndedLater before.now octets.now → ⊥ }
{
    let Some((gate, rest)) = octets.split_first() else {
        return false;
    };
    if *gate == 1 {
        return true;
    }
    let Some((next, behind)) = sized_record(rest) else {
        return false;
    };
    let Some((_, _)) = first_record(behind) else {
        return false;
    };
    match unsealed(before, next) {
        Some(_) => true,
        None => false,
    }
}

/// The last record of a segment whose head is this text and a digest; none, if the octets are no
/// such segment: if a record does not end in the digest of the record before and of itself, or if
/// the list ended later once.
#[tactic(auto, using(crate::proofs::ReadLemmas::none_segment, crate::proofs::ReadLemmas::headless))]
pub fn last_record<'a>(title: &[u8], octets: &'a [u8]) -> Option<LastRecord<'a>>
    ensures some { IfSome result (λ r. IsLast title.now (images octets.now) r.body.now r.digest) }
    ensures ends { IfSome result (λ r. EndedLater r.digest (end_of octets.now) → ⊥) }
    ensures none { IfNone result (IsSegment title.now octets.now → ⊥) }
{
    let (first, mut rest) = first_record(octets)?;
    let mut last = head_of(title, first)?;
    'records: while let Some((next, behind)) = first_record(rest) {
        last = unsealed(&last.digest, next)?;
        rest = behind;
    }
    if went_on(&last.digest, rest) {
        return None;
    }
    Some(last)
}
