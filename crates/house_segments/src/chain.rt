// The octets of a record, and the digest that the next one begins with.
ghost use Rattle.std.specs.Prelude.{◌≡◌, ◌+◌, ◌++◌, length, IfOk};
ghost use Rattle.house_segments.specs.Chains.{digest_after, sealed};

use sha2::{Digest, Sha256};
use std::alloc::{AllocError, Global};

/// How many octets a digest has.
pub const DIGEST: usize = 32;

/// The digest of a record with this body, after a record with this digest.
pub(crate) fn digest_of(before: &[u8], body: &[u8]) -> [u8; 32]
    ensures { result ≡ digest_after before.now body.now }
{
    let mut hasher = Sha256::new();
    hasher.update(before);
    hasher.update(body);
    hasher.finalize()
}

/// The octets of a record with this body and this digest.
pub(crate) fn octets_of(
    alloc: Global,
    body: &[u8],
    digest: &[u8; 32],
) -> Result<Vec<u8>, AllocError>
    ensures { IfOk result (λ v. v.items ≡ body.now ++ digest.now) }
{
    let mut octets = Vec::with_capacity(alloc, body.len().saturating_add(DIGEST))?;
    octets.extend_from_slice(body)?;
    octets.extend_from_slice(digest)?;
    Ok(octets)
}
