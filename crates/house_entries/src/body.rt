// The body of a record: the number of the entry, the clock, a mark, the length of the text, the
// text, and the image.
ghost use Rattle.std.specs.Prelude.{◌≡◌, ◌≢◌, ◌+◌, ◌^◌, ◌<◌, ◌≤◌, ℕ, List, Option, length, take, drop, IfOk, IfSome, IfNone, option_copied};
ghost use Rattle.std.specs.Int.{from_be_bytes, w32, w64};
ghost use Rattle.house_entries.specs.Bodies.{IsBody, body_of, image_in, mark_of};

use std::alloc::{AllocError, Global};

// How many octets come before the text.
const FRONT: usize = 21;

/// A record as its octets have it: the number of the entry, the clock of the house in it, its text,
/// and the image after it, if it has one.
#[derive(Clone, Copy)]
pub struct Body<'a> {
    pub number: u64,
    pub clock: u64,
    pub text: &'a [u8],
    pub image: Option<&'a [u8]>,
}

/// The octets of a record.
pub fn body_octets(
    alloc: Global,
    number: u64,
    clock: u64,
    text: &[u8],
    image: Option<&[u8]>,
) -> Result<Vec<u8>, AllocError>
    requires { length text.now < 2 ^ 32 }
    ensures { IfOk result
        (λ v. v.items ≡ body_of number clock text.now (option_copied image.entry)) }
{
    let mut octets = Vec::with_capacity(alloc, FRONT)?;
    octets.extend_from_slice(&number.to_be_bytes())?;
    octets.extend_from_slice(&clock.to_be_bytes())?;
    octets.push(u8::from(image.is_some()))?;
    octets.extend_from_slice(&(text.len() as u32).to_be_bytes())?;
    octets.extend_from_slice(text)?;
    if let Some(image) = image {
        octets.extend_from_slice(image)?;
    }
    Ok(octets)
}

// Eight octets as a number.
fn number_at(octets: &[u8], at: usize) -> u64
    requires { at + 8 ≤ length octets.now }
    ensures number { result ≡ from_be_bytes w64 (take 8 (drop at octets.now)) }
    ensures fits { result < 2 ^ 64 }
{
    let mut eight = [0; 8];
    eight.copy_from_slice(&octets[at..at + 8]);
    u64::from_be_bytes(eight)
}

// Four octets as a length.
fn length_at(octets: &[u8], at: usize) -> usize
    requires { at + 4 ≤ length octets.now }
    ensures length { result ≡ from_be_bytes w32 (take 4 (drop at octets.now)) }
    ensures fits { result < 2 ^ 32 }
{
    let mut four = [0; 4];
    four.copy_from_slice(&octets[at..at + 4]);
    u32::from_be_bytes(four) as usize
}

// The image of a record with this mark, or none of it, if this is right after its text.
fn image_after(mark: u8, rest: &[u8]) -> Option<Option<&[u8]>>
    ensures mark { IfSome result (λ i. mark ≡ mark_of (option_copied i)) }
    ensures rest { IfSome result (λ i. rest.now ≡ image_in (option_copied i)) }
    ensures none { IfNone result
        ((i : Option (List ℕ)) → mark ≡ mark_of i → rest.now ≢ image_in i) }
{
    match mark {
        0 if rest.is_empty() => Some(None),
        1 => Some(Some(rest)),
        _ => None,
    }
}

/// The record that octets are; none, if they are the octets of no record.
#[tactic(auto, using(crate::proofs::BodyLemmas::few_octets, crate::proofs::BodyLemmas::text_fits, crate::proofs::BodyLemmas::image_fits))]
pub fn read_body(octets: &[u8]) -> Option<Body<'_>>
    ensures some { IfSome result
        (λ b. IsBody octets.now b.number b.clock b.text.now (option_copied b.image)) }
    ensures none { IfNone result ((number clock : ℕ) (text : List ℕ) (image : Option (List ℕ))
        → ¬ IsBody octets.now number clock text image) }
{
    if octets.len() < FRONT {
        return None;
    }
    let (front, rest) = octets.split_at(FRONT);
    let len = length_at(front, 17);
    if len > rest.len() {
        return None;
    }
    let (text, rest) = rest.split_at(len);
    let image = image_after(front[16], rest)?;
    Some(Body {
        number: number_at(front, 0),
        clock: number_at(front, 8),
        text,
        image,
    })
}
