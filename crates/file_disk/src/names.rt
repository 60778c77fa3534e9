// The names of the files in the folder of a house.
ghost use Rattle.std.specs.Prelude.{◌≡◌, ◌≢◌, ◌↔◌, ◌<◌, ◌^◌, ◌∷◌, ◌++◌, ℕ, decimal, IfNone, IfOk, IfSome, IsTrue, string_bytes};

use itoa::Buffer;
use std::alloc::{AllocError, Global};

/// A name in the folder.
pub fn path_of(alloc: Global, folder: &str, name: &str) -> Result<String, AllocError>
    ensures { IfOk result (λ p. string_bytes p ≡ folder.now ++ 47 ∷ name.now) }
{
    format!(in alloc; "{folder}/{name}")
}

/// The path of a segment.
pub fn segment_path(alloc: Global, folder: &str, number: u64) -> Result<String, AllocError>
    ensures { IfOk result (λ p. string_bytes p ≡ folder.now ++ 47 ∷ decimal number) }
{
    format!(in alloc; "{folder}/{number}")
}

// The number that a text says: its own, if it is that of a number in decimal digits.
fn parsed(name: &str) -> Option<u64>
    ensures { (n : ℕ) → n < 2 ^ 64 → name.now ≡ decimal n → result ≡ Some n }
{
    name.parse::<u64>().ok()
}

// Whether a name is that of a number, in decimal digits.
fn is_name_of(name: &str, number: u64) -> bool
    ensures { IsTrue result ↔ (name.now ≡ decimal number) }
{
    let mut digits = Buffer::new();
    digits.format(number) == name
}

/// The number that a name is in decimal digits, as that of a segment; none, if it is no such name.
pub fn number_in(name: &str) -> Option<u64>
    ensures some { IfSome result (λ n. name.now ≡ decimal n) }
    ensures none { IfNone result ((n : ℕ) → n < 2 ^ 64 → name.now ≢ decimal n) }
{
    let number = parsed(name)?;
    let same = is_name_of(name, number);
    if same { Some(number) } else { None }
}
