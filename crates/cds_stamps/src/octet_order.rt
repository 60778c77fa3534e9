// The order of octets, compared several at a time.
ghost use Rattle.std.specs.Prelude.{◌≡◌, ◌+◌, ◌<◌, ◌≤◌, min, length, take, drop};
ghost use Rattle.std.specs.Int.{w32, w64, from_be_bytes};
ghost use Rattle.cds_stamps.specs.Octets.{octets_cmp};

use std::cmp::Ordering;

// How many octets a word has, and half a word.
const WORD: usize = 8;

const HALF: usize = 4;

/// The order of octets, one by one; a proper prefix comes first. They are read eight at a time, the
/// last eight again if need be.
pub(crate) fn octet_order(a: &[u8], b: &[u8]) -> Ordering
    ensures { result ≡ octets_cmp a.now b.now }
{
    let both = a.len().min(b.len());
    if both < WORD {
        return short_order(a, b, both);
    }
    let last = both - WORD;
    let mut i = 0;
    'words: while i < last {
        let (x, y) = (word(a, i), word(b, i));
        if x != y {
            return x.cmp(&y);
        }
        i += WORD;
    }
    let (x, y) = (word(a, last), word(b, last));
    if x != y {
        return x.cmp(&y);
    }
    a.len().cmp(&b.len())
}

/// The same where the shorter of the two has this many octets, fewer than eight.
fn short_order(a: &[u8], b: &[u8], both: usize) -> Ordering
    requires least { both ≡ min (length a.now) (length b.now) }
    requires few { both < 8 }
    ensures { result ≡ octets_cmp a.now b.now }
{
    let halves = both / HALF * HALF;
    if both >= HALF {
        let (x, y) = (half(a, 0), half(b, 0));
        if x != y {
            return x.cmp(&y);
        }
    }
    'singles: for i in halves..both {
        if a[i] != b[i] {
            return a[i].cmp(&b[i]);
        }
    }
    a.len().cmp(&b.len())
}

/// The number that eight octets spell, the first one highest.
fn word(s: &[u8], i: usize) -> u64
    requires { i + 8 ≤ length s.now }
    ensures { result ≡ from_be_bytes w64 (take 8 (drop i s.now)) }
{
    u64::from_be_bytes([
        s[i],
        s[i + 1],
        s[i + 2],
        s[i + 3],
        s[i + 4],
        s[i + 5],
        s[i + 6],
        s[i + 7],
    ])
}

/// The number that four octets spell, the first one highest.
fn half(s: &[u8], i: usize) -> u32
    requires { i + 4 ≤ length s.now }
    ensures { result ≡ from_be_bytes w32 (take 4 (drop i s.now)) }
{
    u32::from_be_bytes([s[i], s[i + 1], s[i + 2], s[i + 3]])
}
